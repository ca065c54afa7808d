//! How comparisons come out.

ghost use Rattle.std.specs.Prelude.{◌≡◌};
ghost use Rattle.fragment_ops.specs.Comparison.{compares};

const NEVER: u32 = 0x0200;

const LESS: u32 = 0x0201;

const EQUAL: u32 = 0x0202;

pub(crate) const LEQUAL: u32 = 0x0203;

const GREATER: u32 = 0x0204;

const NOTEQUAL: u32 = 0x0205;

const GEQUAL: u32 = 0x0206;

/// Whether a comparison holds of two numbers (sections 4.1.4 and 4.1.6). Those of most depth tests are asked for first.
#[inline(always)]
#[tactic(auto, unfolding(crate::specs::Comparison::compares))]
pub(crate) fn compares(comparison: u32, left: u16, right: u16) -> bool
    ensures { result ≡ compares comparison left right }
{
    if comparison == LESS {
        left < right
    } else if comparison == LEQUAL {
        left <= right
    } else {
        compares_by_name(comparison, left, right)
    }
}

/// The same, by its name.
#[inline(never)]
#[tactic(auto, unfolding(crate::specs::Comparison::compares))]
fn compares_by_name(comparison: u32, left: u16, right: u16) -> bool
    ensures { result ≡ compares comparison left right }
{
    match comparison {
        NEVER => false,
        LESS => left < right,
        EQUAL => left == right,
        LEQUAL => left <= right,
        GREATER => right < left,
        NOTEQUAL => left != right,
        GEQUAL => right <= left,
        // ALWAYS.
        _ => true,
    }
}
