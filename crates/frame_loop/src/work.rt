//! The program's own work: steps of a generator of numbers, each of which needs the one before it.

ghost use Rattle.std.specs.Prelude.{◌≡◌};
ghost use Rattle.frame_loop.specs.Work.{number_after, worked};

/// The number behind another one. No step can be left out, or be taken before the one before it.
#[tactic(auto, unfolding(crate::specs::Work::number_after))]
fn next(number: u64) -> u64
    ensures { result ≡ number_after number }
{
    // MMIX's generator: all numbers of 64 bits come before one comes again
    number
        .wrapping_mul(6_364_136_223_846_793_005)
        .wrapping_add(1_442_695_040_888_963_407)
}

/// The number so many steps behind another one.
pub(crate) fn worked(number: u64, steps: u32) -> u64
    ensures { result ≡ worked number steps }
{
    let mut number = number;
    for _ in 0..steps {
        number = next(number);
    }
    number
}
