//! The heading of a call's spelling, and its header. Nothing is written here.

ghost use Rattle.std.specs.Prelude.{◌≡◌, ◌+◌, ◌*◌, ◌^◌, ◌<◌, ◌≤◌, ℕ, List, length};
ghost use Rattle.gl_words.specs.Table.{IsRowOf};
ghost use Rattle.gl_words.specs.declared.call.Call.{Call};
ghost use Rattle.gl_memory.specs.Piece.{IsPiece};
ghost use Rattle.batch_pack.specs.Batch.{captured};
ghost use Rattle.batch_pack.specs.Heading.{IsHeadingOf};
ghost use Rattle.batch_pack.specs.Spelling.{slots_for};

use gl_memory::{Piece, Pieces};
use gl_words::TableRow;

/// What the header of a spelling says of a call, but for its segments: the call's number, and how many slots of eight bytes
/// the spelling has, at least 1; own.
#[derive(Clone, Copy)]
pub struct Heading {
    pub id: u16,
    pub slots: u64,
}

/// The heading of a call of this row with these pieces, whatever bytes they hold; own.
pub fn heading_of(row: &TableRow, pieces: &Pieces) -> Heading
    requires few { length row.now.kinds.now ≤ 9 }
    ensures { (call : Call) (bytes : List ℕ) → IsRowOf row.now call
        → IsHeadingOf result (captured call pieces.now bytes) }
{
    let mut slots = 1 + row.kinds.len() as u64;
    for at in 0..pieces.len() {
        slots += piece_slots(pieces.at(at));
    }
    Heading { id: row.id, slots }
}

/// How many slots a piece takes: its start, its length, and its bytes.
fn piece_slots(piece: Piece) -> u64
    requires piece { IsPiece piece }
    ensures count { result ≡ 2 + slots_for piece.len }
    ensures few { result ≤ 2 ^ 60 }
{
    2 + words_of(piece.len)
}

/// How many slots so many bytes take, eight to a slot.
#[tactic(auto, unfolding(crate::specs::Spelling::slots_for))]
pub(crate) fn words_of(bytes: u64) -> u64
    requires bytes { bytes ≤ 2 ^ 62 }
    ensures count { result ≡ slots_for bytes }
    ensures few { result ≤ 2 ^ 59 }
{
    (bytes + 7) / 8
}

/// The header of a spelling: the call's number in the lowest 16 bits, the count of slots in the next 32, that of
/// segments in the last 16.
pub(crate) fn header(heading: Heading, segments: usize) -> u64
    requires short { heading.slots < 2 ^ 32 }
    requires few { segments ≤ 8 }
    ensures { result ≡ heading.id + 2 ^ 16 * heading.slots + 2 ^ 48 * segments }
{
    u64::from(heading.id) + 0x1_0000 * heading.slots + 0x1_0000_0000_0000 * segments as u64
}
