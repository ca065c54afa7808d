//! The part of a range that lies in client memory.

ghost use Rattle.std.specs.Prelude.{◌≡◌, ◌+◌, ◌<◌, ◌≤◌, ◌++◌, length};
ghost use Rattle.array_capture.specs.Pieces.{part_before};

use gl_memory::{Piece, Pieces};

/// Puts the part of a range before the place `end` behind the other pieces, where there is one.
#[tactic(auto, unfolding(crate::specs::Pieces::part_before))]
pub(crate) fn push_part(pieces: &mut Pieces, range: Piece, end: u32)
    requires room { length pieces.old < 8 }
    ensures part { pieces.new ≡ pieces.old ++ part_before end range }
    ensures few { length pieces.new ≤ length pieces.old + 1 }
{
    let end = u64::from(end);
    if range.start < end && range.len > 0 {
        pieces.push(Piece {
            start: range.start,
            len: range.len.min(end - range.start),
        });
    }
}
