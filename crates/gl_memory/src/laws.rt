//! Laws of memories: functions with an empty body, whose contract is the law.

ghost use Rattle.std.specs.Prelude.{◌≡◌, ℕ, List, ◌∷◌, length};
ghost use Rattle.gl_memory.specs.Segment.{Segment};
ghost use Rattle.gl_memory.specs.Piece.{Agree, cut};
ghost use Rattle.gl_memory.specs.Slots.{LieIn, lent};
ghost use Rattle.gl_memory.specs.Laws.{FirstIsRead, ReadsBack};

use crate::client_memory::ClientMemory;
use crate::memory::Memory;
use crate::pieces::Pieces;

/// What is cut out of a memory has the memory's byte at each place of the pieces.
pub fn cut_law<M: Memory>(memory: &M, pieces: &Pieces)
    ensures { Agree (M.segments memory.now) (cut pieces.now (M.segments memory.now)) pieces.now }
{}

/// A place that the first segment holds has its byte, and each other place that of the other segments.
pub fn segment_law<M: Memory>(memory: &M)
    ensures { FirstIsRead (M.segments memory.now) }
{}

/// Each place of client memory reads what was written there, and each place past it 0.
pub fn write_law(memory: &ClientMemory, at: u64, bytes: &[u8])
    ensures { ReadsBack memory.now at bytes.now }
{}

/// As many bytes are lent as were asked for.
pub fn lent_law(slots: &[u64])
    ensures { (skip len : ℕ) → LieIn slots.now skip len → length (lent slots.now skip len) ≡ len }
{}
