//! The piece of client memory in which a matrix lies.

ghost use Rattle.std.specs.Prelude.{◌≡◌};
ghost use Rattle.gl_memory.specs.ClientMemory.{memory_of};
ghost use Rattle.array_capture.specs.Pieces.{pieces_of_matrix};
ghost use Rattle.gl_tracked.specs.Ranges.{range_of_matrix};

use crate::part::push_part;
use gl_memory::{ClientMemory, Piece, Pieces};

/// How many bytes a matrix has: 16 numbers of four (section 2.10.2).
const MATRIX_BYTES: u64 = 64;

/// The pieces of client memory for LoadMatrixx and MultMatrixx at a pointer, in bytes: one, or none where the pointer lies
/// past the end (section 2.10.2). It takes no memory.
pub fn pieces_of_matrix(pointer: u32, memory: &ClientMemory) -> Pieces
    ensures { result ≡ pieces_of_matrix pointer (memory_of memory.now) }
{
    let mut pieces = Pieces::new();
    push_part(&mut pieces, range_of_matrix(pointer), memory.len());
    pieces
}

/// Where the matrix at a pointer lies (section 2.10.2).
#[tactic(auto, unfolding(gl_tracked::specs::Ranges::range_of_matrix))]
fn range_of_matrix(pointer: u32) -> Piece
    ensures { result ≡ range_of_matrix pointer }
{
    Piece {
        start: u64::from(pointer),
        len: MATRIX_BYTES,
    }
}
