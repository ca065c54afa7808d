//! The piece of client memory in which the bytes of an upload or the names of a deletion lie.

ghost use Rattle.std.specs.Prelude.{◌≡◌};
ghost use Rattle.gl_memory.specs.ClientMemory.{memory_of};
ghost use Rattle.gl_tracked.specs.Ranges.{range_of_bytes, range_of_names};
ghost use Rattle.array_capture.specs.Pieces.{pieces_of_bytes, pieces_of_data, pieces_of_names};

use crate::part::push_part;
use gl_memory::{ClientMemory, Piece, Pieces};
use gl_tracked::count_of;

/// The pieces of client memory for BufferData of `size` bytes from the place `source` on: one, or none where there is no byte in
/// memory, and none for the place 0, which stands for zeros (section 2.9, the last own). It takes no memory.
#[tactic(auto, unfolding(crate::specs::Pieces::pieces_of_data, crate::specs::Pieces::pieces_of_bytes, crate::specs::Pieces::parts_in, gl_tracked::specs::Ranges::ranges_of_data))]
pub fn pieces_of_data(source: u32, size: i32, memory: &ClientMemory) -> Pieces
    ensures { result ≡ pieces_of_data source size (memory_of memory.now) }
{
    if source == 0 {
        return Pieces::new();
    }
    pieces_of_bytes(source, size, memory)
}

/// The pieces of client memory for BufferSubData of `size` bytes from the place `source` on: one, or none where there is no byte
/// in memory (section 2.9). It takes no memory.
pub fn pieces_of_bytes(source: u32, size: i32, memory: &ClientMemory) -> Pieces
    ensures { result ≡ pieces_of_bytes source size (memory_of memory.now) }
{
    let mut pieces = Pieces::new();
    push_part(&mut pieces, range_of_bytes(source, size), memory.len());
    pieces
}

/// The pieces of client memory for DeleteBuffers and DeleteTextures of `n` names from the place `names` on, four bytes each: one,
/// or none where there is no byte in memory (sections 2.9 and 3.7.11). It takes no memory.
pub fn pieces_of_names(names: u32, n: i32, memory: &ClientMemory) -> Pieces
    ensures { result ≡ pieces_of_names names n (memory_of memory.now) }
{
    let mut pieces = Pieces::new();
    push_part(&mut pieces, range_of_names(names, n), memory.len());
    pieces
}

/// Where so many bytes lie (section 2.9).
#[tactic(auto, unfolding(gl_tracked::specs::Ranges::range_of_bytes))]
fn range_of_bytes(source: u32, size: i32) -> Piece
    ensures { result ≡ range_of_bytes source size }
{
    Piece {
        start: u64::from(source),
        len: u64::from(count_of(size)),
    }
}

/// Where so many names lie (section 2.9).
#[tactic(auto, unfolding(gl_tracked::specs::Ranges::range_of_names))]
fn range_of_names(names: u32, n: i32) -> Piece
    ensures { result ≡ range_of_names names n }
{
    Piece {
        start: u64::from(names),
        len: 4 * u64::from(count_of(n)),
    }
}
