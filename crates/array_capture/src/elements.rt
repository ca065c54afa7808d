//! The pieces of client memory that a draw by indices reads: those of the elements that its indices name, and the indices.

ghost use Rattle.std.specs.Prelude.{◌≡◌, ◌≤◌, length, IfSome};
ghost use Rattle.gl_memory.specs.ClientMemory.{memory_of};
ghost use Rattle.gl_tracked.specs.Indices.{indices_at};
ghost use Rattle.gl_tracked.specs.Ranges.{range_of_indices};
ghost use Rattle.gl_tracked.specs.Tracked.{IsSound};
ghost use Rattle.array_capture.specs.Pieces.{ends_of, pieces_at, pieces_of_elements};

use crate::draw::pieces_between;
use crate::part::push_part;
use gl_memory::{ClientMemory, Piece, Pieces};
use gl_tracked::{Tracked, count_drawn, index_bytes, index_numbered};

/// The least and the greatest of some places of an array.
#[derive(Clone, Copy, Debug, PartialEq, Eq)]
pub(crate) struct Ends {
    pub least: u32,
    pub greatest: u32,
}

/// The pieces of client memory for DrawElements of `count` elements, whose indices of the type `kind` lie from the place
/// `indices` on, in bytes (sections 2.8 and 2.9): 0 to 5 of arrays, each from the start of the element with the least index
/// to the end of that with the greatest, and that of the indices. There are none where the array of vertices is disabled, and
/// none where the indices lie in a buffer: then a call either reads nothing here, or isn't put off. It takes no memory.
#[tactic(auto, unfolding(crate::specs::Pieces::pieces_of_elements))]
pub fn pieces_of_elements(
    tracked: &Tracked,
    count: i32,
    kind: u32,
    indices: u32,
    memory: &ClientMemory,
) -> Pieces
    requires sound { IsSound tracked.now }
    ensures { result ≡ pieces_of_elements tracked.now count kind indices (memory_of memory.now) }
{
    if !tracked.takes_indices() {
        return Pieces::new();
    }
    let count = count_drawn(count);
    let mut pieces = pieces_named(tracked, count, kind, indices, memory);
    push_part(
        &mut pieces,
        range_of_indices(kind, indices, count),
        memory.len(),
    );
    pieces
}

/// The pieces for the elements that so many indices name.
#[tactic(auto, unfolding(crate::specs::Pieces::pieces_at))]
fn pieces_named(
    tracked: &Tracked,
    count: u32,
    kind: u32,
    indices: u32,
    memory: &ClientMemory,
) -> Pieces
    requires sound { IsSound tracked.now }
    ensures pieces { result ≡ pieces_at tracked.now
        (indices_at (memory_of memory.now) kind indices count) (memory_of memory.now) }
    ensures few { length result ≤ 5 }
{
    match ends_named(memory, kind, indices, count) {
        Some(ends) => pieces_between(tracked, ends.least, ends.greatest, memory),
        None => Pieces::new(),
    }
}

/// The least and the greatest of so many indices. None where there are none.
fn ends_named(memory: &ClientMemory, kind: u32, indices: u32, count: u32) -> Option<Ends>
    ensures ends { result ≡ ends_of (indices_at (memory_of memory.now) kind indices count) }
    ensures order { IfSome result (λ ends. ends.least ≤ ends.greatest) }
{
    if count == 0 {
        return None;
    }
    let first = index_numbered(memory, kind, indices, 0);
    let mut ends = Ends {
        least: first,
        greatest: first,
    };
    for number in 1..count {
        let index = index_numbered(memory, kind, indices, number);
        ends.least = ends.least.min(index);
        ends.greatest = ends.greatest.max(index);
    }
    Some(ends)
}

/// Where so many indices of a type lie (section 2.8).
#[tactic(auto, unfolding(gl_tracked::specs::Ranges::range_of_indices))]
fn range_of_indices(kind: u32, indices: u32, count: u32) -> Piece
    ensures { result ≡ range_of_indices kind indices count }
{
    Piece {
        start: u64::from(indices),
        len: u64::from(count) * index_bytes(kind),
    }
}
