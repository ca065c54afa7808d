//! The pieces of client memory that a draw reads: one for each array that it reads there, in the order of the arrays.

ghost use Rattle.std.specs.Prelude.{◌≡◌, ◌+◌, ◌<◌, ◌≤◌, pos, ◌≤ℤ◌, ◌++◌, if◌then◌else◌, [], length, All};
ghost use Rattle.std.specs.List.{flat_map};
ghost use Rattle.gl_memory.specs.ClientMemory.{memory_of};
ghost use Rattle.gl_tracked.specs.Element.{arrays_in_order};
ghost use Rattle.gl_tracked.specs.Tracked.{IsArray, IsSound};
ghost use Rattle.array_capture.specs.Pieces.{part_before, pieces_between, pieces_of_draw, span_of};
ghost use Rattle.gl_tracked.specs.Ranges.{is_client};

use crate::part::push_part;
use gl_memory::{ClientMemory, Piece, Pieces};
use gl_tracked::{ArrayState, Tracked};

/// The most elements of a draw; own.
const MOST: i32 = 65536;

/// The pieces of client memory for DrawArrays of `count` elements from the place `first` on (section 2.8): 0 to 5 of them,
/// each from the start of an array's first element to the end of its last. There are none where the arguments have an
/// error: a `first` below zero, or a `count` below zero or above 65536. It takes no memory.
pub fn pieces_of_draw(tracked: &Tracked, first: i32, count: i32, memory: &ClientMemory) -> Pieces
    requires sound { IsSound tracked.now }
    ensures { result ≡ pieces_of_draw tracked.now first count (memory_of memory.now) }
{
    if first < 0 || count < 1 || count > MOST {
        return Pieces::new();
    }
    let least = unsigned(first);
    pieces_between(tracked, least, least + unsigned(count - 1), memory)
}

/// A number that isn't below zero, without a sign.
fn unsigned(number: i32) -> u32
    requires { pos 0 ≤ℤ number }
    ensures { pos result ≡ number }
{
    number as u32
}

/// The pieces for the elements from the place `least` to the place `greatest`.
pub(crate) fn pieces_between(
    tracked: &Tracked,
    least: u32,
    greatest: u32,
    memory: &ClientMemory,
) -> Pieces
    requires sound { IsSound tracked.now }
    requires order { least ≤ greatest }
    ensures pieces { result ≡ pieces_between tracked.now least greatest (memory_of memory.now) }
    ensures few { length result ≤ 5 }
{
    let mut pieces = Pieces::new();
    if tracked.vertex.enabled {
        let arrays = arrays_in_order(tracked);
        push_spans(
            &mut pieces,
            arrays.as_slice(),
            least,
            greatest,
            memory.len(),
        );
    }
    pieces
}

/// The arrays as draws read them (section 2.8).
#[tactic(auto, unfolding(gl_tracked::specs::Element::arrays_in_order))]
fn arrays_in_order(tracked: &Tracked) -> [ArrayState; 5]
    requires sound { IsSound tracked.now }
    ensures arrays { result ≡ arrays_in_order tracked.now }
    ensures each { All IsArray result }
{
    let mut normal = tracked.normal;
    normal.size = 3;
    [
        tracked.vertex,
        normal,
        tracked.colour,
        tracked.texture[0],
        tracked.texture[1],
    ]
}

/// Puts a piece for each array that draws read from client memory behind the other pieces.
fn push_spans(pieces: &mut Pieces, arrays: &[ArrayState], least: u32, greatest: u32, end: u32)
    requires arrays { All IsArray arrays.now }
    requires order { least ≤ greatest }
    requires room { length pieces.old + length arrays.now ≤ 8 }
    ensures spans { pieces.new ≡ pieces.old ++ flat_map (λ array.
        if is_client array then part_before end (span_of array least greatest) else []) arrays.now }
    ensures few { length pieces.new ≤ length pieces.old + length arrays.now }
{
    for array in arrays {
        push_span(pieces, array, least, greatest, end);
    }
}

/// Puts the piece for an array behind the other pieces, where draws read it from client memory.
#[tactic(auto, unfolding(gl_tracked::specs::Ranges::is_client))]
fn push_span(pieces: &mut Pieces, array: &ArrayState, least: u32, greatest: u32, end: u32)
    requires array { IsArray array.now }
    requires order { least ≤ greatest }
    requires room { length pieces.old < 8 }
    ensures span { pieces.new ≡ pieces.old
        ++ (if is_client array.now then part_before end (span_of array.now least greatest) else []) }
    ensures few { length pieces.new ≤ length pieces.old + 1 }
{
    if array.enabled && array.buffer == 0 {
        push_part(pieces, span(array, least, greatest), end);
    }
}

/// From the start of the element at the place `least` to the end of that at the place `greatest`.
#[tactic(auto, unfolding(crate::specs::Pieces::span_of))]
fn span(array: &ArrayState, least: u32, greatest: u32) -> Piece
    requires array { IsArray array.now }
    requires order { least ≤ greatest }
    ensures { result ≡ span_of array.now least greatest }
{
    // What is read here is known to be in range, so that no place runs over below.
    let (_pointer, _stride) = (array.pointer, array.stride);
    let start = array.element(least).start;
    let last = array.element(greatest);
    Piece {
        start,
        len: last.start + last.len - start,
    }
}
