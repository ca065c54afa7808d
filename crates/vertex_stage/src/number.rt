//! The numbers of an element of an array, as fixed numbers.

ghost use Rattle.std.specs.Prelude.{◌≡◌, ◌≤◌, ◌<◌, ◌^◌, ◌+◌, ◌-◌, ◌*◌, nat_lt, if◌then◌else◌};
ghost use Rattle.gl_tracked.specs.Tracked.{IsArray};
ghost use Rattle.gl_tracked.specs.Element.{element_at, number_bytes, number_count};
ghost use Rattle.vertex_stage.specs.Number.{integer_at, fixed_of, missing, element_part, element_parts, given_or};

use crate::memories::{Memories, Numbered};
use gl_memory::{Memory, read_i32, read_u16};
use gl_tracked::ArrayState;

/// How many bytes a number of a type has; section 2.8.
#[tactic(auto, unfolding(gl_tracked::specs::Element::number_bytes))]
fn number_bytes(kind: u32) -> u64
    ensures bytes { result ≡ number_bytes kind }
    ensures few { result ≤ 4 }
{
    match kind {
        0x1400 | 0x1401 => 1,
        0x1402 => 2,
        0x140C => 4,
        _ => 0,
    }
}

/// The number of a type at a place, as a fixed number; sections 2.7 and 2.8, the rounding own.
#[tactic(auto, unfolding(crate::specs::Number::integer_at, crate::specs::Number::fixed_of))]
fn fixed_at<M: Memory>(memory: &M, kind: u32, place: u64) -> i32
    requires place { place < 2 ^ 63 - 4 }
    ensures { result ≡ fixed_of kind (integer_at kind (M.segments memory.now) place) }
{
    match kind {
        0x1400 => 65536 * i32::from(memory.byte(place).cast_signed()),
        0x1401 => (65536 * i32::from(memory.byte(place))).div_euclid(255),
        0x1402 => 65536 * i32::from(read_u16(memory, place).cast_signed()),
        0x140C => read_i32(memory, place),
        _ => 0,
    }
}

/// The number at a place of the memory in which an array lies, as a fixed number (section 2.9).
fn number_at<S: Memories>(array: &ArrayState, memories: &S, place: u64) -> i32
    requires place { place < 2 ^ 63 - 4 }
    ensures { result ≡ fixed_of array.now.kind
        (integer_at array.now.kind (S.each memories.now array.now.buffer) place) }
{
    fixed_at(&Numbered::new(memories, array.buffer), array.kind, place)
}

/// Where the element at a place begins (section 2.8).
fn start_of(array: &ArrayState, place: u32) -> u64
    requires array { IsArray array.now }
    requires near { place < 2 ^ 31 + 2 ^ 16 }
    ensures start { result ≡ (element_at array.now place).start }
    ensures low { result < 2 ^ 63 - 2 ^ 32 }
{
    // What is read here is known to be in range, so that no place runs over.
    let (_pointer, _stride) = (array.pointer, array.stride);
    array.element(place).start
}

/// The four parts of the element at a place; sections 2.7 and 2.8.
#[tactic(auto, unfolding(crate::specs::Number::element_part, crate::specs::Number::element_parts))]
pub(crate) fn parts<S: Memories>(array: &ArrayState, memories: &S, place: u32) -> [i32; 4]
    requires array { IsArray array.now }
    requires near { place < 2 ^ 31 + 2 ^ 16 }
    ensures { result ≡ element_parts array.now (S.each memories.now) place }
{
    let start = start_of(array, place);
    let bytes = number_bytes(array.kind);
    [
        part(array, memories, start, 0),
        part(array, memories, start + bytes, 1),
        part(array, memories, start + 2 * bytes, 2),
        part(array, memories, start + 3 * bytes, 3),
    ]
}

/// One part of an element, which stands at a place of memory if the element has it; sections 2.7 and 2.8.
fn part<S: Memories>(array: &ArrayState, memories: &S, place: u64, number: u32) -> i32
    requires place { place < 2 ^ 63 - 4 }
    requires few { number < 4 }
    ensures { result ≡ (if nat_lt number (number_count array.now.size)
        then fixed_of array.now.kind
        (integer_at array.now.kind (S.each memories.now array.now.buffer) place)
        else missing number) }
{
    if array.size > number as i32 {
        number_at(array, memories, place)
    } else if number == 3 {
        65536
    } else {
        0
    }
}

/// The four parts that a vertex takes of an array, or the current value where the array is disabled; section 2.8.
#[tactic(auto, unfolding(crate::specs::Number::given_or))]
pub(crate) fn given_or<S: Memories>(
    array: &ArrayState,
    current: [i32; 4],
    memories: &S,
    place: u32,
) -> [i32; 4]
    requires array { IsArray array.now }
    requires near { place < 2 ^ 31 + 2 ^ 16 }
    ensures { result ≡ given_or array.now current (S.each memories.now) place }
{
    if array.enabled {
        parts(array, memories, place)
    } else {
        current
    }
}
