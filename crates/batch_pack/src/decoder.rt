//! The call and the segments whose spelling slots begin with. Which slots come next is told by the reader.

ghost use Rattle.std.specs.Prelude.{◌≡◌, ◌++◌, ◌+◌, ◌↔◌, ◌<◌, ◌≤◌, ◌^◌, ℕ, List, ◌∷◌, length, take, drop, map, IfSome, IsSome, IsTrue, Some};
ghost use Rattle.std.specs.List.{flat_map, AllByRecursion};
ghost use Rattle.gl_memory.specs.Segment.{Segment};
ghost use Rattle.gl_memory.specs.Slots.{LieIn, lent};
ghost use Rattle.batch_pack.specs.Spelling.{Spelled, slots_for, slots_of_bytes, segment_slots, segment_spelling, spelling_of, IsSegment, HasSpelling};
ghost use Rattle.batch_pack.specs.Decoding.{segment_at};
ghost use Rattle.batch_pack.specs.Packed.{spelled_by};

use crate::packed::Packed;
use crate::segments::{Segments, segments_from};
use crate::spelling::words_of;
use gl_words::call_in;

/// Where segments may end, in bytes of client memory: no place of theirs reaches it.
const END: u64 = 0x4000_0000_0000_0000;

/// The call and the segments whose spelling slots begin with, and the slots behind it. None exactly where they begin
/// with no spelling.
pub(crate) fn first_packed<'a>(slots: &'a [u64]) -> Option<(Packed<'a>, &'a [u64])>
    ensures found { IfSome result (λ read. HasSpelling (spelled_by read.0)
        × (slots.now ≡ spelling_of (spelled_by read.0) ++ read.1.now)) }
    ensures only { (spelled : Spelled) (more : List ℕ) → HasSpelling spelled
        → slots.now ≡ spelling_of spelled ++ more → IsSome result }
{
    match slots {
        [] => None,
        [header, rest @ ..] => packed_behind(*header, rest),
    }
}

/// The call and the segments whose spelling is a header and the first of the slots behind it, and the other slots.
fn packed_behind<'a>(header: u64, rest: &'a [u64]) -> Option<(Packed<'a>, &'a [u64])>
    ensures found { IfSome result (λ read. HasSpelling (spelled_by read.0)
        × (header ∷ rest.now ≡ spelling_of (spelled_by read.0) ++ read.1.now)) }
    ensures only { (spelled : Spelled) (more : List ℕ) → HasSpelling spelled
        → header ∷ rest.now ≡ spelling_of spelled ++ more → IsSome result }
{
    let count = header / 0x1_0000_0000_0000;
    if count > 8 {
        return None;
    }
    let (call, behind) = match call_in((header % 0x1_0000) as u16, rest) {
        Some(read) => read,
        None => return None,
    };
    let (memory, left) = match segments_in(behind, count) {
        Some(read) => read,
        None => return None,
    };
    if 1 + (rest.len() - left.len()) as u64 != header / 0x1_0000 % 0x1_0000_0000 {
        return None;
    }
    Some((Packed { call, memory }, left))
}

/// So many segments that slots begin with, and the slots behind them. None exactly where they begin with fewer.
fn segments_in<'a>(slots: &'a [u64], count: u64) -> Option<(Segments<'a>, &'a [u64])>
    requires few { count ≤ 8 }
    ensures found { IfSome result (λ read. AllByRecursion IsSegment read.0
        × (length read.0 ≡ count)
        × (slots.now ≡ flat_map segment_spelling read.0 ++ read.1.now)) }
    ensures only { (segments : List Segment) (more : List ℕ) → AllByRecursion IsSegment segments
        → length segments ≡ count → slots.now ≡ flat_map segment_spelling segments ++ more
        → IsSome result }
{
    let mut rest = slots;
    for _at in 0..count {
        match segment_length(rest) {
            Some(taken) => rest = rest.split_at(taken).1,
            None => return None,
        }
    }
    Some((segments_from(slots, count as usize), rest))
}

/// How many slots the segment takes that slots begin with. None exactly where they begin with no segment.
fn segment_length(slots: &[u64]) -> Option<usize>
    ensures found { IfSome result (λ taken. IsSegment (segment_at slots.now)
        × (taken ≡ segment_slots (segment_at slots.now))
        × (slots.now ≡ segment_spelling (segment_at slots.now) ++ drop taken slots.now)) }
    ensures only { (segment : Segment) (more : List ℕ) → IsSegment segment
        → slots.now ≡ segment_spelling segment ++ more → IsSome result }
{
    if slots.len() < 2 {
        return None;
    }
    let len = slots[1];
    if !is_range(slots[0], len) {
        return None;
    }
    if !is_filled(slots.split_at(2).1, len) {
        return None;
    }
    Some(2 + words_of(len) as usize)
}

/// Whether so many bytes from a place on may be a segment.
fn is_range(start: u64, len: u64) -> bool
    ensures { IsTrue result ↔ ((1 ≤ len) × (start + len ≤ 2 ^ 62)) }
{
    len >= 1 && len <= END && start <= END - len
}

/// Whether slots begin with so many bytes, and with zeros behind them in their last slot.
fn is_filled(slots: &[u64], len: u64) -> bool
    requires some { 1 ≤ len }
    requires few { len ≤ 2 ^ 62 }
    ensures { IsTrue result ↔ (LieIn slots.now 0 len
        × (take (slots_for len) slots.now ≡ slots_of_bytes (lent slots.now 0 len))) }
{
    let count = words_of(len);
    if count > slots.len() as u64 {
        return false;
    }
    let used = len % 8;
    used == 0 || slots[(count - 1) as usize] >> (8 * used) == 0
}
