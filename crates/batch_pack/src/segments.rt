//! The segments of a call that was read, where they stand in the slots. They copy no byte and take no memory.

ghost use Rattle.std.specs.Prelude.{◌≡◌, ◌++◌, ◌≤◌, ℕ, List, length};
ghost use Rattle.gl_memory.specs.Segment.{byte_at};
ghost use Rattle.batch_pack.specs.Spelling.{segment_spelling, IsSegment};
ghost use Rattle.batch_pack.specs.Decoding.{segment_at, segments_at};
ghost use Rattle.batch_pack.specs.Holding.{BeginWith};

use crate::spelling::words_of;
use gl_memory::{Lent, Memory};
use std::marker::Model;

/// At most 8 segments, in order, whose spellings stand first in slots; own. Contracts see the list.
#[derive(Drop)]
pub struct Segments<'a> {
    count: usize,
    slots: &'a [u64],
}

impl<'a> Model for Segments<'a> {
    ghost use Rattle.std.specs.Prelude.{List};
    ghost use Rattle.gl_memory.specs.Segment.{Segment};
    ghost use Rattle.batch_pack.specs.Decoding.{segments_at};
    ghost use Rattle.batch_pack.specs.Holding.{BeginWith};

    ghost Value = { List Segment };

    ghost view = { λ s. segments_at s.count s.slots.now };

    ghost invariant = { λ s. BeginWith s.count s.slots.now };
}

impl Segments<'_> {
    /// How many segments there are: 0 to 8.
    pub fn len(&self) -> usize
        ensures len { result ≡ length self.now }
        ensures few { result ≤ 8 }
    {
        self.count
    }
}

impl Memory for Segments<'_> {
    ghost segments = { λ s. s };

    fn byte(&self, at: u64) -> u8 {
        byte_in_slots(self.count, self.slots, at)
    }
}

/// The segments, so many, that slots begin with.
pub(crate) fn segments_from(slots: &[u64], count: usize) -> Segments<'_>
    requires { BeginWith count slots.now }
    ensures { result ≡ segments_at count slots.now }
{
    Segments { count, slots }
}

/// The byte of the first of so many segments which holds a place, and 0 where none does.
fn byte_in_slots(count: usize, slots: &[u64], at: u64) -> u8
    requires { BeginWith count slots.now }
    ensures { result ≡ byte_at (segments_at count slots.now) at }
{
    let mut rest = slots;
    for _number in 0..count {
        let (segment, behind) = first_segment(rest);
        if let Some(byte) = segment.byte(at) {
            return byte;
        }
        rest = behind;
    }
    0
}

/// The segment that slots begin with, and the slots behind it.
fn first_segment(slots: &[u64]) -> (Lent<'_>, &[u64])
    requires segment { IsSegment (segment_at slots.now) }
    requires begins { (more : List ℕ)
        × (slots.now ≡ segment_spelling (segment_at slots.now) ++ more) }
    ensures segment { result.0 ≡ segment_at slots.now }
    ensures behind { slots.now ≡ segment_spelling (segment_at slots.now) ++ result.1.now }
{
    let len = slots[1];
    let behind = slots.split_at(2 + words_of(len) as usize).1;
    (Lent::new(slots[0], len, slots, 16), behind)
}
