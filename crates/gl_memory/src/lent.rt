//! One segment whose bytes lie in lent slots. It copies no byte and takes no memory.

ghost use Rattle.std.specs.Prelude.{◌≡◌, ◌*◌, ◌<◌, length, slice_get, Some};
ghost use Rattle.gl_memory.specs.Segment.{byte_in};
ghost use Rattle.gl_memory.specs.Slots.{bytes_of_slots, lent, LieIn};

use std::marker::Model;

/// Bytes of slots, eight to a slot, the first in the lowest eight bits, and the place in client memory that they stand
/// for; own. Contracts see the segment.
#[derive(Drop)]
pub struct Lent<'a> {
    start: u64,
    len: u64,
    slots: &'a [u64],
    skip: u64,
}

impl<'a> Model for Lent<'a> {
    ghost use Rattle.gl_memory.specs.Segment.{Segment};
    ghost use Rattle.gl_memory.specs.Slots.{lent, LieIn};

    ghost Value = { Segment };

    ghost view = { λ l. record { start = l.start; bytes = lent l.slots.now l.skip l.len } };

    ghost invariant = { λ l. LieIn l.slots.now l.skip l.len };
}

impl<'a> Lent<'a> {
    /// The segment at the place `start` whose bytes are the `len` bytes of `slots` from byte `skip` on.
    pub fn new(start: u64, len: u64, slots: &'a [u64], skip: u64) -> Lent<'a>
        requires bytes { LieIn slots.now skip len }
        ensures { result ≡ record { start = start; bytes = lent slots.now skip len } }
    {
        Lent {
            start,
            len,
            slots,
            skip,
        }
    }

    /// The byte at a place, where the segment holds it.
    pub fn byte(&self, at: u64) -> Option<u8>
        ensures { result ≡ byte_in self.now at }
    {
        if at < self.start || at - self.start >= self.len {
            return None;
        }
        Some(byte_of(self.slots, self.skip + (at - self.start)))
    }
}

/// The byte with this number among those of slots, eight to a slot, the lowest first.
fn byte_of(slots: &[u64], number: u64) -> u8
    requires there { number < 8 * length slots.now }
    ensures { slice_get (bytes_of_slots slots.now) number ≡ Some result }
{
    ((slots[(number / 8) as usize] >> (8 * (number % 8))) & 0xff) as u8
}
