//! The bytes of a reply.

ghost use Rattle.std.specs.Prelude.{◌≡◌, ◌^◌, ◌<◌, ℕ, [], ◌∷◌, ◌++◌, length, slice_index_or, IfOk};
ghost use Rattle.gl_memory.specs.Room.{RoomView};

use std::alloc::{AllocError as NoMemory, Global};
use std::marker::Model;

/// A list of bytes, in a room for so many; own.
#[derive(Drop)]
pub struct Octets {
    items: Vec<u8>,
    room: u64,
}

impl Model for Octets {
    ghost use Rattle.std.specs.Prelude.{ℕ, ◌≤◌, length, vec_capacity};
    ghost use Rattle.gl_memory.specs.Room.{RoomView, FitsRoom};

    ghost Value = { RoomView ℕ };

    ghost view = { λ o. record { items = o.items.items; room = o.room } };

    ghost invariant = { λ o. FitsRoom (length o.items.items) o.room (vec_capacity o.items) };
}

impl Octets {
    /// No bytes, with room for so many, or NoMemory; own.
    pub fn new(alloc: Global, room: u64) -> Result<Octets, NoMemory>
        ensures { IfOk result (λ octets. octets ≡ record { items = []; room = room }) }
    {
        Ok(Octets {
            items: Vec::with_capacity(alloc, room as usize)?,
            room,
        })
    }

    /// Adds a byte at the end. It takes no memory; own.
    pub fn push(&mut self, value: u8)
        requires room { length self.old.items < self.old.room }
        ensures { self.new ≡ record self.old { items = self.old.items ++ value ∷ [] } }
    {
        self.items.push_reserved(value);
    }

    /// How many there are; own.
    pub fn len(&self) -> usize
        ensures len { result ≡ length self.now.items }
        ensures few { result < 2 ^ 63 }
    {
        self.items.len()
    }

    /// All bytes, in order; own.
    pub fn as_slice(&self) -> &[u8]
        ensures { result.now ≡ self.now.items }
    {
        self.items.as_slice()
    }

    /// The byte at a place, from 0; own.
    pub fn at(&self, at: usize) -> u8
        requires place { at < length self.now.items }
        ensures { result ≡ slice_index_or self.now.items at result }
    {
        self.items[at]
    }
}
