//! The numbers of a reply.

ghost use Rattle.std.specs.Prelude.{◌≡◌, ◌<◌, ℤ, [], ◌∷◌, ◌++◌, length, slice_index_or, IfOk};
ghost use Rattle.gl_memory.specs.Room.{RoomView};

use std::alloc::{AllocError as NoMemory, Global};
use std::marker::Model;

/// A list of numbers from -2^63 to 2^63 - 1, in a room for so many; own.
#[derive(Drop)]
pub struct Numbers {
    items: Vec<i64>,
    room: u64,
}

impl Model for Numbers {
    ghost use Rattle.std.specs.Prelude.{ℤ, ◌≤◌, length, vec_capacity};
    ghost use Rattle.gl_memory.specs.Room.{RoomView, FitsRoom};

    ghost Value = { RoomView ℤ };

    ghost view = { λ n. record { items = n.items.items; room = n.room } };

    ghost invariant = { λ n. FitsRoom (length n.items.items) n.room (vec_capacity n.items) };
}

impl Numbers {
    /// No numbers, with room for so many, or NoMemory; own.
    pub fn new(alloc: Global, room: u64) -> Result<Numbers, NoMemory>
        ensures { IfOk result (λ numbers. numbers ≡ record { items = []; room = room }) }
    {
        Ok(Numbers {
            items: Vec::with_capacity(alloc, room as usize)?,
            room,
        })
    }

    /// No numbers, with room for none. It takes no memory; own.
    pub fn none(alloc: Global) -> Numbers
        ensures { result ≡ record { items = []; room = 0 } }
    {
        Numbers {
            items: Vec::new(alloc),
            room: 0,
        }
    }

    /// Adds a number at the end. It takes no memory; own.
    pub fn push(&mut self, value: i64)
        requires room { length self.old.items < self.old.room }
        ensures { self.new ≡ record self.old { items = self.old.items ++ value ∷ [] } }
    {
        self.items.push_reserved(value);
    }

    /// How many there are; own.
    pub fn len(&self) -> usize
        ensures { result ≡ length self.now.items }
    {
        self.items.len()
    }

    /// All numbers, in order; own.
    pub fn as_slice(&self) -> &[i64]
        ensures { result.now ≡ self.now.items }
    {
        self.items.as_slice()
    }

    /// The number at a place, from 0; own.
    pub fn at(&self, at: usize) -> i64
        requires place { at < length self.now.items }
        ensures { result ≡ slice_index_or self.now.items at result }
    {
        self.items[at]
    }
}
