//! The bytes of a buffer.

ghost use Rattle.std.specs.Prelude.{◌≡◌, ◌+◌, ◌≤◌, ℕ, [], length, slice_index, IfOk};
ghost use Rattle.gl_objects.specs.Store.{part_written};

use crate::held::Held;
use std::alloc::{AllocError as NoMemory, Global};
use std::marker::Model;

/// The bytes of a buffer (section 2.9). Contracts see the list.
#[derive(Drop)]
pub struct Store {
    bytes: Vec<u8>,
}

impl Model for Store {
    ghost use Rattle.std.specs.Prelude.{ℕ, List};

    ghost Value = { List ℕ };

    ghost view = { λ s. s.bytes.items };
}

impl Store {
    /// No bytes. It takes no memory.
    pub fn new(alloc: Global) -> Store
        ensures { result ≡ [] }
    {
        Store {
            bytes: Vec::new(alloc),
        }
    }

    /// These bytes themselves. It takes no memory.
    pub fn of(bytes: Vec<u8>) -> Store
        ensures { result ≡ bytes.items }
    {
        Store { bytes }
    }

    /// A copy of these bytes.
    pub fn copied(alloc: Global, bytes: &[u8]) -> Result<Store, NoMemory>
        ensures { IfOk result (λ store. store ≡ bytes.now) }
    {
        Ok(Store {
            bytes: Vec::from_slice(alloc, bytes)?,
        })
    }

    /// How many bytes there are.
    pub fn len(&self) -> usize
        ensures { result ≡ length self.now }
    {
        self.bytes.len()
    }

    /// Copies these bytes over others, from a place on.
    pub fn write(&mut self, offset: usize, bytes: &[u8])
        requires within { offset + length bytes.now ≤ length self.old }
        ensures { self.new ≡ part_written self.old offset bytes.now }
    {
        overwrite(self.bytes.as_mut_slice(), offset, bytes);
    }

    /// The byte at a place, and 0 past the end.
    pub fn byte(&self, at: usize) -> u8
        ensures { result ≡ slice_index self.now at }
    {
        match self.bytes.get(at) {
            Some(byte) => *byte,
            None => 0,
        }
    }
}

impl Held for Store {
    ghost size = { length };

    fn size(&self) -> u64 {
        self.len() as u64
    }
}

/// Copies these bytes over others, from a place on.
fn overwrite(all: &mut [u8], offset: usize, bytes: &[u8])
    requires within { offset + length bytes.now ≤ length all.old }
    ensures { all.new ≡ part_written all.old offset bytes.now }
{
    let _len = all.len();
    all[offset..offset + bytes.len()].copy_from_slice(bytes);
}
