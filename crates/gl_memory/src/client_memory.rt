//! The client memory of a context. It never grows, and what is written past its end is dropped.

ghost use Rattle.std.specs.Prelude.{◌≡◌, ◌^◌, ◌<◌, ◌≤◌, length, replicate, slice_index, IfOk};
ghost use Rattle.gl_memory.specs.ClientMemory.{memory_of, written};
ghost use Rattle.gl_memory.specs.Segment.{AreBytes};

use crate::memory::Memory;
use std::alloc::{AllocError as NoMemory, Global};
use std::marker::Model;

/// The bytes of client memory from the place 0 on, at most 1048576 (section 2.8). Contracts see the bytes.
#[derive(Drop)]
pub struct ClientMemory {
    bytes: Vec<u8>,
}

impl Model for ClientMemory {
    ghost use Rattle.std.specs.Prelude.{ℕ, List, ◌^◌, ◌≤◌, length};

    ghost Value = { List ℕ };

    ghost view = { λ m. m.bytes.items };

    ghost invariant = { λ m. length m.bytes.items ≤ 2 ^ 20 };
}

impl ClientMemory {
    /// Client memory of `len` bytes, all 0. NoMemory where there is none for them.
    pub fn new(alloc: Global, len: u32) -> Result<ClientMemory, NoMemory>
        requires size { len ≤ 1048576 }
        ensures ok { IfOk result (λ memory. memory ≡ replicate len 0) }
    {
        Ok(ClientMemory {
            bytes: vec![in alloc; 0; len as usize]?,
        })
    }

    /// How many bytes it has.
    pub fn len(&self) -> u32
        ensures len { result ≡ length self.now }
        ensures few { result ≤ 1048576 }
    {
        self.bytes.len() as u32
    }

    /// Writes bytes from the place `at` on. Those that fall outside are dropped, so it is never refused.
    pub fn write(&mut self, at: u64, bytes: &[u8])
        requires place { at < 2 ^ 62 }
        ensures { self.new ≡ written self.old at bytes.now }
    {
        overwrite(self.bytes.as_mut_slice(), at as usize, bytes);
    }

    /// All bytes.
    pub fn bytes(&self) -> &[u8]
        ensures bytes { result.now ≡ self.now }
        ensures small { AreBytes (memory_of self.now) }
        ensures few { length result.now ≤ 1048576 }
    {
        let bytes = self.bytes.as_slice();
        are_bytes(bytes);
        bytes
    }
}

impl Memory for ClientMemory {
    ghost segments = { λ m. memory_of m };

    fn byte(&self, at: u64) -> u8 {
        byte_or_zero(self.bytes.as_slice(), at as usize)
    }
}

/// Does nothing. Its contract is what the type of bytes says of memory.
fn are_bytes(bytes: &[u8])
    ensures { AreBytes (memory_of bytes.now) }
{}

/// The byte at a place, and 0 where there is none.
fn byte_or_zero(bytes: &[u8], at: usize) -> u8
    ensures { result ≡ slice_index bytes.now at }
{
    match bytes.get(at) {
        Some(byte) => *byte,
        None => 0,
    }
}

/// Writes over the places from `at` on, as far as there are any.
fn overwrite(all: &mut [u8], at: usize, bytes: &[u8])
    ensures { all.new ≡ written all.old at bytes.now }
{
    if at < all.len() {
        let count = bytes.len().min(all.len() - at);
        all[at..at + count].copy_from_slice(&bytes[..count]);
    }
}
