//! Lists that an event and its reply hold.

ghost use Rattle.std.specs.Prelude.{◌≡◌, [], length};

use std::alloc::Global;
use std::marker::Model;

/// Bytes that an event puts into an object; own. Contracts see the list.
#[derive(Drop)]
pub struct Upload {
    bytes: Vec<u8>,
}

impl Model for Upload {
    ghost use Rattle.std.specs.Prelude.{ℕ, List};

    ghost Value = { List ℕ };

    ghost view = { λ u. u.bytes.items };
}

impl Upload {
    /// These bytes. It takes no memory.
    pub fn new(bytes: Vec<u8>) -> Upload
        ensures { result ≡ bytes.items }
    {
        Upload { bytes }
    }

    /// All bytes, in order.
    pub fn as_slice(&self) -> &[u8]
        ensures { result.now ≡ self.now }
    {
        self.bytes.as_slice()
    }

    /// The bytes themselves: nothing is copied.
    pub(crate) fn into_bytes(self) -> Vec<u8>
        ensures { result.items ≡ self }
    {
        self.bytes
    }
}

/// Names that are given or deleted, or are a reply; own. Contracts see the list.
#[derive(Drop)]
pub struct Names {
    names: Vec<u32>,
}

impl Model for Names {
    ghost use Rattle.std.specs.Prelude.{ℕ, List};

    ghost Value = { List ℕ };

    ghost view = { λ n. n.names.items };
}

impl Names {
    /// These names. It takes no memory.
    pub fn new(names: Vec<u32>) -> Names
        ensures { result ≡ names.items }
    {
        Names { names }
    }

    /// No names. It takes no memory.
    pub fn none(alloc: Global) -> Names
        ensures { result ≡ [] }
    {
        Names {
            names: Vec::new(alloc),
        }
    }

    /// All names, in order.
    pub fn as_slice(&self) -> &[u32]
        ensures { result.now ≡ self.now }
    {
        self.names.as_slice()
    }
}
