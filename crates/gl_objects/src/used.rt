//! What a draw uses, in lists that lie in the event itself.

ghost use Rattle.std.specs.Prelude.{◌≡◌, ◌<◌, ◌≤◌, [], ◌∷◌, ◌++◌, length};

use arrayvec::ArrayVec;
use std::marker::Model;

/// The names of at most 6 buffers; own. Contracts see the list.
#[derive(Drop)]
pub struct UsedBuffers {
    names: ArrayVec<u32, 6>,
}

impl Model for UsedBuffers {
    ghost use Rattle.std.specs.Prelude.{ℕ, List};

    ghost Value = { List ℕ };

    ghost view = { λ u. u.names.items };
}

impl UsedBuffers {
    /// No buffers.
    pub fn new() -> UsedBuffers
        ensures { result ≡ [] }
    {
        UsedBuffers {
            names: ArrayVec::new(),
        }
    }

    /// Puts a name behind the others.
    pub fn push(&mut self, name: u32)
        requires room { length self.old < 6 }
        ensures { self.new ≡ self.old ++ name ∷ [] }
    {
        self.names.push(name);
    }

    /// All names, in order.
    pub fn as_slice(&self) -> &[u32]
        ensures names { result.now ≡ self.now }
        ensures few { length self.now ≤ 6 }
    {
        self.names.as_slice()
    }
}

/// The names of at most 2 textures, as events have them; own. Contracts see the list.
#[derive(Drop)]
pub struct UsedTextures {
    names: ArrayVec<u64, 2>,
}

impl Model for UsedTextures {
    ghost use Rattle.std.specs.Prelude.{ℕ, List};

    ghost Value = { List ℕ };

    ghost view = { λ u. u.names.items };
}

impl UsedTextures {
    /// No textures.
    pub fn new() -> UsedTextures
        ensures { result ≡ [] }
    {
        UsedTextures {
            names: ArrayVec::new(),
        }
    }

    /// Puts a name behind the others.
    pub fn push(&mut self, name: u64)
        requires room { length self.old < 2 }
        ensures { self.new ≡ self.old ++ name ∷ [] }
    {
        self.names.push(name);
    }

    /// All names, in order.
    pub fn as_slice(&self) -> &[u64]
        ensures names { result.now ≡ self.now }
        ensures few { length self.now ≤ 2 }
    {
        self.names.as_slice()
    }
}
