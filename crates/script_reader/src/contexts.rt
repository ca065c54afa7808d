//! The contexts of a script, a list that grows at its end.

ghost use Rattle.std.specs.Prelude.{◌≡◌, ℕ, ◌<◌, List, [], ◌∷◌, ◌++◌, length, OnOk, OnErr};

use crate::script::ContextSpec;
use std::alloc::{AllocError, Global};
use std::marker::Model;

/// The contexts of a script, in order.
#[derive(Drop)]
pub struct Contexts {
    items: Vec<ContextSpec>,
}

impl Model for Contexts {
    ghost use Rattle.std.specs.Prelude.{List};
    ghost use Rattle.script_reader.specs.declared.script.ContextSpec.{ContextSpec};

    ghost Value = { List ContextSpec };

    ghost view = { λ a. a.items.items };
}

impl Contexts {
    /// An empty list. It takes no memory.
    pub fn new(alloc: Global) -> Contexts
        ensures { result ≡ [] }
    {
        Contexts {
            items: Vec::new(alloc),
        }
    }

    /// Adds one at the end.
    pub fn push(&mut self, item: ContextSpec) -> Result<(), AllocError>
        ensures ok { OnOk result (self.new ≡ self.old ++ item ∷ []) }
        ensures err { OnErr result (self.new ≡ self.old) }
    {
        self.items.push(item)?;
        Ok(())
    }

    /// All of them, in order.
    pub fn as_slice(&self) -> &[ContextSpec]
        ensures { result.now ≡ self.now }
    {
        self.items.as_slice()
    }
}
