// A shelf in memory whose chosen calls fail.
ghost use Rattle.std.specs.Prelude.{◌≡◌, ◌<◌, ◌≤◌, ◌↔◌, ◌^◌, [], ◌∷◌, length, IsTrue, IfSome, OnOk, OnErr, IsErrOf, slice_get};
ghost use Rattle.gl_outside.specs.Faults.{Rose};
ghost use Rattle.gl_outside.specs.Memory.{fails_next, after_call};
ghost use Rattle.gl_outside.specs.Moved.{Adds};

use crate::call_plan::CallPlan;
use crate::{OutError, Shelf, SureShelf};
use std::alloc::Global;
use std::marker::Model;

/// A shelf in memory for tests of callers: chosen calls fail.
#[derive(Drop)]
pub struct MemoryShelf {
    shelf: SureShelf,
    plan: CallPlan,
}

impl Model for MemoryShelf {
    ghost use Rattle.gl_outside.specs.Memory.{ShelfView};

    ghost Value = { ShelfView };

    ghost view = { λ s. record { list = s.shelf; plan = s.plan } };
}

impl MemoryShelf {
    /// Nothing was put yet. The calls of `put` with these numbers, from 0, are to fail.
    pub fn new(alloc: Global, fails: Vec<u64>) -> Self
        ensures list { result.list ≡ [] }
        ensures plan { result.plan ≡ record { fails = fails.items; made = 0; faults = 0 } }
    {
        MemoryShelf {
            shelf: SureShelf::new(alloc),
            plan: CallPlan::new(fails),
        }
    }

    /// How many files were put.
    pub fn len(&self) -> usize
        ensures { result ≡ length self.now.list }
    {
        self.shelf.len()
    }

    /// Whether no file was put.
    pub fn is_empty(&self) -> bool
        ensures { IsTrue result ↔ (self.now.list ≡ []) }
    {
        self.shelf.is_empty()
    }

    /// The name of the file at a place, from 0.
    pub fn name_at(&self, place: usize) -> &str
        requires { place < length self.now.list }
        ensures { IfSome (slice_get self.now.list place) (λ file. result.now ≡ file.0) }
    {
        self.shelf.name_at(place)
    }

    /// The bytes of the file at a place, from 0.
    pub fn bytes_at(&self, place: usize) -> &[u8]
        requires { place < length self.now.list }
        ensures { IfSome (slice_get self.now.list place) (λ file. result.now ≡ file.1) }
    {
        self.shelf.bytes_at(place)
    }

    /// How many calls failed, at most 2^64 - 1.
    pub fn faults(&self) -> u64
        ensures { result ≡ self.now.plan.faults }
    {
        self.plan.faults()
    }
}

#[tactic(auto, unfolding(crate::specs::Moved::Adds))]
impl Shelf for MemoryShelf {
    ghost use Rattle.std.specs.Prelude.{Some};

    ghost list = { λ s. Some s.list };

    ghost faults = { λ s. s.plan.faults };

    fn put(&mut self, name: &str, bytes: &[u8]) -> Result<(), OutError>
        ensures ok { OnOk result
            (Adds (Some self.old.list) (Some self.new.list) ((name.now, bytes.now) ∷ [])) }
        ensures kept { OnOk result (self.new.plan.faults ≡ self.old.plan.faults) }
        ensures failed { IsErrOf result OutError.Failed
            → Rose self.old.plan.faults self.new.plan.faults }
        ensures no_memory { IsErrOf result OutError.NoMemory
            → self.new.plan.faults ≡ self.old.plan.faults }
        ensures err { OnErr result (self.new.list ≡ self.old.list) }
        ensures count { self.old.plan.faults ≤ self.new.plan.faults }
        ensures range { self.new.plan.faults < 2 ^ 64 }

        // What this form does beyond what a shelf owes.
        ensures fails { IsErrOf result OutError.Failed ↔ IsTrue (fails_next self.old.plan) }
        ensures plan { self.new.plan ≡ after_call self.old.plan }
    {
        if self.plan.call_fails() {
            return Err(OutError::Failed);
        }
        self.shelf.put(name, bytes)
    }
}
