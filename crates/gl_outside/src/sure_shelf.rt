// A shelf in memory that never fails. It may run out of memory.
ghost use Rattle.std.specs.Prelude.{◌≡◌, ◌<◌, ◌↔◌, [], ◌∷◌, length, IsTrue, IfSome, OnOk, OnErr, IsErrOf, slice_get};
ghost use Rattle.gl_outside.specs.Moved.{Adds};

use crate::file::File;
use crate::{OutError, Shelf};
use std::alloc::Global;
use std::marker::Model;

/// A shelf in memory whose puts never fail but for memory, seen as the pairs of a name and bytes, in order.
#[derive(Drop)]
pub struct SureShelf {
    alloc: Global,
    files: Vec<File>,
}

impl Model for SureShelf {
    ghost use Rattle.std.specs.Prelude.{ℕ, List, map};

    ghost Value = { List (List ℕ × List ℕ) };

    ghost use Rattle.gl_outside.specs.File.{pair_of};

    ghost view = { λ s. map pair_of s.files.items };
}

impl SureShelf {
    /// Nothing was put yet.
    pub fn new(alloc: Global) -> Self
        ensures { result ≡ [] }
    {
        SureShelf {
            alloc,
            files: Vec::new(alloc),
        }
    }

    /// How many files were put.
    pub fn len(&self) -> usize
        ensures { result ≡ length self.now }
    {
        self.files.len()
    }

    /// Whether no file was put.
    pub fn is_empty(&self) -> bool
        ensures { IsTrue result ↔ (self.now ≡ []) }
    {
        self.files.is_empty()
    }

    /// The name of the file at a place, from 0.
    pub fn name_at(&self, place: usize) -> &str
        requires { place < length self.now }
        ensures { IfSome (slice_get self.now place) (λ file. result.now ≡ file.0) }
    {
        self.files[place].name.as_str()
    }

    /// The bytes of the file at a place, from 0.
    pub fn bytes_at(&self, place: usize) -> &[u8]
        requires { place < length self.now }
        ensures { IfSome (slice_get self.now place) (λ file. result.now ≡ file.1) }
    {
        self.files[place].bytes.as_slice()
    }
}

#[tactic(auto, unfolding(crate::specs::Moved::Adds))]
impl Shelf for SureShelf {
    ghost use Rattle.std.specs.Prelude.{Some};

    ghost list = { λ s. Some s };

    ghost faults = { λ _. 0 };

    fn put(&mut self, name: &str, bytes: &[u8]) -> Result<(), OutError>
        ensures ok { OnOk result
            (Adds (Some self.old) (Some self.new) ((name.now, bytes.now) ∷ [])) }
        ensures err { OnErr result (self.new ≡ self.old) }

        // What this form does beyond what a shelf owes.
        ensures sure { ¬ IsErrOf result OutError.Failed }
    {
        let name = String::from_str(self.alloc, name)?;
        let bytes = Vec::from_slice(self.alloc, bytes)?;
        self.files.push(File { name, bytes })?;
        Ok(())
    }
}
