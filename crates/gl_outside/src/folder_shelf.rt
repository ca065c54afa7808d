// A real folder. What comes to lie there no clause says: this file is trusted, with its one test.
ghost use Rattle.std.specs.Prelude.{◌≡◌, ℕ, ◌≤◌, ◌<◌, ◌^◌, List, [], ◌∷◌, IsErrOf, OnOk, OnErr};
ghost use Rattle.gl_outside.specs.Faults.{Rose, one_more};
ghost use Rattle.gl_outside.specs.Moved.{Adds, untold};

use crate::{OutError, Shelf};
use std::alloc::Global;
use std::fs::{self, File};
use std::io::{self, Write};
use std::marker::Model;
use std::rt::Files;

/// A folder that is there, seen as its count of faults. A put of a name that is there replaces what
/// stands in its place as a whole, a pipe or a link too, but for a folder: then it fails. One that fails
/// leaves what stood there. The name with `.part` behind it is used while a file is written. It tells
/// nothing of what lies in the folder.
#[derive(Drop)]
pub struct FolderShelf<R: Files + Drop> {
    rt: R,
    alloc: Global,
    folder: String,
    faults: u64,
}

impl<R: Files + Drop> Model for FolderShelf<R> {
    ghost use Rattle.std.specs.Prelude.{ℕ, ◌<◌, ◌^◌};

    ghost Value = { ℕ };

    ghost view = { λ s. s.faults };

    ghost invariant = { λ s. s.faults < 2 ^ 64 };
}

impl<R: Files + Drop> FolderShelf<R> {
    /// The folder at this path. No put failed yet.
    pub fn new(rt: R, alloc: Global, folder: String) -> Self
        ensures { result ≡ 0 }
    {
        FolderShelf {
            rt,
            alloc,
            folder,
            faults: 0,
        }
    }
}

#[tactic(auto, unfolding(crate::specs::Moved::Adds))]
impl<R: Files + Drop> Shelf for FolderShelf<R> {
    ghost list = { λ _. untold };

    ghost faults = { λ s. s };

    fn put(&mut self, name: &str, bytes: &[u8]) -> Result<(), OutError>
        ensures ok { OnOk result
            (Adds {X = List ℕ × List ℕ} untold untold ((name.now, bytes.now) ∷ [])) }
        ensures kept { OnOk result (self.new ≡ self.old) }
        ensures failed { IsErrOf result OutError.Failed → Rose self.old self.new }
        ensures no_memory { IsErrOf result OutError.NoMemory → self.new ≡ self.old }
        ensures err { OnErr result (untold {X = List ℕ × List ℕ} ≡ untold) }
        ensures count { self.old ≤ self.new }
        ensures range { self.new < 2 ^ 64 }

        // What this form does beyond what a shelf owes: what failed is counted once.
        ensures counted { IsErrOf result OutError.Failed → self.new ≡ one_more self.old }
    {
        let folder = self.folder.as_str();
        let path = format!(in self.alloc; "{folder}/{name}")?;
        let part = format!(in self.alloc; "{folder}/{name}.part")?;
        match replace(&self.rt, path.as_str(), part.as_str(), bytes) {
            Ok(()) => Ok(()),
            Err(_) => {
                self.faults = self.faults.saturating_add(1);
                Err(OutError::Failed)
            }
        }
    }
}

/// Writes a file of these bytes at `part`, and moves it to `path` once it is whole. After an error
/// nothing is left at `part`, if that can be removed.
fn replace<R: Files>(files: &R, path: &str, part: &str, bytes: &[u8]) -> io::Result<()> {
    let answer = write_anew(files, part, bytes).and_then(|_| fs::rename(files, part, path));
    if answer.is_err() {
        let _removed = fs::remove_file(files, part);
    }
    answer
}

/// Writes a file that wasn't there. What an earlier run left in its place goes first, so that no pipe
/// and no link is opened.
fn write_anew<R: Files>(files: &R, part: &str, bytes: &[u8]) -> io::Result<()> {
    let _removed = fs::remove_file(files, part);
    let mut file = File::create_new(files, part)?;
    file.write_all(bytes)
}
