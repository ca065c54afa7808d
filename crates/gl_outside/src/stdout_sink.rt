// The real standard output. What comes to be held there no clause says: this file is trusted, with its one test.
ghost use Rattle.std.specs.Prelude.{◌≡◌, ℕ, ◌≤◌, ◌<◌, ◌^◌, length, take, IfOk, IsErrOf, OnOk, OnErr};
ghost use Rattle.gl_outside.specs.Faults.{Rose, one_more};
ghost use Rattle.gl_outside.specs.Moved.{Adds, untold};

use crate::{OutError, Sink};
use std::io::{self, ErrorKind};
use std::marker::Model;

/// The standard output of a runtime without a buffer, seen as its count of faults. It tells nothing of
/// what it holds.
#[derive(Drop)]
pub struct StdoutSink<R: Print + Drop> {
    rt: R,
    faults: u64,
}

impl<R: Print + Drop> Model for StdoutSink<R> {
    ghost use Rattle.std.specs.Prelude.{ℕ, ◌<◌, ◌^◌};

    ghost Value = { ℕ };

    ghost view = { λ s. s.faults };

    ghost invariant = { λ s. s.faults < 2 ^ 64 };
}

impl<R: Print + Drop> StdoutSink<R> {
    /// No write failed yet.
    pub fn new(rt: R) -> Self
        ensures { result ≡ 0 }
    {
        StdoutSink { rt, faults: 0 }
    }
}

#[tactic(auto, unfolding(crate::specs::Moved::Adds))]
impl<R: Print + Drop> Sink for StdoutSink<R> {
    ghost held = { λ _. untold };

    ghost faults = { λ s. s };

    fn write(&mut self, bytes: &[u8]) -> Result<usize, OutError>
        ensures ok { IfOk result (λ n. Adds {X = ℕ} untold untold (take n bytes.now)) }
        ensures within { IfOk result (λ n. n ≤ length bytes.now) }
        ensures some { IfOk result (λ n. 0 < length bytes.now → 0 < n) }
        ensures kept { OnOk result (self.new ≡ self.old) }
        ensures failed { IsErrOf result OutError.Failed → Rose self.old self.new }
        ensures no_memory { ¬ IsErrOf result OutError.NoMemory }
        ensures err { OnErr result (untold {X = ℕ} ≡ untold) }
        ensures count { self.old ≤ self.new }
        ensures range { self.new < 2 ^ 64 }

        // What this form does beyond what a sink owes: what failed is counted once.
        ensures counted { OnErr result (self.new ≡ one_more self.old) }
    {
        match write_uninterrupted(&self.rt, bytes) {
            Ok(n) if n > 0 || bytes.is_empty() => Ok(n),
            _ => {
                self.faults = self.faults.saturating_add(1);
                Err(OutError::Failed)
            }
        }
    }
}

/// Writes once, and again where a signal came between.
fn write_uninterrupted<R: Print>(rt: &R, bytes: &[u8]) -> io::Result<usize>
    ensures { IfOk result (λ n. n ≤ length bytes.now) }
{
    for _ in 0..u64::MAX {
        match rt.write_some(bytes) {
            Err(error) if error.kind() == ErrorKind::Interrupted => {}
            answer => return answer,
        }
    }
    Err(io::Error::from(ErrorKind::Interrupted))
}
