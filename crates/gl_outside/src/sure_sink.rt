// A sink in memory that never fails. It may run out of memory.
ghost use Rattle.std.specs.Prelude.{◌≡◌, ◌<◌, ◌≤◌, [], length, take, IfOk, OnErr, IsErrOf};
ghost use Rattle.gl_outside.specs.Moved.{Adds};

use crate::{OutError, Sink};
use std::alloc::Global;
use std::marker::Model;

/// A sink in memory whose writes never fail but for memory, seen as the bytes that it holds.
#[derive(Drop)]
pub struct SureSink {
    bytes: Vec<u8>,
}

impl Model for SureSink {
    ghost use Rattle.std.specs.Prelude.{ℕ, List};

    ghost Value = { List ℕ };

    ghost view = { λ s. s.bytes.items };
}

impl SureSink {
    /// It holds nothing yet.
    pub fn new(alloc: Global) -> Self
        ensures { result ≡ [] }
    {
        SureSink {
            bytes: Vec::new(alloc),
        }
    }

    /// The bytes that it holds.
    pub fn bytes(&self) -> &[u8]
        ensures { result.now ≡ self.now }
    {
        self.bytes.as_slice()
    }
}

#[tactic(auto, unfolding(crate::specs::Moved::Adds))]
impl Sink for SureSink {
    ghost use Rattle.std.specs.Prelude.{Some};

    ghost held = { λ s. Some s };

    ghost faults = { λ _. 0 };

    fn write(&mut self, bytes: &[u8]) -> Result<usize, OutError>
        ensures ok { IfOk result (λ n. Adds (Some self.old) (Some self.new) (take n bytes.now)) }
        ensures within { IfOk result (λ n. n ≤ length bytes.now) }
        ensures some { IfOk result (λ n. 0 < length bytes.now → 0 < n) }
        ensures err { OnErr result (self.new ≡ self.old) }

        // What this form does beyond what a sink owes.
        ensures whole { IfOk result (λ n. n ≡ length bytes.now) }
        ensures sure { ¬ IsErrOf result OutError.Failed }
    {
        self.bytes.extend_from_slice(bytes)?;
        Ok(bytes.len())
    }
}
