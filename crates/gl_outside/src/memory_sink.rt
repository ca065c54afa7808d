// A sink in memory whose chosen calls fail, and which takes few bytes at once.
ghost use Rattle.std.specs.Prelude.{◌≡◌, ◌<◌, ◌≤◌, ◌↔◌, ◌^◌, [], length, take, min, IsTrue, IfOk, OnOk, OnErr, IsErrOf};
ghost use Rattle.gl_outside.specs.Faults.{Rose};
ghost use Rattle.gl_outside.specs.Memory.{fails_next, after_call};
ghost use Rattle.gl_outside.specs.Moved.{Adds};

use crate::call_plan::CallPlan;
use crate::{OutError, Sink, SureSink};
use std::alloc::Global;
use std::marker::Model;

/// A sink in memory for tests of callers: chosen calls fail, and no call takes more than `most` bytes.
#[derive(Drop)]
pub struct MemorySink {
    sink: SureSink,
    most: usize,
    plan: CallPlan,
}

impl Model for MemorySink {
    ghost use Rattle.std.specs.Prelude.{◌<◌};
    ghost use Rattle.gl_outside.specs.Memory.{SinkView};

    ghost Value = { SinkView };

    ghost view = { λ s. record { held = s.sink; most = s.most; plan = s.plan } };

    ghost invariant = { λ s. 0 < s.most };
}

impl MemorySink {
    /// It holds nothing yet. The calls of `write` with these numbers, from 0, are to fail.
    pub fn new(alloc: Global, fails: Vec<u64>, most: usize) -> Self
        requires { 1 ≤ most }
        ensures held { result.held ≡ [] }
        ensures most { result.most ≡ most }
        ensures plan { result.plan ≡ record { fails = fails.items; made = 0; faults = 0 } }
    {
        MemorySink {
            sink: SureSink::new(alloc),
            most,
            plan: CallPlan::new(fails),
        }
    }

    /// The bytes that it holds.
    pub fn bytes(&self) -> &[u8]
        ensures { result.now ≡ self.now.held }
    {
        self.sink.bytes()
    }

    /// How many calls failed, at most 2^64 - 1.
    pub fn faults(&self) -> u64
        ensures { result ≡ self.now.plan.faults }
    {
        self.plan.faults()
    }
}

#[tactic(auto, unfolding(crate::specs::Moved::Adds))]
impl Sink for MemorySink {
    ghost use Rattle.std.specs.Prelude.{Some};

    ghost held = { λ s. Some s.held };

    ghost faults = { λ s. s.plan.faults };

    fn write(&mut self, bytes: &[u8]) -> Result<usize, OutError>
        ensures ok { IfOk result
            (λ n. Adds (Some self.old.held) (Some self.new.held) (take n bytes.now)) }
        ensures within { IfOk result (λ n. n ≤ length bytes.now) }
        ensures some { IfOk result (λ n. 0 < length bytes.now → 0 < n) }
        ensures kept { OnOk result (self.new.plan.faults ≡ self.old.plan.faults) }
        ensures failed { IsErrOf result OutError.Failed
            → Rose self.old.plan.faults self.new.plan.faults }
        ensures no_memory { IsErrOf result OutError.NoMemory
            → self.new.plan.faults ≡ self.old.plan.faults }
        ensures err { OnErr result (self.new.held ≡ self.old.held) }
        ensures count { self.old.plan.faults ≤ self.new.plan.faults }
        ensures range { self.new.plan.faults < 2 ^ 64 }

        // What this form does beyond what a sink owes.
        ensures fails { IsErrOf result OutError.Failed ↔ IsTrue (fails_next self.old.plan) }
        ensures amount { IfOk result (λ n. n ≡ min self.old.most (length bytes.now)) }
        ensures most { self.new.most ≡ self.old.most }
        ensures plan { self.new.plan ≡ after_call self.old.plan }
    {
        if self.plan.call_fails() {
            return Err(OutError::Failed);
        }
        let n = self.most.min(bytes.len());
        self.sink.write(bytes.split_at(n).0)
    }
}
