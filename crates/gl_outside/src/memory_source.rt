// A source in memory whose chosen calls fail, and which moves few bytes at once.
ghost use Rattle.std.specs.Prelude.{◌≡◌, ◌<◌, ◌≤◌, ◌^◌, [], length, take, min, IfOk, OnOk, OnErr, is_err};
ghost use Rattle.gl_outside.specs.Faults.{Rose};
ghost use Rattle.gl_outside.specs.Memory.{fails_next, after_call};
ghost use Rattle.gl_outside.specs.Moved.{Takes};

use crate::call_plan::CallPlan;
use crate::{Failed, Source, SureSource};
use std::marker::Model;

/// A source in memory for tests of callers: chosen calls fail, and no call moves more than `most` bytes.
#[derive(Drop)]
pub struct MemorySource {
    source: SureSource,
    most: usize,
    plan: CallPlan,
}

impl Model for MemorySource {
    ghost use Rattle.std.specs.Prelude.{◌<◌, ◌^◌};
    ghost use Rattle.gl_outside.specs.Memory.{SourceView};

    ghost Value = { SourceView };

    ghost view = { λ s. record { left = s.source; most = s.most; plan = s.plan } };

    ghost invariant = { λ s. 0 < s.most };
}

impl MemorySource {
    /// Nothing of this content was read. The calls of `read` with these numbers, from 0, are to fail.
    pub fn new(content: Vec<u8>, fails: Vec<u64>, most: usize) -> Self
        requires { 1 ≤ most }
        ensures left { result.left ≡ content.items }
        ensures most { result.most ≡ most }
        ensures plan { result.plan ≡ record { fails = fails.items; made = 0; faults = 0 } }
    {
        MemorySource {
            source: SureSource::new(content),
            most,
            plan: CallPlan::new(fails),
        }
    }

    /// The bytes that are left.
    pub fn rest(&self) -> &[u8]
        ensures { result.now ≡ self.now.left }
    {
        self.source.rest()
    }

    /// How many calls failed, at most 2^64 - 1.
    pub fn faults(&self) -> u64
        ensures { result ≡ self.now.plan.faults }
    {
        self.plan.faults()
    }
}

#[tactic(auto, unfolding(crate::specs::Moved::Takes))]
impl Source for MemorySource {
    ghost use Rattle.std.specs.Prelude.{Some};

    ghost left = { λ s. Some s.left };

    ghost faults = { λ s. s.plan.faults };

    fn read(&mut self, buf: &mut [u8]) -> Result<usize, Failed>
        requires { 0 < length buf.old }
        ensures ok { IfOk result
            (λ n. Takes (Some self.old.left) (Some self.new.left) (take n buf.new)) }
        ensures within { IfOk result (λ n. n ≤ length buf.old) }
        ensures end { IfOk result (λ n. n ≡ 0 → self.new.left ≡ []) }
        ensures kept { OnOk result (self.new.plan.faults ≡ self.old.plan.faults) }
        ensures failed { OnErr result (Rose self.old.plan.faults self.new.plan.faults) }
        ensures err { OnErr result (self.new.left ≡ self.old.left) }
        ensures count { self.old.plan.faults ≤ self.new.plan.faults }
        ensures range { self.new.plan.faults < 2 ^ 64 }

        // What this form does beyond what a source owes.
        ensures fails { is_err result ≡ fails_next self.old.plan }
        ensures amount { IfOk result
            (λ n. n ≡ min (min self.old.most (length buf.old)) (length self.old.left)) }
        ensures most { self.new.most ≡ self.old.most }
        ensures plan { self.new.plan ≡ after_call self.old.plan }
    {
        if self.plan.call_fails() {
            return Err(Failed);
        }
        let n = self.most.min(buf.len());
        Ok(self.source.fill(&mut buf[..n]))
    }
}
