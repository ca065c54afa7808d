//! The open batch by its numbers. No call is packed here: how many slots a call has is told by its heading.

ghost use Rattle.std.specs.Prelude.{◌≡◌, ℕ, ◌+◌, ◌-◌, ◌^◌, ◌<◌, ◌≤◌};
ghost use Rattle.client_shadow.specs.declared.class.Class.TheVariants.{Defer};
ghost use Rattle.client_shadow.specs.Look.{class_in};
ghost use Rattle.script_trace.specs.Keeping.{CanJoin, IsWithin, slots_in};
ghost use Rattle.script_trace.specs.OpenBatch.{batch_behind, behind_end, end_of_batch, ended_before, ended_with, first_batch, with_class};

use crate::fate::{BatchEnd, Why};
use client_shadow::{Becomes, sends_batch};
use gl_words::Call;

/// The open batch: its number, from 1, its calls, and the slots that they take; own.
#[derive(Clone, Copy, Debug, PartialEq, Eq)]
pub(crate) struct OpenBatch {
    pub(crate) number: u64,
    pub(crate) calls: u64,
    pub(crate) slots: u64,
}

impl OpenBatch {
    /// The first batch, without calls.
    pub(crate) fn first() -> OpenBatch
        ensures { result ≡ first_batch }
    {
        OpenBatch {
            number: 1,
            calls: 0,
            slots: 0,
        }
    }

    /// Its end for this reason, if it has calls.
    pub(crate) fn end(&self, why: Why) -> Option<BatchEnd>
        ensures { result ≡ end_of_batch self.now why }
    {
        if self.calls == 0 {
            return None;
        }
        Some(BatchEnd {
            number: self.number,
            calls: self.calls,
            slots: self.slots,
            why,
        })
    }

    /// Ends it for this reason: the next one is open, unless it has no calls.
    pub(crate) fn close(&mut self, why: Why) -> Option<BatchEnd>
        requires { self.old.number < 2 ^ 64 - 1 }
        ensures end { result ≡ end_of_batch self.old why }
        ensures next { self.new ≡ behind_end self.old }
    {
        let end = self.end(why);
        if end.is_some() {
            *self = OpenBatch {
                number: self.number + 1,
                calls: 0,
                slots: 0,
            };
        }
        end
    }

    /// Puts a call of so many slots behind its calls, with batches of this size: it is closed first where the call doesn't
    /// fit.
    pub(crate) fn join(&mut self, size: u32, slots: u64) -> Option<BatchEnd>
        requires number { self.old.number < 2 ^ 64 - 1 }
        requires calls { self.old.calls < 2 ^ 64 - 1 }
        requires slots { self.old.slots + slots < 2 ^ 64 }
        ensures end { result ≡ ended_before Defer size self.old slots }
        ensures joined { self.new ≡ with_class Defer size self.old slots }
    {
        let ended = if self.slots + slots <= u64::from(size) {
            None
        } else {
            self.close(Why::Full)
        };
        self.calls += 1;
        self.slots += slots;
        ended
    }

    /// Takes a call of which this becomes, with batches of this size, but for what ends behind it: the batch that ends before it.
    pub(crate) fn take(&mut self, size: u32, becomes: &Becomes) -> Option<BatchEnd>
        requires number { self.old.number < 2 ^ 64 - 1 }
        requires within { IsWithin size self.old }
        requires joins { CanJoin size becomes.now }
        ensures end { result
            ≡ ended_before (class_in becomes.now) size self.old (slots_in becomes.now) }
        ensures taken { self.new
            ≡ with_class (class_in becomes.now) size self.old (slots_in becomes.now) }
        ensures within { IsWithin size self.new }
        ensures number { self.new.number ≤ self.old.number + 1 }
    {
        match becomes {
            Becomes::Answer(_) => None,
            Becomes::Sync { .. } => self.close(Why::Waits),
            Becomes::Defer { heading } => self.join(size, heading.slots),
        }
    }

    /// Ends the batch with a call of which this becomes, where that sends it on its way.
    pub(crate) fn send(&mut self, call: &Call, becomes: &Becomes) -> Option<BatchEnd>
        requires number { self.old.number < 2 ^ 64 - 1 }
        ensures end { result ≡ ended_with (class_in becomes.now) call.now self.old }
        ensures next { self.new ≡ batch_behind (class_in becomes.now) call.now self.old }
        ensures within { (size : ℕ) → IsWithin size self.old → IsWithin size self.new }
        ensures number { self.new.number ≤ self.old.number + 1 }
    {
        match becomes {
            Becomes::Defer { .. } if sends_batch(call) => self.close(Why::Sent),
            _ => None,
        }
    }
}
