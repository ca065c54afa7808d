//! The front over rails whose calls may wait.

ghost use Rattle.std.specs.Prelude.{◌≡◌, [], true, is_some, IsErr, IfOk, IfErr, OnOk, OnErr};
ghost use Rattle.gl_words.specs.Call.{is_answering};
ghost use Rattle.client_shadow.specs.declared.class.Class.TheVariants.{Defer};
ghost use Rattle.gl_tracked.specs.Tracked.{first_tracked};
ghost use Rattle.driver_trait.specs.Reply.{Nothing};
ghost use Rattle.batch_rail.specs.Maker.{IsLaunched};
ghost use Rattle.gl_front.specs.Front.{new_front, class_at, AllHaveRoom, CanRise};
ghost use Rattle.gl_front.specs.Given.{given_by};
ghost use Rattle.gl_front.specs.Taking.{TakesCall, IsIssued, Flushes, RefusesCall, KeepsCount};

use crate::front::Core;
use batch_rail::WaitRail;
use driver_trait::{Reply, WaitDriver, Waiting};
use gl_memory::ClientMemory;
use gl_words::Call;
use std::alloc::{AllocError as NoMemory, Global};
use std::sync::Wait;
use std::thread::Threads;

/// A front over a rail whose calls may wait, with the clauses of a `Front`; own.
pub type WaitFront<D, R> = Core<D, R, Waiting>;

impl<D: WaitDriver, R: WaitRail<D>> Core<D, R, Waiting> {
    /// A front over a rail as it is launched and over client memory, with an empty batch of the rail's size. Want of
    /// memory gives both back; own.
    pub fn new(
        alloc: Global,
        rail: R,
        memory: ClientMemory,
    ) -> Result<Self, (R, ClientMemory, NoMemory)>
        requires launched { IsLaunched D.tracked (R.stands rail) (R.failed rail) (R.home rail)
            (R.size rail) first_tracked }
        ensures ok { IfOk result (λ front. front ≡ new_front rail (R.size rail) memory) }
        ensures err { IfErr result (λ refusal. (refusal.0 ≡ rail) × (refusal.1 ≡ memory)) }
    {
        let slots = rail.slots();
        Core::over(alloc, rail, slots, memory)
    }

    /// Issues a call, and gives its reply, which is written into client memory where the call wants it: None exactly where
    /// the call asks for nothing (sections 2.5, 4.3.1 and 6.1). Only a call that waits meets the first NoMemory: a batch before
    /// it failed, or the driver was refused memory at the call itself. After a refusal every later issue is refused and does
    /// nothing; own.
    pub fn issue<T: Threads + Sync, W: Wait>(
        &mut self,
        rt: &T,
        wait: &W,
        call: &Call,
    ) -> Result<Option<Reply>, NoMemory>
        requires counts { AllHaveRoom self.old.counts }
        requires sent { CanRise (R.sent self.old.rail) }
        ensures ok { IfOk result (λ given. TakesCall R.stands R.failed R.journal R.sent D.steps
            self.old self.new call.now (given_by given)) }
        ensures issued { IfOk result (λ given. IsIssued R.stands R.failed D.steps
            self.old self.new call.now (given_by given)) }
        ensures asked { IfOk result (λ given. is_some given ≡ is_answering call.now) }
        ensures err { OnErr result (RefusesCall R.stands R.failed R.journal R.sent D.steps
            self.old self.new call.now) }
        ensures idle { self.old.refused ≡ true → IsErr result × (self.new ≡ self.old) }
        ensures rises { KeepsCount R.sent self.old self.new }
    {
        self.issue_by(rt, wait, call)
    }

    /// Puts a call that doesn't wait into a batch. It takes no memory, and has no refusal; own.
    pub fn defer<T: Threads + Sync, W: Wait>(&mut self, rt: &T, wait: &W, call: &Call)
        requires class { class_at self.old call.now ≡ Defer }
        requires deferred { CanRise self.old.counts.deferred }
        requires batches { CanRise self.old.counts.batches }
        requires sent { CanRise (R.sent self.old.rail) }
        ensures taken { TakesCall R.stands R.failed R.journal R.sent D.steps
            self.old self.new call.now Nothing }
        ensures rises { KeepsCount R.sent self.old self.new }
    {
        self.defer_by(rt, wait, call);
    }

    /// Submits the open batch, unless it is empty; own.
    pub fn flush<T: Threads + Sync, W: Wait>(&mut self, rt: &T, wait: &W)
        requires batches { CanRise self.old.counts.batches }
        requires sent { CanRise (R.sent self.old.rail) }
        ensures flushed { Flushes R.stands R.failed R.journal R.sent D.steps self.old self.new }
        ensures kept { self.old.calls ≡ [] → self.new.rail ≡ self.old.rail }
        ensures rises { KeepsCount R.sent self.old self.new }
    {
        self.flush_by(rt, wait);
    }

    /// Submits the open batch and waits until all are carried out. Refused only where one failed; own.
    pub fn finish<T: Threads + Sync, W: Wait>(&mut self, rt: &T, wait: &W) -> Result<(), NoMemory>
        requires batches { CanRise self.old.counts.batches }
        requires sent { CanRise (R.sent self.old.rail) }
        ensures flushed { Flushes R.stands R.failed R.journal R.sent D.steps self.old self.new }
        ensures sound { OnOk result (¬ R.failed self.new.rail) }
        ensures err { OnErr result (R.failed self.new.rail) }
        ensures rises { KeepsCount R.sent self.old self.new }
    {
        self.finish_by(rt, wait)
    }
}
