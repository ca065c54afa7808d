//! What a worker does: it carries out the batches that it receives, and gives them back empty.

ghost use Rattle.std.specs.Prelude.{◌≡◌, ◌<◌, ◌++◌, length};
ghost use Rattle.rtrb.specs.Ring.{received, known_items, sent};
ghost use Rattle.epoch_rail.specs.Ends.{SameWorker, SameCaller, AreFellows};
ghost use Rattle.epoch_rail.specs.Work.{Carried, CarriedOne, GoesOn};

use crate::ends::CallerEnds;
use crate::work::Work;
use batch_pack::Batch;
use batch_rail::run_batch;
use driver_trait::{WaitDriver, Waiting};
use std::sync::Wait;
use std::sync::atomic::Ordering;
use std::thread::{Threads, yield_now};

impl<D: WaitDriver> Work<D> {
    /// Carries out a batch that was received, unless one failed, and gives it back empty.
    fn carry<T: Threads + Sync, W: Wait>(&mut self, rt: &T, wait: &W, batch: Batch)
        requires size { batch.size ≡ self.old.ends.size }
        ensures carried { CarriedOne D.steps self.old.failed self.old.driver batch.calls
            self.new.failed self.new.driver }
        ensures filled { self.new.ends.filled ≡ self.old.ends.filled }
        ensures same { SameWorker self.old.ends self.new.ends }
    {
        let failed = self.failed;
        self.failed = fails(rt, wait, failed, &mut self.driver, &batch);
        self.ends.give(batch);
    }

    /// Carries out the next batch, if one has come.
    fn carry_next<T: Threads + Sync, W: Wait>(&mut self, rt: &T, wait: &W) -> bool
        ensures { GoesOn D.steps self.old self.new }
    {
        match self.ends.next() {
            Some(batch) => {
                self.carry(rt, wait, batch);
                true
            }
            None => false,
        }
    }

    /// Carries out the next of the batches that were seen.
    fn carry_seen<T: Threads + Sync, W: Wait>(&mut self, rt: &T, wait: &W)
        requires seen { 0 < length (known_items self.old.ends.filled) }
        ensures carried { GoesOn D.steps self.old self.new }
        ensures whole { received self.new.ends.filled ++ known_items self.new.ends.filled
            ≡ received self.old.ends.filled ++ known_items self.old.ends.filled }
        ensures fewer { length (known_items self.new.ends.filled) < length (known_items self.old.ends.filled) }
    {
        let batch = self.ends.next_seen();
        self.carry(rt, wait, batch);
    }
}

/// Carries a batch out, unless an earlier one failed. Gives whether one has failed by now.
fn fails<T: Threads + Sync, W: Wait, D: WaitDriver>(
    rt: &T,
    wait: &W,
    failed: bool,
    driver: &mut D,
    batch: &Batch,
) -> bool
    ensures { CarriedOne D.steps failed driver.old batch.now.calls result driver.new }
{
    failed || run_batch::<Waiting, W, T, D>(rt, wait, driver, batch).is_err()
}

/// Carries out batches as they come, until the interval ends.
pub(crate) fn carry_all<T: Threads + Sync, W: Wait, D: WaitDriver>(
    rt: &T,
    wait: &W,
    begun: Work<D>,
) -> Work<D>
    ensures { Carried D.steps begun result }
{
    let mut work = begun;
    for _ in wait.forever() {
        if !work.carry_next(rt, wait) {
            if work.ends.ending.load(Ordering::SeqCst) {
                return work;
            }
            yield_now();
        }
    }
    unreachable!()
}

/// Carries out what was sent and is left, with all ends at hand.
pub(crate) fn settled<T: Threads + Sync, W: Wait, D: WaitDriver>(
    rt: &T,
    wait: &W,
    caller: &mut CallerEnds,
    left: Work<D>,
) -> Work<D>
    requires fellows { AreFellows caller.old left.ends }
    ensures fellows { AreFellows caller.new result.ends }
    ensures carried { Carried D.steps left result }
    ensures all { received result.ends.filled ≡ sent caller.new.filled }
    ensures sent { sent caller.new.filled ≡ sent caller.old.filled }
    ensures caller { SameCaller caller.old caller.new }
{
    let mut work = left;
    work.ends.see_all(caller);
    while work.ends.seen() > 0 {
        work.carry_seen(rt, wait);
    }
    work
}
