//! A rail whose batches a worker carries out. The driver goes to the worker when the first batch is submitted, and comes
//! back when the driver is taken.

ghost use Rattle.std.specs.Prelude.{◌≡◌, ◌≢◌, ℕ, ◌+◌, ◌^◌, ◌<◌, ◌⊎◌, List, [], ◌∷◌, Option, Some, None, IfOk, OnErr, true};
ghost use Rattle.std.specs.Thread.{IsSync};
ghost use Rattle.rtrb.specs.Ring.{received, sent};
ghost use Rattle.batch_pack.specs.Batch.{empty_batch, IsBatchSize};
ghost use Rattle.batch_rail.specs.Run.{RunsFrom};
ghost use Rattle.batch_rail.specs.Rail.{Gains, StandsForNoMore};
ghost use Rattle.batch_rail.specs.Maker.{IsLaunched, IsUnused};
ghost use Rattle.epoch_rail.specs.Ends.{AreFellows, AreNew};
ghost use Rattle.epoch_rail.specs.Rail.{StandsFor, FailsBy, IsHome, IsTaken, IsWorkOf, LeadsTo, MayFail};

use crate::carry::settled;
use crate::crew::{Begun, Crew};
use crate::ends::{CallerEnds, WorkerEnds};
use crate::stage::Stage;
use crate::work::Work;
use batch_pack::Batch;
use batch_rail::{RailState, WaitRail};
use driver_trait::{Machine, WaitDriver};
use std::alloc::{AllocError, AllocError as NoMemory};
use std::sync::Wait;
use std::sync::atomic::Ordering;
use std::thread::Threads;

/// A rail whose batches a worker carries out, an interval at a time; own.
#[derive(Drop)]
pub struct EpochRail<D: Machine, C: Crew<D>> {
    pub(crate) crew: C,
    pub(crate) caller: CallerEnds,
    pub(crate) sent: u64,
    pub(crate) stage: Option<Stage<D, C::Worker>>,
}

impl<D: Machine, C: Crew<D>> RailState<D> for EpochRail<D, C> {
    ghost stands = { λ rail st. StandsFor D.steps C.Worker.was rail.stage (sent rail.caller.filled) st };

    ghost failed = { λ rail. FailsBy C.Worker.was rail.stage (sent rail.caller.filled) };

    ghost home = { λ rail. C.ready rail.crew × IsHome C.Worker.was rail.stage rail.caller };

    ghost taken = { λ rail. C.ready rail.crew × IsTaken rail.stage rail.caller };

    ghost size = { λ rail. rail.caller.size };

    ghost sent = { λ rail. rail.sent };

    ghost journal = { λ rail. None };
}

impl<D: Machine, C: Crew<D>> EpochRail<D, C> {
    /// A rail over a driver, with the ends of new rings.
    pub(crate) fn over(
        crew: C,
        driver: D,
        caller: CallerEnds,
        ends: WorkerEnds,
        slots: u32,
    ) -> EpochRail<D, C>
        requires ready { C.ready crew }
        requires slots { IsBatchSize slots }
        requires ends { AreNew caller ends slots }
        ensures launched { IsLaunched D.tracked
            (StandsFor D.steps C.Worker.was result.stage (sent result.caller.filled))
            (FailsBy C.Worker.was result.stage (sent result.caller.filled))
            (C.ready result.crew × IsHome C.Worker.was result.stage result.caller)
            result.caller.size (D.tracked driver) }
        ensures unused { IsUnused
            (StandsFor D.steps C.Worker.was result.stage (sent result.caller.filled))
            result.caller.size result.sent driver slots }
    {
        EpochRail {
            crew,
            caller,
            sent: 0,
            stage: Some(Stage::Home(Work {
                driver,
                failed: false,
                ends,
            })),
        }
    }
}

impl<D: WaitDriver, C: Crew<D>> WaitRail<D> for EpochRail<D, C> {
    fn submit<T: Threads + Sync, W: Wait>(&mut self, rt: &T, wait: &W, full: Batch) -> Batch {
        let empty = self.caller.empty(wait);
        self.caller.send(wait, full);
        let stage = self.stage.take();
        self.stage = under_way(rt, wait, &self.crew, &mut self.caller, stage);
        self.sent += 1;
        empty
    }

    fn take<T: Threads + Sync, W: Wait>(&mut self, rt: &T, wait: &W) -> Result<D, NoMemory> {
        let stage = self.stage.take();
        let work = ended(rt, wait, &mut self.caller, stage);
        if work.failed {
            self.stage = Some(Stage::Home(work));
            return Err(AllocError);
        }
        let Work {
            driver,
            failed: _,
            ends,
        } = work;
        self.stage = Some(Stage::Taken(ends));
        Ok(driver)
    }

    fn put<T: Threads + Sync, W: Wait>(&mut self, _rt: &T, _wait: &W, driver: D) {
        match self.stage.take() {
            Some(Stage::Taken(ends)) => {
                self.stage = Some(Stage::Home(Work {
                    driver,
                    failed: false,
                    ends,
                }));
            }
            _ => unreachable!(),
        }
    }

    fn slots(&self) -> u32 {
        self.caller.size
    }

    fn sent(&self) -> u64 {
        self.sent
    }
}

/// Has what was sent carried out, by the worker that there is, by one that is started, or by the caller.
fn under_way<T: Threads + Sync, W: Wait, D: WaitDriver, C: Crew<D>>(
    rt: &T,
    wait: &W,
    crew: &C,
    caller: &mut CallerEnds,
    stage: Option<Stage<D, C::Worker>>,
) -> Option<Stage<D, C::Worker>>
    requires ready { C.ready crew.now }
    requires home { IsHome C.Worker.was stage caller.old }
    ensures home { IsHome C.Worker.was result caller.new }
    ensures stands { (st : D) → StandsFor D.steps C.Worker.was result (sent caller.new.filled) st
        → StandsFor D.steps C.Worker.was stage (sent caller.old.filled) st }
    ensures failed { FailsBy C.Worker.was result (sent caller.new.filled)
        → FailsBy C.Worker.was stage (sent caller.old.filled) }
    ensures size { caller.new.size ≡ caller.old.size }
{
    match stage {
        Some(Stage::Home(work)) => Some(started(rt, wait, crew, caller, work)),
        Some(Stage::Away(worker)) => Some(Stage::Away(worker)),
        Some(Stage::Taken(_)) => unreachable!(),
        None => unreachable!(),
    }
}

/// Starts a worker, unless a batch failed. Where none can be started the caller carries out what was sent.
fn started<T: Threads + Sync, W: Wait, D: WaitDriver, C: Crew<D>>(
    rt: &T,
    wait: &W,
    crew: &C,
    caller: &mut CallerEnds,
    work: Work<D>,
) -> Stage<D, C::Worker>
    requires ready { C.ready crew.now }
    requires home { IsWorkOf caller.old work }
    ensures home { IsHome C.Worker.was (Some result) caller.new }
    ensures stands { (st : D) → StandsFor D.steps C.Worker.was (Some result) (sent caller.new.filled) st
        → LeadsTo D.steps work (sent caller.old.filled) st }
    ensures failed { FailsBy C.Worker.was (Some result) (sent caller.new.filled)
        → MayFail work (sent caller.old.filled) }
    ensures size { caller.new.size ≡ caller.old.size }
{
    if work.failed {
        return Stage::Home(settled(rt, wait, caller, work));
    }
    work.ends.ending.store(false, Ordering::SeqCst);
    match crew.begin(work) {
        Ok(worker) => Stage::Away(worker),
        Err(back) => Stage::Home(settled(rt, wait, caller, back)),
    }
}

/// Ends the interval: the worker, if there is one, comes back, and what it left is carried out.
fn ended<T: Threads + Sync, W: Wait, D: WaitDriver, H: Begun<D>>(
    rt: &T,
    wait: &W,
    caller: &mut CallerEnds,
    stage: Option<Stage<D, H>>,
) -> Work<D>
    requires home { IsHome H.was stage caller.old }
    ensures fellows { AreFellows caller.new result.ends }
    ensures all { received result.ends.filled ≡ sent caller.new.filled }
    ensures stands { (st : D) → LeadsTo D.steps result (sent caller.new.filled) st
        → StandsFor D.steps H.was stage (sent caller.old.filled) st }
    ensures failed { result.failed ≡ true → FailsBy H.was stage (sent caller.old.filled) }
    ensures size { caller.new.size ≡ caller.old.size }
{
    match stage {
        Some(Stage::Home(work)) => settled(rt, wait, caller, work),
        Some(Stage::Away(worker)) => {
            caller.ending.store(true, Ordering::SeqCst);
            settled(rt, wait, caller, worker.end(rt))
        }
        Some(Stage::Taken(_)) => unreachable!(),
        None => unreachable!(),
    }
}
