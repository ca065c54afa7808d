//! What makes such rails, and takes them back.

ghost use Rattle.std.specs.Prelude.{◌≡◌, ℕ, ◌<◌, [], Some, None, IfOk, IfErr, OnErr};
ghost use Rattle.std.specs.Thread.{IsSync};
ghost use Rattle.rtrb.specs.Ring.{sent};
ghost use Rattle.batch_pack.specs.Batch.{IsBatchSize};
ghost use Rattle.batch_rail.specs.declared.maker.RailKind.TheVariants.{Epoch};
ghost use Rattle.batch_rail.specs.Rail.{Gains};
ghost use Rattle.batch_rail.specs.Maker.{IsRingLength, IsLaunched, IsUnused};
ghost use Rattle.epoch_rail.specs.Rail.{StandsFor, FailsBy, IsHome};

use crate::crew::Crew;
use crate::launch::new_ends;
use crate::parts::{EpochMaker, EpochPart};
use crate::rail::EpochRail;
use batch_rail::{RailKind, RailLender, RailUser, WaitMaker, WaitPart, WaitRail};
use driver_trait::{Machine, WaitDriver};
use std::alloc::{AllocError, AllocError as NoMemory, Global};
use std::marker::PhantomData;
use std::sync::Wait;
use std::thread::Threads;

impl<D: Machine, C: Crew<D>> EpochMaker<D, C> {
    /// A maker whose rails have their workers from this crew. It takes no memory. Own.
    pub fn new(crew: C) -> EpochMaker<D, C>
        requires ready { C.ready crew }
    {
        EpochMaker {
            crew,
            of: PhantomData,
        }
    }
}

impl<D: WaitDriver + Send, C: Crew<D> + Send> WaitMaker<D> for EpochMaker<D, C> {
    type Part = EpochPart<D, C>;

    ghost kind_of = { λ maker. Epoch };

    ghost journal = { λ maker context. None };

    fn kind(&self) -> RailKind {
        RailKind::Epoch
    }

    fn split(&mut self, context: u32) -> EpochPart<D, C>
        requires context { context < 4 }
    {
        EpochPart {
            crew: self.crew.another(),
            of: PhantomData,
        }
    }

    fn join(&mut self, context: u32, part: EpochPart<D, C>) {}
}

impl<D: WaitDriver, C: Crew<D>> RailLender<D> for EpochPart<D, C> {
    ghost journal = { λ part. None };

    fn with_rail<T: Threads + Sync, W: Wait, U: RailUser<D>>(
        &mut self,
        rt: &T,
        wait: &W,
        alloc: Global,
        driver: D,
        slots: u32,
        ring: u32,
        user: U,
    ) -> Result<(D, U::Out), NoMemory> {
        let rail = match self.launch(rt, wait, alloc, driver, slots, ring) {
            Ok(rail) => rail,
            Err((_driver, refusal)) => return Err(refusal),
        };
        let (rail, used) = user.use_rail(rt, wait, alloc, rail, slots);
        let closed = self.close(rt, wait, rail);
        let out = used?;
        let driver = closed?;
        Ok((driver, out))
    }
}

impl<D: WaitDriver, C: Crew<D>> WaitPart<D> for EpochPart<D, C> {
    type Made = EpochRail<D, C>;

    fn launch<T: Threads + Sync, W: Wait>(
        &mut self,
        _rt: &T,
        _wait: &W,
        alloc: Global,
        driver: D,
        slots: u32,
        ring: u32,
    ) -> Result<EpochRail<D, C>, (D, NoMemory)>
        requires slots { IsBatchSize slots }
        requires ring { IsRingLength ring }
        ensures ok { IfOk result (λ rail. IsLaunched D.tracked
            (StandsFor D.steps C.Worker.was rail.stage (sent rail.caller.filled))
            (FailsBy C.Worker.was rail.stage (sent rail.caller.filled))
            (C.ready rail.crew × IsHome C.Worker.was rail.stage rail.caller) rail.caller.size
            (D.tracked driver)) }
        ensures unused { IfOk result (λ rail. IsUnused
            (StandsFor D.steps C.Worker.was rail.stage (sent rail.caller.filled))
            rail.caller.size rail.sent driver slots) }
        ensures err { IfErr result (λ refusal. refusal.0 ≡ driver) }
    {
        let Ok((caller, ends)) = new_ends(alloc, slots, ring) else {
            return Err((driver, AllocError));
        };
        let crew = self.crew.another();
        Ok(EpochRail::over(crew, driver, caller, ends, slots))
    }

    fn close<T: Threads + Sync, W: Wait>(
        &mut self,
        rt: &T,
        wait: &W,
        rail: EpochRail<D, C>,
    ) -> Result<D, NoMemory>
        requires shared { IsSync T.row }
        requires home { C.ready rail.crew × IsHome C.Worker.was rail.stage rail.caller }
        ensures ok { IfOk result
            (λ driver. StandsFor D.steps C.Worker.was rail.stage (sent rail.caller.filled) driver) }
        ensures err { OnErr result (FailsBy C.Worker.was rail.stage (sent rail.caller.filled)) }
    {
        let mut rail = rail;
        rail.take(rt, wait)
    }
}
