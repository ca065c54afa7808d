//! A rail that carries out each batch in `submit`, and its maker. Neither starts a thread.

ghost use Rattle.std.specs.Prelude.{◌≡◌, ◌≢◌, ℕ, ◌+◌, ◌^◌, ◌<◌, ◌⊎◌, List, [], ◌∷◌, Option, Some, None, IsSome, IsNone, IsOk, true, false, IfOk, IfErr, OnErr};
ghost use Rattle.std.specs.Thread.{IsSync};
ghost use Rattle.batch_pack.specs.Batch.{IsBatchSize, empty_batch};
ghost use Rattle.batch_rail.specs.declared.maker.RailKind.TheVariants.{Inline};
ghost use Rattle.batch_rail.specs.Run.{RunsFrom, StopsOnce};
ghost use Rattle.batch_rail.specs.Rail.{HasDriver, Gains, StandsForNoMore};
ghost use Rattle.batch_rail.specs.Maker.{IsRingLength, KeepsOthers, IsLaunched, IsUnused};

use crate::maker::{RailKind, RailMaker};
use crate::part::{RailLender, RailUser, WaitMaker, WaitPart};
use crate::rail::{Rail, RailState, WaitRail};
use crate::run::run_batch;
use batch_pack::Batch;
use driver_trait::{Calls, Driver, Machine, Plainly, WaitDriver, Waiting};
use std::alloc::{AllocError, AllocError as NoMemory, Global};
use std::sync::Wait;
use std::thread::Threads;

/// A rail without threads; own.
#[derive(Drop)]
pub struct InlineRail<D> {
    pub(crate) driver: Option<D>,
    pub(crate) failed: bool,
    pub(crate) slots: u32,
    pub(crate) sent: u64,
}

impl<D: Machine> RailState<D> for InlineRail<D> {
    ghost stands = { λ rail st. HasDriver rail.failed rail.driver st };

    ghost failed = { λ rail. rail.failed ≡ true };

    ghost home = { λ rail. IsSome rail.driver };

    ghost taken = { λ rail. IsNone rail.driver };

    ghost size = { λ rail. rail.slots };

    ghost sent = { λ rail. rail.sent };

    ghost journal = { λ rail. None };
}

impl<D: Machine> InlineRail<D> {
    /// A rail over a driver, with batches of so many slots.
    pub(crate) fn over(driver: D, slots: u32) -> InlineRail<D>
        requires slots { IsBatchSize slots }
        ensures launched { IsLaunched D.tracked (HasDriver result.failed result.driver)
            (result.failed ≡ true) (IsSome result.driver) result.slots (D.tracked driver) }
        ensures unused { IsUnused (HasDriver result.failed result.driver) result.slots
            result.sent driver slots }
    {
        InlineRail {
            driver: Some(driver),
            failed: false,
            slots,
            sent: 0,
        }
    }

    /// Carries out a batch, and gives it back empty.
    pub(crate) fn carry_out<H: Calls<W, D>, W, T: Threads + Sync>(
        &mut self,
        rt: &T,
        wait: &W,
        full: Batch,
    ) -> Batch
        requires home { IsSome self.old.driver }
        requires size { full.size ≡ self.old.slots }
        requires room { self.old.sent < 2 ^ 62 }
        ensures empty { result ≡ empty_batch full.size }
        ensures stands { (st2 : D) → HasDriver self.new.failed self.new.driver st2
            → RunsFrom (HasDriver self.old.failed self.old.driver) D.steps full.calls st2 }
        ensures failed { self.new.failed ≡ true → (self.old.failed ≡ true) ⊎ (full.calls ≢ []) }
        ensures home { IsSome self.new.driver }
        ensures size { self.new.slots ≡ self.old.slots }
        ensures sent { self.new.sent ≡ self.old.sent + 1 }
        // after a refusal no call is carried out: neither in this batch nor in a later one
        ensures idle { self.old.failed ≡ true
            → (self.new.failed ≡ true) × (self.new.driver ≡ self.old.driver) }
        ensures stopped { StopsOnce D.steps self.old.failed self.old.driver
            full.calls self.new.failed self.new.driver }
    {
        let mut batch = full;
        let failed = self.failed;
        self.failed = fails::<H, W, T, D>(rt, wait, failed, &mut self.driver, &batch);
        self.sent += 1;
        batch.clear();
        batch
    }

    /// Takes the driver, unless a batch failed.
    pub(crate) fn hand_out(&mut self) -> Result<D, NoMemory>
        requires home { IsSome self.old.driver }
        ensures ok { IfOk result
            (λ driver. HasDriver self.old.failed self.old.driver driver × IsNone self.new.driver) }
        ensures err { OnErr result ((self.old.failed ≡ true) × (self.new ≡ self.old)) }
        ensures size { self.new.slots ≡ self.old.slots }
        ensures sent { self.new.sent ≡ self.old.sent }
    {
        if self.failed {
            return Err(AllocError);
        }
        self.driver.take().ok_or(AllocError)
    }

    /// Has the driver back.
    pub(crate) fn take_back(&mut self, driver: D)
        ensures stands { (st : D) → HasDriver self.new.failed self.new.driver st → st ≡ driver }
        ensures sound { ¬ (self.new.failed ≡ true) }
        ensures home { IsSome self.new.driver }
        ensures size { self.new.slots ≡ self.old.slots }
        ensures sent { self.new.sent ≡ self.old.sent }
    {
        self.failed = false;
        self.driver = Some(driver);
    }
}

impl<D: Driver> Rail<D> for InlineRail<D> {
    fn submit<T: Threads + Sync>(&mut self, rt: &T, full: Batch) -> Batch
        requires shared { IsSync T.row }
        requires home { IsSome self.old.driver }
        requires size { full.size ≡ self.old.slots }
        requires room { self.old.sent < 2 ^ 62 }
        ensures empty { result ≡ empty_batch full.size }
        ensures stands { (st2 : D) → HasDriver self.new.failed self.new.driver st2
            → RunsFrom (HasDriver self.old.failed self.old.driver) D.steps full.calls st2 }
        ensures failed { self.new.failed ≡ true → (self.old.failed ≡ true) ⊎ (full.calls ≢ []) }
        ensures home { IsSome self.new.driver }
        ensures size { self.new.slots ≡ self.old.slots }
        ensures sent { self.new.sent ≡ self.old.sent + 1 }
        // after a refusal no call is carried out: neither in this batch nor in a later one
        ensures idle { self.old.failed ≡ true
            → (self.new.failed ≡ true) × (self.new.driver ≡ self.old.driver) }
        ensures stopped { StopsOnce D.steps self.old.failed self.old.driver
            full.calls self.new.failed self.new.driver }
    {
        self.carry_out::<Plainly, (), T>(rt, &(), full)
    }

    fn take(&mut self) -> Result<D, NoMemory> {
        self.hand_out()
    }

    fn put(&mut self, driver: D) {
        self.take_back(driver);
    }

    fn slots(&self) -> u32 {
        self.slots
    }

    fn sent(&self) -> u64 {
        self.sent
    }
}

impl<D: WaitDriver> WaitRail<D> for InlineRail<D> {
    fn submit<T: Threads + Sync, W: Wait>(&mut self, rt: &T, wait: &W, full: Batch) -> Batch
        requires shared { IsSync T.row }
        requires home { IsSome self.old.driver }
        requires size { full.size ≡ self.old.slots }
        requires room { self.old.sent < 2 ^ 62 }
        ensures empty { result ≡ empty_batch full.size }
        ensures stands { (st2 : D) → HasDriver self.new.failed self.new.driver st2
            → RunsFrom (HasDriver self.old.failed self.old.driver) D.steps full.calls st2 }
        ensures failed { self.new.failed ≡ true → (self.old.failed ≡ true) ⊎ (full.calls ≢ []) }
        ensures home { IsSome self.new.driver }
        ensures size { self.new.slots ≡ self.old.slots }
        ensures sent { self.new.sent ≡ self.old.sent + 1 }
        // after a refusal no call is carried out: neither in this batch nor in a later one
        ensures idle { self.old.failed ≡ true
            → (self.new.failed ≡ true) × (self.new.driver ≡ self.old.driver) }
        ensures stopped { StopsOnce D.steps self.old.failed self.old.driver
            full.calls self.new.failed self.new.driver }
    {
        self.carry_out::<Waiting, W, T>(rt, wait, full)
    }

    fn take<T: Threads + Sync, W: Wait>(&mut self, _rt: &T, _wait: &W) -> Result<D, NoMemory> {
        self.hand_out()
    }

    fn put<T: Threads + Sync, W: Wait>(&mut self, _rt: &T, _wait: &W, driver: D) {
        self.take_back(driver);
    }

    fn slots(&self) -> u32 {
        self.slots
    }

    fn sent(&self) -> u64 {
        self.sent
    }
}

/// Carries a batch out, unless an earlier one failed. Gives whether one has failed by now.
fn fails<H: Calls<W, D>, W, T: Threads + Sync, D: Machine>(
    rt: &T,
    wait: &W,
    failed: bool,
    driver: &mut Option<D>,
    batch: &Batch,
) -> bool
    ensures runs { result ≡ false → (st2 : D) → driver.new ≡ Some st2
        → RunsFrom (HasDriver failed driver.old) D.steps batch.now.calls st2 }
    ensures cause { result ≡ true → (failed ≡ true) ⊎ (batch.now.calls ≢ []) }
    ensures home { IsSome driver.old → IsSome driver.new }
    ensures idle { failed ≡ true → (result ≡ true) × (driver.new ≡ driver.old) }
    ensures stopped { StopsOnce D.steps failed driver.old batch.now.calls result driver.new }
{
    if failed {
        return true;
    }
    match driver {
        Some(driver) => run_batch::<H, W, T, D>(rt, wait, driver, batch).is_err(),
        None => false,
    }
}

/// Makes rails without threads, and tells no journal; own.
#[derive(Drop)]
pub struct InlineMaker;

impl InlineMaker {
    /// A maker, which takes no memory. Own.
    pub fn new() -> InlineMaker {
        InlineMaker
    }
}

impl<D: Driver> RailMaker<D> for InlineMaker {
    type Made = InlineRail<D>;

    ghost kind_of = { λ maker. Inline };

    ghost journal = { λ maker context. None };

    fn kind(&self) -> RailKind {
        RailKind::Inline
    }

    fn launch(
        &mut self,
        alloc: Global,
        context: u32,
        driver: D,
        slots: u32,
        ring: u32,
    ) -> Result<InlineRail<D>, (D, NoMemory)>
        requires context { context < 4 }
        requires slots { IsBatchSize slots }
        requires ring { IsRingLength ring }
        ensures ok { IfOk result (λ rail. IsLaunched D.tracked
            (HasDriver rail.failed rail.driver) (rail.failed ≡ true) (IsSome rail.driver)
            rail.slots (D.tracked driver)) }
        ensures unused { IfOk result (λ rail. IsUnused (HasDriver rail.failed rail.driver)
            rail.slots rail.sent driver slots) }
        // it takes no memory
        ensures granted { IsOk result }
    {
        Ok(InlineRail::over(driver, slots))
    }

    fn close(&mut self, context: u32, rail: InlineRail<D>) -> Result<D, NoMemory> {
        let mut rail = rail;
        rail.hand_out()
    }
}

impl<D: WaitDriver> WaitMaker<D> for InlineMaker {
    type Part = InlinePart;

    ghost kind_of = { λ maker. Inline };

    ghost journal = { λ maker context. None };

    fn kind(&self) -> RailKind {
        RailKind::Inline
    }

    fn split(&mut self, context: u32) -> InlinePart
        requires context { context < 4 }
    {
        InlinePart
    }

    fn join(&mut self, context: u32, part: InlinePart) {}
}

/// Makes the rails of one context, and tells no journal; own.
#[derive(Drop)]
pub struct InlinePart;

impl<D: WaitDriver> RailLender<D> for InlinePart {
    ghost journal = { λ part. None };

    fn with_rail<T: Threads + Sync, W: Wait, U: RailUser<D>>(
        &mut self,
        rt: &T,
        wait: &W,
        alloc: Global,
        driver: D,
        slots: u32,
        ring: u32,
        user: U,
    ) -> Result<(D, U::Out), NoMemory> {
        let rail = match self.launch(rt, wait, alloc, driver, slots, ring) {
            Ok(rail) => rail,
            Err((_driver, refusal)) => return Err(refusal),
        };
        let (rail, used) = user.use_rail(rt, wait, alloc, rail, slots);
        let closed = self.close(rt, wait, rail);
        let out = used?;
        let driver = closed?;
        Ok((driver, out))
    }
}

impl<D: WaitDriver> WaitPart<D> for InlinePart {
    type Made = InlineRail<D>;

    fn launch<T: Threads + Sync, W: Wait>(
        &mut self,
        _rt: &T,
        _wait: &W,
        alloc: Global,
        driver: D,
        slots: u32,
        ring: u32,
    ) -> Result<InlineRail<D>, (D, NoMemory)>
        requires slots { IsBatchSize slots }
        requires ring { IsRingLength ring }
        ensures ok { IfOk result (λ rail. IsLaunched D.tracked
            (HasDriver rail.failed rail.driver) (rail.failed ≡ true) (IsSome rail.driver)
            rail.slots (D.tracked driver)) }
        ensures unused { IfOk result (λ rail. IsUnused (HasDriver rail.failed rail.driver)
            rail.slots rail.sent driver slots) }
        // it takes no memory
        ensures granted { IsOk result }
    {
        Ok(InlineRail::over(driver, slots))
    }

    fn close<T: Threads + Sync, W: Wait>(
        &mut self,
        _rt: &T,
        _wait: &W,
        rail: InlineRail<D>,
    ) -> Result<D, NoMemory> {
        let mut rail = rail;
        rail.hand_out()
    }
}
