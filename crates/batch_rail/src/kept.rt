//! A rail without threads that keeps what was submitted to it. Its makers stand in `kept_maker.rt`.

ghost use Rattle.std.specs.Prelude.{◌≡◌, ◌≢◌, ◌+◌, ◌-◌, ◌^◌, ◌<◌, ◌≤◌, ◌⊎◌, [], ◌∷◌, IsSome, IsNone, IsErr, true, ◌↔◌, IfOk, IfErr, OnErr, OnOk, None};
ghost use Rattle.std.specs.Thread.{IsSync};
ghost use Rattle.batch_pack.specs.Batch.{IsBatchSize, empty_batch};
ghost use Rattle.batch_rail.specs.Run.{RunsFrom, StopsOnce};
ghost use Rattle.batch_rail.specs.Rail.{HasDriver, Gains, StandsForNoMore};
ghost use Rattle.batch_rail.specs.Maker.{IsLaunched, IsUnused};
ghost use Rattle.batch_rail.specs.Journal.{empty_by, room_by, told_by, told_with};

use crate::inline::InlineRail;
use crate::journal::Journal;
use crate::rail::{Rail, RailState, WaitRail};
use batch_pack::Batch;
use driver_trait::{Calls, Driver, Machine, Plainly, WaitDriver, Waiting};
use std::alloc::{AllocError, AllocError as NoMemory};
use std::marker::Model;
use std::sync::Wait;
use std::thread::Threads;

/// How many of the last batches of a context may be empty where a rail is launched: a rail takes 2^62 batches, and
/// their number is to stay below 2^64.
const MOST_EMPTY: u64 = 1 << 63;

/// A rail without threads, and the journal of its context, where that isn't elsewhere; own.
#[derive(Drop)]
pub struct JournalRail<D> {
    rail: InlineRail<D>,
    journal: Option<Journal>,
}

impl<D> Model for JournalRail<D> {
    ghost use Rattle.std.specs.Prelude.{◌+◌, ◌^◌, ◌≤◌};
    ghost use Rattle.batch_rail.specs.Journal.{RailView, empty_by};

    ghost Value = { RailView D };

    ghost view = { λ r. record {
      driver = r.rail.driver;
      failed = r.rail.failed;
      slots = r.rail.slots;
      sent = r.rail.sent;
      journal = r.journal;
    } };

    ghost invariant = { λ r. empty_by r.journal ≤ 2 ^ 63 + r.rail.sent };
}

impl<D: Machine> RailState<D> for JournalRail<D> {
    ghost stands = { λ r st. HasDriver r.failed r.driver st };

    ghost failed = { λ r. r.failed ≡ true };

    ghost home = { λ r. IsSome r.driver };

    ghost taken = { λ r. IsNone r.driver };

    ghost size = { λ r. r.slots };

    ghost sent = { λ r. r.sent };

    ghost journal = { λ r. told_by r.journal };
}

impl<D: Machine> JournalRail<D> {
    /// A rail over a driver, with batches of so many slots, which has the journal. Refused where more of its last batches
    /// are empty than a rail may find.
    pub(crate) fn over(
        journal: &mut Option<Journal>,
        driver: D,
        slots: u32,
    ) -> Result<JournalRail<D>, (D, NoMemory)>
        requires slots { IsBatchSize slots }
        ensures ok { IfOk result (λ rail. IsLaunched D.tracked
            (HasDriver rail.failed rail.driver) (rail.failed ≡ true) (IsSome rail.driver)
            rail.slots (D.tracked driver)) }
        ensures unused { IfOk result (λ rail. IsUnused (HasDriver rail.failed rail.driver)
            rail.slots rail.sent driver slots) }
        ensures refused { IsErr result ↔ (2 ^ 63 < empty_by journal.old) }
        ensures told { IfOk result (λ rail. rail.journal ≡ journal.old) }
        ensures out { OnOk result (journal.new ≡ None) }
        ensures err { IfErr result (λ refusal. refusal.0 ≡ driver) }
        ensures refused_told { OnErr result (journal.new ≡ journal.old) }
    {
        if empty_last(journal) > MOST_EMPTY {
            return Err((driver, AllocError));
        }
        Ok(JournalRail {
            rail: InlineRail::over(driver, slots),
            journal: journal.take(),
        })
    }

    /// Gives the driver, unless a batch failed, and the journal back.
    pub(crate) fn end(self, journal: &mut Option<Journal>) -> Result<D, NoMemory>
        requires home { IsSome self.driver }
        ensures ok { IfOk result (λ driver. HasDriver self.failed self.driver driver) }
        ensures err { OnErr result (self.failed ≡ true) }
        ensures told { journal.new ≡ self.journal }
    {
        let mut rail = self.rail;
        *journal = self.journal;
        rail.hand_out()
    }

    /// Keeps a batch, carries it out, and gives it back empty.
    fn keep_and_carry_out<H: Calls<W, D>, W, T: Threads + Sync>(
        &mut self,
        rt: &T,
        wait: &W,
        full: Batch,
    ) -> Batch
        requires home { IsSome self.old.driver }
        requires size { full.size ≡ self.old.slots }
        requires room { self.old.sent < 2 ^ 62 }
        ensures empty { result ≡ empty_batch full.size }
        ensures stands { (st2 : D) → HasDriver self.new.failed self.new.driver st2
            → RunsFrom (HasDriver self.old.failed self.old.driver) D.steps full.calls st2 }
        ensures failed { self.new.failed ≡ true → (self.old.failed ≡ true) ⊎ (full.calls ≢ []) }
        ensures home { IsSome self.new.driver }
        ensures size { self.new.slots ≡ self.old.slots }
        ensures sent { self.new.sent ≡ self.old.sent + 1 }
        ensures journal { Gains (told_by self.old.journal) (told_by self.new.journal)
            (full.calls ∷ []) }
        // the batch is told behind the others, while all of them have room
        ensures kept { told_by self.new.journal
            ≡ told_with (room_by self.old.journal) (told_by self.old.journal) full.calls }
        ensures same_room { room_by self.new.journal ≡ room_by self.old.journal }
        ensures few_empty { empty_by self.new.journal ≤ empty_by self.old.journal + 1 }
        // after a refusal no call is carried out: neither in this batch nor in a later one
        ensures idle { self.old.failed ≡ true
            → (self.new.failed ≡ true) × (self.new.driver ≡ self.old.driver) }
        ensures stopped { StopsOnce D.steps self.old.failed self.old.driver
            full.calls self.new.failed self.new.driver }
    {
        keep(&mut self.journal, &full);
        self.rail.carry_out::<H, W, T>(rt, wait, full)
    }

    /// Takes the driver, unless a batch failed.
    fn hand_out(&mut self) -> Result<D, NoMemory>
        requires home { IsSome self.old.driver }
        ensures ok { IfOk result
            (λ driver. HasDriver self.old.failed self.old.driver driver × IsNone self.new.driver) }
        ensures err { OnErr result ((self.old.failed ≡ true) × (self.new.failed ≡ true)
            × IsSome self.new.driver) }
        ensures stands { OnErr result
            (StandsForNoMore (HasDriver self.old.failed self.old.driver)
            (HasDriver self.new.failed self.new.driver)) }
        ensures size { self.new.slots ≡ self.old.slots }
        ensures sent { self.new.sent ≡ self.old.sent }
        ensures journal { self.new.journal ≡ self.old.journal }
    {
        self.rail.hand_out()
    }

    /// Has the driver back.
    fn take_back(&mut self, driver: D)
        requires taken { IsNone self.old.driver }
        ensures stands { (st : D) → HasDriver self.new.failed self.new.driver st → st ≡ driver }
        ensures sound { ¬ (self.new.failed ≡ true) }
        ensures home { IsSome self.new.driver }
        ensures size { self.new.slots ≡ self.old.slots }
        ensures sent { self.new.sent ≡ self.old.sent }
        ensures journal { self.new.journal ≡ self.old.journal }
    {
        self.rail.take_back(driver);
    }
}

impl<D: Driver> Rail<D> for JournalRail<D> {
    fn submit<T: Threads + Sync>(&mut self, rt: &T, full: Batch) -> Batch
        requires shared { IsSync T.row }
        requires home { IsSome self.old.driver }
        requires size { full.size ≡ self.old.slots }
        requires room { self.old.sent < 2 ^ 62 }
        ensures empty { result ≡ empty_batch full.size }
        ensures stands { (st2 : D) → HasDriver self.new.failed self.new.driver st2
            → RunsFrom (HasDriver self.old.failed self.old.driver) D.steps full.calls st2 }
        ensures failed { self.new.failed ≡ true → (self.old.failed ≡ true) ⊎ (full.calls ≢ []) }
        ensures home { IsSome self.new.driver }
        ensures size { self.new.slots ≡ self.old.slots }
        ensures sent { self.new.sent ≡ self.old.sent + 1 }
        ensures journal { Gains (told_by self.old.journal) (told_by self.new.journal)
            (full.calls ∷ []) }
        // the batch is told behind the others, while all of them have room
        ensures kept { told_by self.new.journal
            ≡ told_with (room_by self.old.journal) (told_by self.old.journal) full.calls }
        ensures same_room { room_by self.new.journal ≡ room_by self.old.journal }
        ensures few_empty { empty_by self.new.journal ≤ empty_by self.old.journal + 1 }
        // after a refusal no call is carried out: neither in this batch nor in a later one
        ensures idle { self.old.failed ≡ true
            → (self.new.failed ≡ true) × (self.new.driver ≡ self.old.driver) }
        ensures stopped { StopsOnce D.steps self.old.failed self.old.driver
            full.calls self.new.failed self.new.driver }
    {
        self.keep_and_carry_out::<Plainly, (), T>(rt, &(), full)
    }

    fn take(&mut self) -> Result<D, NoMemory>
        requires home { IsSome self.old.driver }
        ensures ok { IfOk result
            (λ driver. HasDriver self.old.failed self.old.driver driver × IsNone self.new.driver) }
        ensures err { OnErr result ((self.old.failed ≡ true) × (self.new.failed ≡ true)
            × IsSome self.new.driver) }
        ensures stands { OnErr result
            (StandsForNoMore (HasDriver self.old.failed self.old.driver)
            (HasDriver self.new.failed self.new.driver)) }
        ensures size { self.new.slots ≡ self.old.slots }
        ensures sent { self.new.sent ≡ self.old.sent }
        ensures journal { self.new.journal ≡ self.old.journal }
    {
        self.hand_out()
    }

    fn put(&mut self, driver: D)
        requires taken { IsNone self.old.driver }
        ensures stands { (st : D) → HasDriver self.new.failed self.new.driver st → st ≡ driver }
        ensures sound { ¬ (self.new.failed ≡ true) }
        ensures home { IsSome self.new.driver }
        ensures size { self.new.slots ≡ self.old.slots }
        ensures sent { self.new.sent ≡ self.old.sent }
        ensures journal { self.new.journal ≡ self.old.journal }
    {
        self.take_back(driver);
    }

    fn slots(&self) -> u32 {
        self.rail.slots
    }

    fn sent(&self) -> u64 {
        self.rail.sent
    }
}

impl<D: WaitDriver> WaitRail<D> for JournalRail<D> {
    fn submit<T: Threads + Sync, W: Wait>(&mut self, rt: &T, wait: &W, full: Batch) -> Batch
        requires shared { IsSync T.row }
        requires home { IsSome self.old.driver }
        requires size { full.size ≡ self.old.slots }
        requires room { self.old.sent < 2 ^ 62 }
        ensures empty { result ≡ empty_batch full.size }
        ensures stands { (st2 : D) → HasDriver self.new.failed self.new.driver st2
            → RunsFrom (HasDriver self.old.failed self.old.driver) D.steps full.calls st2 }
        ensures failed { self.new.failed ≡ true → (self.old.failed ≡ true) ⊎ (full.calls ≢ []) }
        ensures home { IsSome self.new.driver }
        ensures size { self.new.slots ≡ self.old.slots }
        ensures sent { self.new.sent ≡ self.old.sent + 1 }
        ensures journal { Gains (told_by self.old.journal) (told_by self.new.journal)
            (full.calls ∷ []) }
        // the batch is told behind the others, while all of them have room
        ensures kept { told_by self.new.journal
            ≡ told_with (room_by self.old.journal) (told_by self.old.journal) full.calls }
        ensures same_room { room_by self.new.journal ≡ room_by self.old.journal }
        ensures few_empty { empty_by self.new.journal ≤ empty_by self.old.journal + 1 }
        // after a refusal no call is carried out: neither in this batch nor in a later one
        ensures idle { self.old.failed ≡ true
            → (self.new.failed ≡ true) × (self.new.driver ≡ self.old.driver) }
        ensures stopped { StopsOnce D.steps self.old.failed self.old.driver
            full.calls self.new.failed self.new.driver }
    {
        self.keep_and_carry_out::<Waiting, W, T>(rt, wait, full)
    }

    fn take<T: Threads + Sync, W: Wait>(&mut self, _rt: &T, _wait: &W) -> Result<D, NoMemory>
        requires shared { IsSync T.row }
        requires home { IsSome self.old.driver }
        ensures ok { IfOk result
            (λ driver. HasDriver self.old.failed self.old.driver driver × IsNone self.new.driver) }
        ensures err { OnErr result ((self.old.failed ≡ true) × (self.new.failed ≡ true)
            × IsSome self.new.driver) }
        ensures stands { OnErr result
            (StandsForNoMore (HasDriver self.old.failed self.old.driver)
            (HasDriver self.new.failed self.new.driver)) }
        ensures size { self.new.slots ≡ self.old.slots }
        ensures sent { self.new.sent ≡ self.old.sent }
        ensures journal { self.new.journal ≡ self.old.journal }
    {
        self.hand_out()
    }

    fn put<T: Threads + Sync, W: Wait>(&mut self, _rt: &T, _wait: &W, driver: D)
        requires shared { IsSync T.row }
        requires taken { IsNone self.old.driver }
        ensures stands { (st : D) → HasDriver self.new.failed self.new.driver st → st ≡ driver }
        ensures sound { ¬ (self.new.failed ≡ true) }
        ensures home { IsSome self.new.driver }
        ensures size { self.new.slots ≡ self.old.slots }
        ensures sent { self.new.sent ≡ self.old.sent }
        ensures journal { self.new.journal ≡ self.old.journal }
    {
        self.take_back(driver);
    }

    fn slots(&self) -> u32 {
        self.rail.slots
    }

    fn sent(&self) -> u64 {
        self.rail.sent
    }
}

/// Keeps a batch in a journal, where there is one.
fn keep(journal: &mut Option<Journal>, batch: &Batch)
    requires countable { empty_by journal.old < 2 ^ 64 - 1 }
    ensures told { told_by journal.new
        ≡ told_with (room_by journal.old) (told_by journal.old) batch.now.calls }
    ensures room { room_by journal.new ≡ room_by journal.old }
    ensures empty { empty_by journal.new ≤ empty_by journal.old + 1 }
{
    if let Some(journal) = journal {
        journal.keep(batch);
    }
}

/// How many of the last batches of a journal have no slots, where there is one.
fn empty_last(journal: &Option<Journal>) -> u64
    ensures { result ≡ empty_by journal.now }
{
    match journal {
        Some(journal) => journal.empty(),
        None => 0,
    }
}
