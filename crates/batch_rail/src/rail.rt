//! What takes full batches to a driver. A rail tells for which states of the driver it may stand.

ghost use Rattle.std.specs.Prelude.{◌≡◌, ◌≢◌, ℕ, ◌+◌, ◌^◌, ◌<◌, ◌⊎◌, List, [], ◌∷◌, Option, IfOk, OnErr};
ghost use Rattle.std.specs.Thread.{IsSync};
ghost use Rattle.batch_pack.specs.Spelling.{Spelled};
ghost use Rattle.batch_pack.specs.Batch.{empty_batch};
ghost use Rattle.batch_rail.specs.Run.{RunsFrom};
ghost use Rattle.batch_rail.specs.Rail.{Gains, StandsForNoMore};

use batch_pack::Batch;
use driver_trait::{Driver, Machine, WaitDriver};
use std::alloc::AllocError as NoMemory;
use std::sync::Wait;
use std::thread::Threads;

/// A rail as what it may stand for; own.
pub trait RailState<D: Machine>: Drop {
    /// The driver may be in this state, all submitted batches carried out.
    ghost stands: { Self → D → Type 0 };

    /// The driver may have been refused memory in a batch. No later batch is then carried out.
    ghost failed: { Self → Type 0 };

    /// The driver is with the rail.
    ghost home: { Self → Type 0 };

    /// The driver was taken.
    ghost taken: { Self → Type 0 };

    /// The size of its batches, in slots.
    ghost size: { Self → ℕ };

    /// How many batches were submitted since it was launched.
    ghost sent: { Self → ℕ };

    /// The batches submitted, where the rail tells them.
    ghost journal: { Self → Option (List (List Spelled)) };
}

/// A rail whose calls return. Own.
pub trait Rail<D: Driver>: RailState<D> {
    /// Submits a batch, and gives an empty one of the same size.
    fn submit<T: Threads + Sync>(&mut self, rt: &T, full: Batch) -> Batch
        requires shared { IsSync T.row }
        requires home { Self.home self.old }
        requires size { full.size ≡ Self.size self.old }
        requires room { Self.sent self.old < 2 ^ 62 }
        ensures empty { result ≡ empty_batch full.size }
        ensures stands { (st2 : D) → Self.stands self.new st2
            → RunsFrom (Self.stands self.old) D.steps full.calls st2 }
        ensures failed { Self.failed self.new → Self.failed self.old ⊎ (full.calls ≢ []) }
        ensures home { Self.home self.new }
        ensures size { Self.size self.new ≡ Self.size self.old }
        ensures sent { Self.sent self.new ≡ Self.sent self.old + 1 }
        ensures journal { Gains (Self.journal self.old) (Self.journal self.new) (full.calls ∷ []) };

    /// Takes the driver, all batches carried out. Refused only where one of them failed.
    fn take(&mut self) -> Result<D, NoMemory>
        requires home { Self.home self.old }
        ensures ok { IfOk result (λ driver. Self.stands self.old driver × Self.taken self.new) }
        ensures err { OnErr result
            (Self.failed self.old × Self.failed self.new × Self.home self.new) }
        ensures stands { OnErr result
            (StandsForNoMore (Self.stands self.old) (Self.stands self.new)) }
        ensures size { Self.size self.new ≡ Self.size self.old }
        ensures sent { Self.sent self.new ≡ Self.sent self.old }
        ensures journal { Gains (Self.journal self.old) (Self.journal self.new) [] };

    /// Gives the driver back.
    fn put(&mut self, driver: D)
        requires taken { Self.taken self.old }
        ensures stands { (st : D) → Self.stands self.new st → st ≡ driver }
        ensures sound { ¬ Self.failed self.new }
        ensures home { Self.home self.new }
        ensures size { Self.size self.new ≡ Self.size self.old }
        ensures sent { Self.sent self.new ≡ Self.sent self.old }
        ensures journal { Gains (Self.journal self.old) (Self.journal self.new) [] };

    /// The size of its batches, in slots.
    fn slots(&self) -> u32
        ensures { result ≡ Self.size self.now };

    /// How many batches were submitted since it was launched.
    fn sent(&self) -> u64
        ensures { result ≡ Self.sent self.now };
}

/// A rail whose calls may wait, with what [`RailState`] tells of it. Own.
pub trait WaitRail<D: WaitDriver>: RailState<D> {
    /// Submits a batch, and gives an empty one of the same size.
    fn submit<T: Threads + Sync, W: Wait>(&mut self, rt: &T, wait: &W, full: Batch) -> Batch
        requires shared { IsSync T.row }
        requires home { Self.home self.old }
        requires size { full.size ≡ Self.size self.old }
        requires room { Self.sent self.old < 2 ^ 62 }
        ensures empty { result ≡ empty_batch full.size }
        ensures stands { (st2 : D) → Self.stands self.new st2
            → RunsFrom (Self.stands self.old) D.steps full.calls st2 }
        ensures failed { Self.failed self.new → Self.failed self.old ⊎ (full.calls ≢ []) }
        ensures home { Self.home self.new }
        ensures size { Self.size self.new ≡ Self.size self.old }
        ensures sent { Self.sent self.new ≡ Self.sent self.old + 1 }
        ensures journal { Gains (Self.journal self.old) (Self.journal self.new) (full.calls ∷ []) };

    /// Takes the driver, all batches carried out. Refused only where one of them failed.
    fn take<T: Threads + Sync, W: Wait>(&mut self, rt: &T, wait: &W) -> Result<D, NoMemory>
        requires shared { IsSync T.row }
        requires home { Self.home self.old }
        ensures ok { IfOk result (λ driver. Self.stands self.old driver × Self.taken self.new) }
        ensures err { OnErr result
            (Self.failed self.old × Self.failed self.new × Self.home self.new) }
        ensures stands { OnErr result
            (StandsForNoMore (Self.stands self.old) (Self.stands self.new)) }
        ensures size { Self.size self.new ≡ Self.size self.old }
        ensures sent { Self.sent self.new ≡ Self.sent self.old }
        ensures journal { Gains (Self.journal self.old) (Self.journal self.new) [] };

    /// Gives the driver back.
    fn put<T: Threads + Sync, W: Wait>(&mut self, rt: &T, wait: &W, driver: D)
        requires shared { IsSync T.row }
        requires taken { Self.taken self.old }
        ensures stands { (st : D) → Self.stands self.new st → st ≡ driver }
        ensures sound { ¬ Self.failed self.new }
        ensures home { Self.home self.new }
        ensures size { Self.size self.new ≡ Self.size self.old }
        ensures sent { Self.sent self.new ≡ Self.sent self.old }
        ensures journal { Gains (Self.journal self.old) (Self.journal self.new) [] };

    /// The size of its batches, in slots.
    fn slots(&self) -> u32
        ensures { result ≡ Self.size self.now };

    /// How many batches were submitted since it was launched.
    fn sent(&self) -> u64
        ensures { result ≡ Self.sent self.now };
}
