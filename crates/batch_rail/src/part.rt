//! What makes rails that may wait. A maker is split into parts, one a context, so that each context has its own thread.

ghost use Rattle.std.specs.Prelude.{◌≡◌, ℕ, ◌<◌, List, [], Option, IfOk, IfErr, OnErr};
ghost use Rattle.std.specs.Thread.{IsSync};
ghost use Rattle.batch_pack.specs.Spelling.{Spelled};
ghost use Rattle.batch_pack.specs.Batch.{IsBatchSize};
ghost use Rattle.batch_rail.specs.declared.maker.RailKind.{RailKind};
ghost use Rattle.batch_rail.specs.Rail.{Gains, GainsSome};
ghost use Rattle.batch_rail.specs.Maker.{IsRingLength, KeepsOthers, IsLaunched, IsUnused};
ghost use Rattle.batch_rail.specs.Part.{IsReady, IsUsed};

use crate::maker::RailKind;
use crate::rail::WaitRail;
use driver_trait::WaitDriver;
use std::alloc::{AllocError as NoMemory, Global};
use std::sync::Wait;
use std::thread::Threads;

/// What is done with a rail, whichever rail a part makes for it; own.
pub trait RailUser<D: WaitDriver>: Drop {
    /// What it gives.
    type Out: Drop;

    /// It takes a rail over this driver, with batches of so many slots.
    ghost ready: { Self → ℕ → D → Type 0 };

    /// With batches of so many slots it may give this, where it had the driver in this state, submitted these batches,
    /// and left it in that state.
    ghost leads: { Self → ℕ → Self.Out → D → List (List Spelled) → D → Type 0 };

    /// Uses a rail that was launched and has done nothing yet, and gives it back with the driver at home.
    fn use_rail<T: Threads + Sync, W: Wait, R: WaitRail<D>>(
        self,
        rt: &T,
        wait: &W,
        alloc: Global,
        rail: R,
        slots: u32,
    ) -> (R, Result<Self::Out, NoMemory>)
        requires shared { IsSync T.row }
        requires ready { IsReady D.tracked (Self.ready self slots) (R.stands rail)
            (R.failed rail) (R.home rail) (R.size rail) (R.sent rail) slots }
        ensures home { R.home result.0 }
        ensures ok { IfOk result.1 (λ out. IsUsed (Self.leads self slots out) (R.stands rail)
            (R.stands result.0) (R.journal rail) (R.journal result.0)) }
        ensures err { OnErr result.1 (GainsSome (R.journal rail) (R.journal result.0)) };
}

/// What has a rail for a user, and keeps its batches; own. Nothing is said of the rail's type, which may be one that
/// stays in one place: so a closure that is to run in another thread may be generic over a lender, and not over a part.
pub trait RailLender<D: WaitDriver>: Drop {
    /// The batches of its context, where it tells them.
    ghost journal: { Self → Option (List (List Spelled)) };

    /// Launches a rail, has it used, and closes it on every way out. Gives the driver, and what its user gives.
    fn with_rail<T: Threads + Sync, W: Wait, U: RailUser<D>>(
        &mut self,
        rt: &T,
        wait: &W,
        alloc: Global,
        driver: D,
        slots: u32,
        ring: u32,
        user: U,
    ) -> Result<(D, U::Out), NoMemory>
        requires shared { IsSync T.row }
        requires slots { IsBatchSize slots }
        requires ring { IsRingLength ring }
        requires ready { U.ready user slots driver }
        ensures ok { IfOk result (λ given. IsUsed (U.leads user slots given.1)
            (λ st. st ≡ driver) (λ st. st ≡ given.0) (Self.journal self.old)
            (Self.journal self.new)) }
        ensures err { OnErr result
            (GainsSome (Self.journal self.old) (Self.journal self.new)) };
}

/// Makes the rails of one context; own. It may move to that context's thread.
pub trait WaitPart<D: WaitDriver>: RailLender<D> {
    /// Its rails.
    type Made: WaitRail<D> + Drop;

    /// A rail that stands for this driver, as a front takes it where the driver is one of a new context. Batches have 16
    /// to 8192 slots of eight bytes, a ring has 1 to 64 batches. Want of memory gives the driver back. No clause says
    /// whether the part tells its batches while a rail is out.
    fn launch<T: Threads + Sync, W: Wait>(
        &mut self,
        rt: &T,
        wait: &W,
        alloc: Global,
        driver: D,
        slots: u32,
        ring: u32,
    ) -> Result<Self::Made, (D, NoMemory)>
        requires shared { IsSync T.row }
        requires slots { IsBatchSize slots }
        requires ring { IsRingLength ring }
        ensures ok { IfOk result (λ rail. IsLaunched D.tracked (Self.Made.stands rail)
            (Self.Made.failed rail) (Self.Made.home rail) (Self.Made.size rail)
            (D.tracked driver)) }
        ensures unused { IfOk result (λ rail. IsUnused (Self.Made.stands rail)
            (Self.Made.size rail) (Self.Made.sent rail) driver slots) }
        ensures told { IfOk result
            (λ rail. Gains (Self.journal self.old) (Self.Made.journal rail) []) }
        ensures err { IfErr result (λ refusal. refusal.0 ≡ driver) }
        ensures refused_told { OnErr result
            (Gains (Self.journal self.old) (Self.journal self.new) []) };

    /// Takes a rail back and gives its driver. Refused only where the rail failed.
    fn close<T: Threads + Sync, W: Wait>(
        &mut self,
        rt: &T,
        wait: &W,
        rail: Self::Made,
    ) -> Result<D, NoMemory>
        requires shared { IsSync T.row }
        requires home { Self.Made.home rail }
        ensures ok { IfOk result (λ driver. Self.Made.stands rail driver) }
        ensures err { OnErr result (Self.Made.failed rail) }
        ensures told { Gains (Self.Made.journal rail) (Self.journal self.new) [] };
}

/// Makes rails for the contexts 0 to 3, by a part for each; own.
pub trait WaitMaker<D: WaitDriver>: Drop {
    /// Its parts.
    type Part: WaitPart<D> + Send;

    /// How its rails carry batches out.
    ghost kind_of: { Self → RailKind };

    /// The batches of each context, where the maker tells them.
    ghost journal: { Self → ℕ → Option (List (List Spelled)) };

    /// How its rails carry batches out.
    fn kind(&self) -> RailKind
        ensures { result ≡ kind_of self.now };

    /// A part for a context. It takes no memory. No clause says whether the context is told until the part is back.
    fn split(&mut self, context: u32) -> Self::Part
        requires context { context < 4 }
        ensures told { Gains (Self.journal self.old context) (Self.Part.journal result) [] }
        ensures others { KeepsOthers (Self.journal self.old) (Self.journal self.new) context };

    /// Takes the part of a context back. It takes no memory.
    fn join(&mut self, context: u32, part: Self::Part)
        requires context { context < 4 }
        ensures told { Gains (Self.Part.journal part) (Self.journal self.new context) [] }
        ensures others { KeepsOthers (Self.journal self.old) (Self.journal self.new) context };
}
