//! What makes rails, and takes them back.

ghost use Rattle.std.specs.Prelude.{◌≡◌, ℕ, ◌<◌, List, [], Option, IfOk, IfErr, OnErr};
ghost use Rattle.batch_pack.specs.Spelling.{Spelled};
ghost use Rattle.batch_pack.specs.Batch.{IsBatchSize};
ghost use Rattle.batch_rail.specs.declared.maker.RailKind.{RailKind};
ghost use Rattle.batch_rail.specs.Rail.{Gains};
ghost use Rattle.batch_rail.specs.Maker.{IsRingLength, KeepsOthers, IsLaunched, IsUnused};

use crate::rail::Rail;
use driver_trait::Driver;
use std::alloc::{AllocError as NoMemory, Global};

/// How batches are carried out; own.
#[derive(Clone, Copy, Debug, PartialEq, Eq)]
pub enum RailKind {
    /// At once, by the caller.
    Inline,
    /// By a worker that is started anew after each call that waits.
    Epoch,
    /// By one server that lives as long as the rail.
    Ring,
}

/// Makes rails for the contexts 0 to 3; own.
pub trait RailMaker<D: Driver>: Drop {
    /// Its rails.
    type Made: Rail<D> + Drop;

    /// How its rails carry batches out.
    ghost kind_of: { Self → RailKind };

    /// The batches of each context, where the maker tells them.
    ghost journal: { Self → ℕ → Option (List (List Spelled)) };

    /// How its rails carry batches out.
    fn kind(&self) -> RailKind
        ensures { result ≡ kind_of self.now };

    /// A rail that stands for this driver, as a front takes it where the driver is one of a new context. Batches have 16
    /// to 8192 slots of eight bytes, a ring has 1 to 64 batches. Want of memory gives the driver back. No clause says
    /// whether a context is told while its rail is out.
    fn launch(
        &mut self,
        alloc: Global,
        context: u32,
        driver: D,
        slots: u32,
        ring: u32,
    ) -> Result<Self::Made, (D, NoMemory)>
        requires context { context < 4 }
        requires slots { IsBatchSize slots }
        requires ring { IsRingLength ring }
        ensures ok { IfOk result (λ rail. IsLaunched D.tracked (Self.Made.stands rail)
            (Self.Made.failed rail) (Self.Made.home rail) (Self.Made.size rail)
            (D.tracked driver)) }
        ensures unused { IfOk result (λ rail. IsUnused (Self.Made.stands rail)
            (Self.Made.size rail) (Self.Made.sent rail) driver slots) }
        ensures told { IfOk result
            (λ rail. Gains (Self.journal self.old context) (Self.Made.journal rail) []) }
        ensures err { IfErr result (λ refusal. refusal.0 ≡ driver) }
        ensures refused_told { OnErr result
            (Gains (Self.journal self.old context) (Self.journal self.new context) []) }
        ensures others { KeepsOthers (Self.journal self.old) (Self.journal self.new) context };

    /// Takes a rail back and gives its driver. Refused only where the rail failed.
    fn close(&mut self, context: u32, rail: Self::Made) -> Result<D, NoMemory>
        requires context { context < 4 }
        requires home { Self.Made.home rail }
        ensures ok { IfOk result (λ driver. Self.Made.stands rail driver) }
        ensures err { OnErr result (Self.Made.failed rail) }
        ensures told { Gains (Self.Made.journal rail) (Self.journal self.new context) [] }
        ensures others { KeepsOthers (Self.journal self.old) (Self.journal self.new) context };
}
