//! The makers of rails that keep what was submitted. How a rail does so stands in `kept.rt`.

ghost use Rattle.std.specs.Prelude.{◌≡◌, ◌↔◌, ℕ, ◌+◌, ◌-◌, ◌^◌, ◌<◌, Some, None, IsSome, IsErr, true, IfOk, IfErr, OnErr, OnOk};
ghost use Rattle.batch_pack.specs.Batch.{IsBatchSize};
ghost use Rattle.batch_rail.specs.Rail.{HasDriver};
ghost use Rattle.batch_rail.specs.Maker.{IsRingLength, IsLaunched, IsUnused};
ghost use Rattle.batch_rail.specs.Journal.{SameOthers, empty_by, journal_at, new_journal, told_by};

use crate::batches::Batches;
use crate::journal::Journal;
use crate::kept::JournalRail;
use crate::maker::{RailKind, RailMaker};
use crate::part::{RailLender, RailUser, WaitMaker, WaitPart};
use driver_trait::{Driver, WaitDriver};
use std::alloc::{AllocError as NoMemory, Global};
use std::marker::Model;
use std::sync::Wait;
use std::thread::Threads;

/// Makes rails without threads, and tells for each context which batches were submitted, while they have no more
/// slots than it reserved; own. Contracts see its kind and the journals of the contexts that aren't out.
#[derive(Drop)]
pub struct JournalMaker {
    kind: RailKind,
    journals: [Option<Journal>; 4],
}

impl Model for JournalMaker {
    ghost use Rattle.batch_rail.specs.Journal.{MakerView};

    ghost Value = { MakerView };

    ghost view = { λ m. record { kind = m.kind; journals = m.journals } };
}

impl JournalMaker {
    /// A maker that says that it is of this kind, with room for so many slots of each context. Own.
    pub fn new(alloc: Global, kind: RailKind, room: u64) -> Result<JournalMaker, NoMemory>
        ensures kind { IfOk result (λ maker. maker.kind ≡ kind) }
        ensures journals { IfOk result (λ maker. (context : ℕ) → context < 4
            → journal_at maker.journals context ≡ Some (new_journal room)) }
    {
        Ok(JournalMaker {
            kind,
            journals: [
                Some(Journal::new(alloc, room)?),
                Some(Journal::new(alloc, room)?),
                Some(Journal::new(alloc, room)?),
                Some(Journal::new(alloc, room)?),
            ],
        })
    }

    /// The batches that were submitted to a context, in order. None where a rail of the context is out, and once they
    /// have more slots than there is room for. Own.
    pub fn journal(&self, context: u32) -> Option<Batches<'_>>
        requires context { context < 4 }
        ensures { result ≡ told_by (journal_at self.now.journals context) }
    {
        match &self.journals[context as usize] {
            Some(journal) => journal.batches(),
            None => None,
        }
    }

    /// The part of a context, which has its journal.
    fn split_off(&mut self, context: u32) -> JournalPart
        requires context { context < 4 }
        ensures told { result ≡ journal_at self.old.journals context }
        ensures out { journal_at self.new.journals context ≡ None }
        ensures others { SameOthers self.old.journals self.new.journals context }
        ensures kind { self.new.kind ≡ self.old.kind }
    {
        JournalPart {
            journal: self.journals[context as usize].take(),
        }
    }

    /// Takes the part of a context back.
    fn join_back(&mut self, context: u32, part: JournalPart)
        requires context { context < 4 }
        ensures told { journal_at self.new.journals context ≡ part }
        ensures others { SameOthers self.old.journals self.new.journals context }
        ensures kind { self.new.kind ≡ self.old.kind }
    {
        self.journals[context as usize] = part.journal;
    }
}

impl<D: Driver> RailMaker<D> for JournalMaker {
    type Made = JournalRail<D>;

    ghost kind_of = { λ maker. maker.kind };

    ghost journal = { λ maker context. told_by (journal_at maker.journals context) };

    fn kind(&self) -> RailKind {
        self.kind
    }

    fn launch(
        &mut self,
        alloc: Global,
        context: u32,
        driver: D,
        slots: u32,
        ring: u32,
    ) -> Result<JournalRail<D>, (D, NoMemory)>
        requires context { context < 4 }
        requires slots { IsBatchSize slots }
        requires ring { IsRingLength ring }
        ensures ok { IfOk result (λ rail. IsLaunched D.tracked
            (HasDriver rail.failed rail.driver) (rail.failed ≡ true) (IsSome rail.driver)
            rail.slots (D.tracked driver)) }
        ensures unused { IfOk result (λ rail. IsUnused (HasDriver rail.failed rail.driver)
            rail.slots rail.sent driver slots) }
        // refused exactly where more than 2^63 of the context's last batches have no slots
        ensures refused { IsErr result
            ↔ (2 ^ 63 < empty_by (journal_at self.old.journals context)) }
        ensures told { IfOk result (λ rail. rail.journal ≡ journal_at self.old.journals context) }
        // a context isn't told while its rail is out
        ensures out { OnOk result (journal_at self.new.journals context ≡ None) }
        ensures err { IfErr result (λ refusal. refusal.0 ≡ driver) }
        ensures refused_told { OnErr result (journal_at self.new.journals context
            ≡ journal_at self.old.journals context) }
        ensures others { SameOthers self.old.journals self.new.journals context }
        ensures kind { self.new.kind ≡ self.old.kind }
    {
        let mut part = self.split_off(context);
        let made = JournalRail::over(&mut part.journal, driver, slots);
        self.join_back(context, part);
        made
    }

    fn close(&mut self, context: u32, rail: JournalRail<D>) -> Result<D, NoMemory>
        requires context { context < 4 }
        requires home { IsSome rail.driver }
        ensures ok { IfOk result (λ driver. HasDriver rail.failed rail.driver driver) }
        ensures err { OnErr result (rail.failed ≡ true) }
        ensures told { journal_at self.new.journals context ≡ rail.journal }
        ensures others { SameOthers self.old.journals self.new.journals context }
        ensures kind { self.new.kind ≡ self.old.kind }
    {
        let mut part = self.split_off(context);
        let closed = rail.end(&mut part.journal);
        self.join_back(context, part);
        closed
    }
}

impl<D: WaitDriver> WaitMaker<D> for JournalMaker {
    type Part = JournalPart;

    ghost kind_of = { λ maker. maker.kind };

    ghost journal = { λ maker context. told_by (journal_at maker.journals context) };

    fn kind(&self) -> RailKind {
        self.kind
    }

    fn split(&mut self, context: u32) -> JournalPart
        requires context { context < 4 }
        ensures told { result ≡ journal_at self.old.journals context }
        // a context isn't told until its part is back
        ensures out { journal_at self.new.journals context ≡ None }
        ensures others { SameOthers self.old.journals self.new.journals context }
        ensures kind { self.new.kind ≡ self.old.kind }
    {
        self.split_off(context)
    }

    fn join(&mut self, context: u32, part: JournalPart)
        requires context { context < 4 }
        ensures told { journal_at self.new.journals context ≡ part }
        ensures others { SameOthers self.old.journals self.new.journals context }
        ensures kind { self.new.kind ≡ self.old.kind }
    {
        self.join_back(context, part);
    }
}

/// Makes the rails of one context, and has its journal while no rail has it; own. Contracts see that journal.
#[derive(Drop)]
pub struct JournalPart {
    journal: Option<Journal>,
}

impl Model for JournalPart {
    ghost use Rattle.std.specs.Prelude.{Option};
    ghost use Rattle.batch_rail.specs.Journal.{JournalView};

    ghost Value = { Option JournalView };

    ghost view = { λ p. p.journal };
}

impl<D: WaitDriver> RailLender<D> for JournalPart {
    ghost journal = { λ part. told_by part };

    fn with_rail<T: Threads + Sync, W: Wait, U: RailUser<D>>(
        &mut self,
        rt: &T,
        wait: &W,
        alloc: Global,
        driver: D,
        slots: u32,
        ring: u32,
        user: U,
    ) -> Result<(D, U::Out), NoMemory> {
        let rail = match self.launch(rt, wait, alloc, driver, slots, ring) {
            Ok(rail) => rail,
            Err((_driver, refusal)) => return Err(refusal),
        };
        let (rail, used) = user.use_rail(rt, wait, alloc, rail, slots);
        let closed = self.close(rt, wait, rail);
        let out = used?;
        let driver = closed?;
        Ok((driver, out))
    }
}

impl<D: WaitDriver> WaitPart<D> for JournalPart {
    type Made = JournalRail<D>;

    fn launch<T: Threads + Sync, W: Wait>(
        &mut self,
        _rt: &T,
        _wait: &W,
        alloc: Global,
        driver: D,
        slots: u32,
        ring: u32,
    ) -> Result<JournalRail<D>, (D, NoMemory)>
        requires slots { IsBatchSize slots }
        requires ring { IsRingLength ring }
        ensures ok { IfOk result (λ rail. IsLaunched D.tracked
            (HasDriver rail.failed rail.driver) (rail.failed ≡ true) (IsSome rail.driver)
            rail.slots (D.tracked driver)) }
        ensures unused { IfOk result (λ rail. IsUnused (HasDriver rail.failed rail.driver)
            rail.slots rail.sent driver slots) }
        // refused exactly where more than 2^63 of the context's last batches have no slots
        ensures refused { IsErr result ↔ (2 ^ 63 < empty_by self.old) }
        ensures told { IfOk result (λ rail. rail.journal ≡ self.old) }
        // nothing is told while the rail is out
        ensures out { OnOk result (self.new ≡ None) }
        ensures err { IfErr result (λ refusal. refusal.0 ≡ driver) }
        ensures refused_told { OnErr result (self.new ≡ self.old) }
    {
        JournalRail::over(&mut self.journal, driver, slots)
    }

    fn close<T: Threads + Sync, W: Wait>(
        &mut self,
        _rt: &T,
        _wait: &W,
        rail: JournalRail<D>,
    ) -> Result<D, NoMemory>
        requires home { IsSome rail.driver }
        ensures ok { IfOk result (λ driver. HasDriver rail.failed rail.driver driver) }
        ensures err { OnErr result (rail.failed ≡ true) }
        ensures told { self.new ≡ rail.journal }
    {
        rail.end(&mut self.journal)
    }
}
