//! The batches that were submitted to a rail, in memory that was asked for before. How they are read stands in
//! `batches.rt`.

ghost use Rattle.std.specs.Prelude.{◌≡◌, ◌+◌, ◌-◌, ◌^◌, ◌<◌, ◌≤◌, [], ◌∷◌, ◌++◌, length, vec_capacity, IfOk};
ghost use Rattle.batch_rail.specs.Journal.{new_journal, told_with};
ghost use Rattle.batch_rail.specs.Kept.{counts_of};

use crate::batches::Batches;
use crate::stretch::Stretch;
use batch_pack::Batch;
use std::alloc::{AllocError as NoMemory, Global};
use std::marker::Model;

/// Batches one after another; own. Contracts see them, as long as none was left out for want of room.
#[derive(Drop)]
pub(crate) struct Journal {
    slots: Vec<u64>,
    stretches: Vec<Stretch>,
    empty: u64,
    room: u64,
    whole: bool,
}

impl Model for Journal {
    ghost use Rattle.std.specs.Prelude.{if◌then◌else◌, vec_capacity, Some, None};
    ghost use Rattle.batch_rail.specs.Journal.{JournalView};
    ghost use Rattle.batch_rail.specs.Kept.{IsKept, batches_in, counts_of};

    ghost Value = { JournalView };

    ghost view = { λ j. record {
      told = if j.whole then Some (batches_in j.slots.items (counts_of j.stretches.items j.empty)) else None;
      room = j.room;
      empty = j.empty;
    } };

    ghost invariant = { λ j. IsKept j.slots.items j.stretches.items j.empty
        (vec_capacity j.slots) (vec_capacity j.stretches) j.room };
}

impl Journal {
    /// A journal of no batches, with room for so many slots.
    pub(crate) fn new(alloc: Global, room: u64) -> Result<Journal, NoMemory>
        ensures { IfOk result (λ journal. journal ≡ new_journal room) }
    {
        Ok(Journal {
            slots: Vec::with_capacity(alloc, room as usize)?,
            stretches: Vec::with_capacity(alloc, room as usize)?,
            empty: 0,
            room,
            whole: true,
        })
    }

    /// Keeps a batch behind the others. One for which there is no room is left out, and nothing is told from then on.
    pub(crate) fn keep(&mut self, batch: &Batch)
        requires countable { self.old.empty < 2 ^ 64 - 1 }
        ensures told { self.new.told ≡ told_with self.old.room self.old.told batch.now.calls }
        ensures room { self.new.room ≡ self.old.room }
        ensures empty { self.new.empty ≤ self.old.empty + 1 }
    {
        if !self.whole {
            return;
        }
        let slots = batch.slots();
        if self.room - (self.slots.len() as u64) < slots.len() as u64 {
            self.whole = false;
            return;
        }
        copy(&mut self.slots, slots);
        self.empty = counted(&mut self.stretches, self.empty, slots.len() as u64);
    }

    /// How many of the last batches have no slots.
    pub(crate) fn empty(&self) -> u64
        ensures { result ≡ self.now.empty }
    {
        self.empty
    }

    /// The batches from the first on, where they are told.
    pub(crate) fn batches(&self) -> Option<Batches<'_>>
        ensures { result ≡ self.now.told }
    {
        if self.whole {
            let slots = self.slots.as_slice();
            Some(Batches::of(slots, self.stretches.as_slice(), self.empty))
        } else {
            None
        }
    }
}

/// Copies slots behind the others.
fn copy(all: &mut Vec<u64>, slots: &[u64])
    requires room { length all.old.items + length slots.now ≤ vec_capacity all.old }
    ensures items { all.new.items ≡ all.old.items ++ slots.now }
    ensures same_room { vec_capacity all.new ≡ vec_capacity all.old }
{
    for slot in slots {
        all.push_reserved(*slot);
    }
}

/// Counts a batch of so many slots behind the others. Gives how many of the last have none now.
fn counted(stretches: &mut Vec<Stretch>, empty: u64, slots: u64) -> u64
    requires countable { empty < 2 ^ 64 - 1 }
    requires room { length stretches.old.items + slots ≤ vec_capacity stretches.old }
    ensures counts { counts_of stretches.new.items result
        ≡ counts_of stretches.old.items empty ++ slots ∷ [] }
    ensures few { length stretches.new.items ≤ length stretches.old.items + slots }
    ensures empty { result ≤ empty + 1 }
    ensures same_room { vec_capacity stretches.new ≡ vec_capacity stretches.old }
{
    if slots == 0 {
        return empty + 1;
    }
    stretches.push_reserved(Stretch { empty, slots });
    0
}
