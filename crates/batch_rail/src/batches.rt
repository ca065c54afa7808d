//! Reading what was submitted, batch by batch. `batch_pack::parse` reads the calls of one.

ghost use Rattle.std.specs.Prelude.{◌≡◌, [], MatchOption, IfNone};
ghost use Rattle.batch_rail.specs.Journal.{TakesFirst};
ghost use Rattle.batch_rail.specs.Kept.{AreBatches, batches_in, counts_of, slots_after};

use crate::stretch::Stretch;
use std::marker::Model;

/// Gives batches in the order in which they were submitted; own. Contracts see those that are still to come.
#[derive(Drop)]
pub struct Batches<'a> {
    slots: &'a [u64],
    stretches: &'a [Stretch],
    empty: u64,
    behind: u64,
}

impl<'a> Model for Batches<'a> {
    ghost use Rattle.std.specs.Prelude.{List};
    ghost use Rattle.batch_pack.specs.Spelling.{Spelled};
    ghost use Rattle.batch_rail.specs.Kept.{AreBatches, batches_in, slots_after};

    ghost Value = { List (List Spelled) };

    ghost view = { λ b. batches_in b.slots.now (slots_after b.empty b.stretches.now b.behind) };

    ghost invariant = { λ b. AreBatches b.slots.now (slots_after b.empty b.stretches.now b.behind) };
}

impl<'a> Batches<'a> {
    /// The batches of slots that are kept so.
    pub(crate) fn of(slots: &'a [u64], stretches: &'a [Stretch], behind: u64) -> Batches<'a>
        requires kept { AreBatches slots.now (counts_of stretches.now behind) }
        ensures { result ≡ batches_in slots.now (counts_of stretches.now behind) }
    {
        Batches {
            slots,
            stretches,
            empty: first_empty(stretches, behind),
            behind,
        }
    }

    /// The slots of the next batch, which is then no longer to come. None exactly at the end. Own.
    pub fn next(&mut self) -> Option<&'a [u64]>
        ensures next { MatchOption result (self.old ≡ [])
            (λ slots. TakesFirst self.old self.new slots.now) }
        ensures end { IfNone result (self.new ≡ self.old) }
    {
        if self.empty > 0 {
            self.empty -= 1;
            return Some(self.slots.split_at(0).0);
        }
        let (stretch, others) = self.stretches.split_first()?;
        let (batch, rest) = self.slots.split_at(stretch.slots as usize);
        self.slots = rest;
        self.stretches = others;
        self.empty = first_empty(others, self.behind);
        Some(batch)
    }
}

/// How many batches without slots come first.
fn first_empty(stretches: &[Stretch], behind: u64) -> u64
    ensures { slots_after result stretches.now behind ≡ counts_of stretches.now behind }
{
    match stretches.first() {
        Some(stretch) => stretch.empty,
        None => behind,
    }
}
