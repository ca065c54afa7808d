//! Receiving filled batches and giving them back empty.

ghost use Rattle.std.specs.Prelude.{◌≡◌, ◌<◌, [], ◌∷◌, ◌++◌, length, IfSome, IfNone};
ghost use Rattle.rtrb.specs.Ring.{received, known_items};
ghost use Rattle.epoch_rail.specs.Ends.{SameWorker, AreFellows, SameCaller};
ghost use Rattle.rtrb.specs.Ring.{sent};

use crate::ends::{CallerEnds, WorkerEnds};
use batch_pack::Batch;

impl WorkerEnds {
    /// The next batch, if one has come.
    pub(crate) fn next(&mut self) -> Option<Batch>
        ensures size { IfSome result (λ batch. batch.size ≡ self.old.size) }
        ensures took { IfSome result (λ batch. received self.new.filled ≡ received self.old.filled ++ batch ∷ []) }
        ensures none { IfNone result (received self.new.filled ≡ received self.old.filled) }
        ensures same { SameWorker self.old self.new }
    {
        match self.filled.pop() {
            Ok(batch) => Some(batch),
            Err(_) => None,
        }
    }

    /// The next of the batches that were seen.
    pub(crate) fn next_seen(&mut self) -> Batch
        requires seen { 0 < length (known_items self.old.filled) }
        ensures size { result.size ≡ self.old.size }
        ensures took { received self.new.filled ≡ received self.old.filled ++ result ∷ [] }
        ensures seen { known_items self.old.filled ≡ result ∷ known_items self.new.filled }
        ensures same { SameWorker self.old self.new }
    {
        self.filled.pop_known()
    }

    /// How many batches were seen.
    pub(crate) fn seen(&self) -> usize
        ensures { result ≡ length (known_items self.now.filled) }
    {
        self.filled.cached_slots()
    }

    /// Sees all batches that were sent, with the caller's ends at hand.
    pub(crate) fn see_all(&mut self, caller: &mut CallerEnds)
        requires fellows { AreFellows caller.old self.old }
        ensures all { received self.new.filled ++ known_items self.new.filled ≡ sent caller.new.filled }
        ensures received { received self.new.filled ≡ received self.old.filled }
        ensures sent { sent caller.new.filled ≡ sent caller.old.filled }
        ensures same { SameWorker self.old self.new }
        ensures caller { SameCaller caller.old caller.new }
    {
        self.filled.slots_beside(&mut caller.filled);
    }

    /// Gives a batch back empty.
    pub(crate) fn give(&mut self, batch: Batch)
        requires size { batch.size ≡ self.old.size }
        ensures filled { self.new.filled ≡ self.old.filled }
        ensures same { SameWorker self.old self.new }
    {
        let mut batch = batch;
        batch.clear();
        // the ring has room for every batch of the rail
        let _given = self.emptied.push(batch);
    }
}
