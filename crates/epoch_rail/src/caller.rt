//! Sending filled batches and having empty ones.

ghost use Rattle.std.specs.Prelude.{◌≡◌, [], ◌∷◌, ◌++◌, IfSome};
ghost use Rattle.rtrb.specs.Ring.{sent, SameProducer};
ghost use Rattle.batch_pack.specs.Batch.{empty_batch};
ghost use Rattle.epoch_rail.specs.Rings.{HasFirstSize};
ghost use Rattle.epoch_rail.specs.Ends.{SameCaller};

use crate::ends::CallerEnds;
use crate::rings::Filled;
use batch_pack::Batch;
use rtrb::{Producer, PushError};
use std::alloc::Global;
use std::sync::Wait;
use std::thread::yield_now;

impl CallerEnds {
    /// An empty batch, if one has come.
    fn empty_come(&mut self) -> Option<Batch>
        ensures empty { IfSome result (λ batch. batch ≡ empty_batch self.old.size) }
        ensures filled { self.new.filled ≡ self.old.filled }
        ensures same { SameCaller self.old self.new }
    {
        match self.emptied.pop() {
            Ok(batch) => Some(batch),
            Err(_) => None,
        }
    }

    /// An empty batch, once one has come.
    pub(crate) fn empty<W: Wait>(&mut self, wait: &W) -> Batch
        ensures empty { result ≡ empty_batch self.old.size }
        ensures sent { sent self.new.filled ≡ sent self.old.filled }
        ensures same { SameCaller self.old self.new }
    {
        for _ in wait.forever() {
            if let Some(batch) = self.empty_come() {
                return batch;
            }
            yield_now();
        }
        unreachable!()
    }

    /// Sends a filled batch.
    pub(crate) fn send<W: Wait>(&mut self, wait: &W, batch: Batch)
        requires size { batch.size ≡ self.old.size }
        ensures sent { sent self.new.filled ≡ sent self.old.filled ++ batch ∷ [] }
        ensures same { SameCaller self.old self.new }
    {
        push(wait, &mut self.filled, batch);
    }
}

/// Puts a batch into a ring, once there is room.
fn push<W: Wait>(wait: &W, ring: &mut Producer<Batch, Global, Filled>, batch: Batch)
    requires allowed { HasFirstSize (sent ring.old) batch }
    ensures sent { sent ring.new ≡ sent ring.old ++ batch ∷ [] }
    ensures same { SameProducer ring.old ring.new }
{
    let mut left = batch;
    for _ in wait.forever() {
        match ring.push(left) {
            Ok(()) => return,
            Err(PushError::Full(back)) => left = back,
        }
        yield_now();
    }
    unreachable!()
}
