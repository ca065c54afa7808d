//! The rings of a rail as it is launched.

ghost use Rattle.std.specs.Prelude.{◌≡◌, [], ◌∷◌, IfOk, OnOk};
ghost use Rattle.rtrb.specs.Ring.{received, sent};
ghost use Rattle.batch_pack.specs.Batch.{IsBatchSize};
ghost use Rattle.batch_rail.specs.Maker.{IsRingLength};
ghost use Rattle.epoch_rail.specs.Ends.{AreFellows, AreNew, SameWorker};

use crate::ends::{CallerEnds, WorkerEnds};
use crate::rings::{Emptied, Filled};
use batch_pack::Batch;
use rtrb::RingBuffer;
use std::alloc::{AllocError as NoMemory, Global};
use std::sync::Arc;
use std::sync::atomic::AtomicBool;

/// The ends of two rings, with so many empty batches in the one that comes back.
pub(crate) fn new_ends(
    alloc: Global,
    slots: u32,
    ring: u32,
) -> Result<(CallerEnds, WorkerEnds), NoMemory>
    requires slots { IsBatchSize slots }
    requires ring { IsRingLength ring }
    ensures { IfOk result (λ ends. AreNew ends.0 ends.1 slots) }
{
    let (caller, mut worker) = first_ends(alloc, slots, ring)?;
    stock(alloc, &mut worker, slots, ring - 1)?;
    Ok((caller, worker))
}

/// The same with one batch. It goes through the ring of filled batches first, so that each side knows its size from the
/// first one that it received.
#[tactic(auto, unfolding(crate::specs::Rings::first_size))]
fn first_ends(alloc: Global, slots: u32, ring: u32) -> Result<(CallerEnds, WorkerEnds), NoMemory>
    requires slots { IsBatchSize slots }
    requires ring { IsRingLength ring }
    ensures { IfOk result (λ ends. AreNew ends.0 ends.1 slots) }
{
    let (mut to, mut filled) = RingBuffer::with_protocol::<Global, Filled>(alloc, ring as usize)?;
    let (mut emptied, mut from) = RingBuffer::with_protocol::<Global, Emptied>(
        alloc,
        ring as usize,
    )?;
    let ending = Arc::new(alloc, AtomicBool::new(false))?;
    let theirs = Arc::try_clone(&ending)?;
    to.push_reserved(Batch::new(alloc, slots)?);
    filled.slots_beside(&mut to);
    let first = filled.pop_known();
    emptied.push_reserved(first);
    from.slots_beside(&mut emptied);
    let caller = CallerEnds {
        size: slots,
        filled: to,
        emptied: from,
        ending,
    };
    let worker = WorkerEnds {
        size: slots,
        filled,
        emptied,
        ending: theirs,
    };
    Ok((caller, worker))
}

/// Puts so many empty batches into the ring that comes back.
fn stock(alloc: Global, worker: &mut WorkerEnds, slots: u32, count: u32) -> Result<(), NoMemory>
    requires slots { IsBatchSize slots }
    requires size { worker.old.size ≡ slots }
    ensures filled { OnOk result (worker.new.filled ≡ worker.old.filled) }
    ensures same { OnOk result (SameWorker worker.old worker.new) }
{
    for _ in 0..count {
        let batch = Batch::new(alloc, slots)?;
        worker.give(batch);
    }
    Ok(())
}
