//! What may go through the two rings of a rail.

ghost use Rattle.std.specs.Prelude.{◌≡◌, []};
ghost use Rattle.epoch_rail.specs.Rings.{HasFirstSize};

use batch_pack::Batch;
use rtrb::Protocol;

/// Filled batches, which go to the worker: each has the size of the first; own.
#[derive(Clone, Copy)]
pub struct Filled;

impl Protocol<Batch> for Filled {
    ghost allows = { λ before batch. HasFirstSize before batch };
}

/// Empty batches, which come back: each has the size of the first; own.
#[derive(Clone, Copy)]
pub struct Emptied;

impl Protocol<Batch> for Emptied {
    ghost allows = { λ before batch. HasFirstSize before batch × (batch.calls ≡ []) };
}
