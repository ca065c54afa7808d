//! The ends of the two rings of a rail, as its caller and its worker have them.

ghost use Rattle.std.specs.Prelude.{◌++◌};
ghost use Rattle.rtrb.specs.Ring.{received, known_items, sent};
ghost use Rattle.epoch_rail.specs.Rings.{Begins, MayBegin};

use crate::rings::{Emptied, Filled};
use batch_pack::Batch;
use rtrb::{Consumer, Producer};
use std::alloc::Global;
use std::sync::Arc;
use std::sync::atomic::AtomicBool;

/// The ends at which a worker receives filled batches and gives them back empty; own.
#[derive(Drop)]
pub struct WorkerEnds {
    pub(crate) size: u32,
    pub(crate) filled: Consumer<Batch, Global, Filled>,
    pub(crate) emptied: Producer<Batch, Global, Emptied>,
    /// Whether the interval is over.
    pub(crate) ending: Arc<AtomicBool, Global>,
    ghost begun: { Begins size (received filled ++ known_items filled) },
    ghost given: { MayBegin size (sent emptied) },
}

/// The ends at which a caller sends filled batches and has empty ones; own.
#[derive(Drop)]
pub struct CallerEnds {
    pub(crate) size: u32,
    pub(crate) filled: Producer<Batch, Global, Filled>,
    pub(crate) emptied: Consumer<Batch, Global, Emptied>,
    /// Whether the interval is over.
    pub(crate) ending: Arc<AtomicBool, Global>,
    ghost begun: { MayBegin size (sent filled) },
    ghost given: { Begins size (received emptied ++ known_items emptied) },
}
