//! Where the driver of a rail is.

use crate::ends::WorkerEnds;
use crate::work::Work;

/// Where the driver of a rail is; own.
#[derive(Drop)]
pub enum Stage<D, H> {
    /// With the caller: no worker was started, or none could be.
    Home(Work<D>),
    /// With a worker.
    Away(H),
    /// It was taken.
    Taken(WorkerEnds),
}
