//! What goes to a worker, and comes back from it.

use crate::ends::WorkerEnds;

/// The driver of a rail with the ends of a worker, as a worker has them, or its caller while there is no worker; own.
#[derive(Drop)]
pub struct Work<D> {
    pub(crate) driver: D,
    pub(crate) failed: bool,
    pub(crate) ends: WorkerEnds,
}
