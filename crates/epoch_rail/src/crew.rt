//! How a worker is started, and what its end gives. No method of a trait starts one, so a rail is given the crew that does.

ghost use Rattle.std.specs.Prelude.{◌≡◌, IfOk, IfErr};
ghost use Rattle.epoch_rail.specs.Work.{Carried};

use crate::carry::carry_all;
use crate::work::Work;
use driver_trait::{Machine, WaitDriver};
use std::snapshot::Snapshot;
use std::sync::atomic::Ordering;
use std::sync::{Arc, Wait};
use std::thread;
use std::thread::{Promise, PromisedHandle, Threads};

/// A worker that was started, as what it was given; own.
pub trait Begun<D: Machine>: Drop {
    ghost use Rattle.epoch_rail.specs.declared.work.Work.{Work};

    /// What it was given.
    ghost was: { Self → Work D };

    /// Waits for its end, and has back what it was given, with the batches carried out that it received; own.
    fn end<T: Threads>(self, rt: &T) -> Work<D>
        ensures { Carried D.steps (was self) result };
}

/// What starts workers; own.
pub trait Crew<D: Machine>: Drop {
    /// Its workers.
    type Worker: Begun<D>;

    /// It may be asked for a worker at any time.
    ghost ready: { Self → Type 0 };

    /// Starts a worker. Where no thread can be started the work comes back, and what was sent may be carried out;
    /// own.
    fn begin(&self, work: Work<D>) -> Result<Self::Worker, Work<D>>
        requires ready { ready self.now }
        ensures ok { IfOk result (λ worker. Self.Worker.was worker ≡ work) }
        ensures err { IfErr result (λ back. Carried D.steps work back) };

    /// The same crew once more.
    fn another(&self) -> Self
        ensures { ready self.now → ready result };
}

/// What a worker keeps: it carries out what it receives; own.
#[derive(Drop)]
pub struct Interval<D> {
    was: Snapshot<Work<D>>,
}

impl<D: WaitDriver> Promise<Work<D>> for Interval<D> {
    ghost kept_by = { λ interval end. Carried D.steps interval.was.value end };
}

impl<D: WaitDriver> Begun<D> for PromisedHandle<Work<D>, Interval<D>> {
    ghost was = { λ worker. worker.promise.was.value };

    fn end<T: Threads>(self, rt: &T) -> Work<D> {
        self.join(rt)
    }
}

/// Carries out batches by a handle of its own.
fn carry_all_there<T: Threads + Wait + Copy + Sync, D: WaitDriver>(rt: T, work: Work<D>) -> Work<D>
    ensures { Carried D.steps work result }
{
    carry_all(&rt, &rt, work)
}

/// Starts a worker in a thread of its own, which carries out batches as they come until the interval ends. Where no
/// thread can be started, the interval ends at once, and the caller does the same; own.
pub fn start<T: Threads + Wait + Copy + Send + Sync + 'static, D: WaitDriver + Send + 'static>(
    rt: T,
    work: Work<D>,
) -> Result<PromisedHandle<Work<D>, Interval<D>>, Work<D>>
    ensures ok { IfOk result (λ worker. worker.promise.was.value ≡ work) }
    ensures err { IfErr result (λ back. Carried D.steps work back) }
{
    let Ok(ending) = Arc::try_clone(&work.ends.ending) else {
        return Err(work);
    };
    let interval = Interval {
        was: Snapshot::of(&work),
    };
    match thread::spawn_with(&rt, interval, move || carry_all_there(rt, work)) {
        Ok(worker) => Ok(worker),
        Err(refused) => {
            ending.store(true, Ordering::SeqCst);
            Err((refused.value)())
        }
    }
}
