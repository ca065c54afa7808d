//! A crew that is a function which starts a worker.

ghost use Rattle.std.specs.Prelude.{◌≡◌, Ok, Err, IfOk, IfErr};
ghost use Rattle.epoch_rail.specs.Work.{Carried};
ghost use Rattle.epoch_rail.specs.declared.work.Work.{Work};

use crate::crew::{Begun, Crew};
use crate::work::Work;
use driver_trait::Machine;
use std::marker::PhantomData;
use std::snapshot::Snapshot;

/// Starts workers by a function that is given a handle, as by `|rt, work| start(rt, work)`; own.
#[derive(Drop)]
pub struct Starts<T, F, H> {
    pub(crate) rt: T,
    pub(crate) run: F,
    pub(crate) of: PhantomData<Snapshot<H>>,
}

impl<T, F, H> Starts<T, F, H> {
    /// A crew that starts workers by this function, which is given this handle each time. Own.
    pub fn by<D>(rt: T, run: F) -> Starts<T, F, H>
    where
        F: Fn(T, Work<D>) -> Result<H, Work<D>>,
        ensures { (result.rt ≡ rt) × (result.run ≡ run) }
    {
        Starts {
            rt,
            run,
            of: PhantomData,
        }
    }
}

impl<T: Copy, D: Machine, H: Begun<D>, F: Fn(T, Work<D>) -> Result<H, Work<D>> + Copy> Crew<D>
    for Starts<T, F, H> {
    type Worker = H;

    ghost ready = { λ crew. F.IsAlwaysCallable crew.run
        × ((work : Work D) (worker : H) → F.post crew.run crew.rt work (Ok worker) → H.was worker ≡ work)
        × ((work back : Work D) → F.post crew.run crew.rt work (Err back) → Carried D.steps work back) };

    fn begin(&self, work: Work<D>) -> Result<H, Work<D>>
        requires ready { F.IsAlwaysCallable self.now.run
            × ((work : Work D) (worker : H) → F.post self.now.run self.now.rt work (Ok worker) → H.was worker ≡ work)
            × ((work back : Work D) → F.post self.now.run self.now.rt work (Err back) → Carried D.steps work back) }
        ensures ok { IfOk result (λ worker. H.was worker ≡ work) }
        ensures err { IfErr result (λ back. Carried D.steps work back) }
    {
        (self.run)(self.rt, work)
    }

    fn another(&self) -> Starts<T, F, H> {
        Starts {
            rt: self.rt,
            run: self.run,
            of: PhantomData,
        }
    }
}
