//! A rail that a part lends for one batch.

ghost use Rattle.std.specs.Prelude.{◌≡◌, [], ◌∷◌, IfOk};
ghost use Rattle.driver_trait.specs.Recorder.{RecorderSteps};
ghost use Rattle.batch_rail.specs.Run.{Run};

use crate::doubles::{Gate, Limited};
use batch_pack::Batch;
use batch_rail::{RailLender, RailUser, WaitMaker, WaitRail};
use epoch_rail::{Crew, EpochMaker, Interval, Starts, Work, start};
use gl_memory::{ClientMemory, Pieces};
use gl_words::Call;
use std::alloc::{AllocError, AllocError as NoMemory, Global};
use std::sync::{Arc, Wait};
use std::thread::{PromisedHandle, Threads};

/// Submits one batch, and then gives how many were sent, or gives up.
#[derive(Drop)]
struct Submitting {
    batch: Batch,
    gives_up: bool,
}

impl RailUser<Limited> for Submitting {
    type Out = u64;

    ghost ready = { λ user slots driver. user.batch.size ≡ slots };

    ghost leads = { λ user slots sent before batches after. (sent ≡ 1)
        × (batches ≡ user.batch.calls ∷ []) × Run RecorderSteps before user.batch.calls after };

    fn use_rail<T: Threads + Sync, W: Wait, R: WaitRail<Limited>>(
        self,
        rt: &T,
        wait: &W,
        _alloc: Global,
        rail: R,
        _slots: u32,
    ) -> (R, Result<u64, NoMemory>) {
        let mut rail = rail;
        let _empty = rail.submit(rt, wait, self.batch);
        let sent = rail.sent();
        if self.gives_up {
            return (rail, Err(AllocError));
        }
        (rail, Ok(sent))
    }
}

/// A user that submits a batch of one call.
fn user(alloc: Global, gives_up: bool) -> Result<Submitting, NoMemory>
    ensures { IfOk result (λ user. user.batch.size ≡ 16) }
{
    let memory = ClientMemory::new(alloc, 0)?;
    let mut batch = Batch::new(alloc, 16)?;
    if batch
        .try_pack(&Call::Clear { mask: 1 }, &Pieces::new(), &memory)
        .is_err()
    {
        return Err(AllocError);
    }
    Ok(Submitting { batch, gives_up })
}

/// Has a batch submitted over a rail that is lent by a part of this maker.
fn lent_by<T: Threads + Wait + Sync, M: WaitMaker<Limited>>(
    rt: &T,
    alloc: Global,
    maker: &mut M,
    gives_up: bool,
    room: usize,
    gate: &Arc<Gate, Global>,
) -> Result<(Limited, u64), NoMemory> {
    let user = user(alloc, gives_up)?;
    let driver = Limited::new(alloc, room, gate)?;
    let mut part = maker.split(1);
    let lent = part.with_rail(rt, rt, alloc, driver, 16, 2, user);
    maker.join(1, part);
    lent
}

/// The same with workers that this crew starts.
fn lent_by_crew<T: Threads + Wait + Sync, C>(
    rt: &T,
    alloc: Global,
    crew: C,
    gives_up: bool,
    room: usize,
    gate: &Arc<Gate, Global>,
) -> Result<(Limited, u64), NoMemory>
where
    C: Crew<Limited, Worker = PromisedHandle<Work<Limited>, Interval<Limited>>> + Send,
    requires ready { C.ready crew }
{
    let mut maker = EpochMaker::new(crew);
    lent_by(rt, alloc, &mut maker, gives_up, room, gate)
}

/// The same with workers that have a thread each.
pub(super) fn lent_by_workers<T: Threads + Wait + Copy + Send + Sync + 'static>(
    rt: T,
    alloc: Global,
    gives_up: bool,
    room: usize,
    gate: &Arc<Gate, Global>,
) -> Result<(Limited, u64), NoMemory> {
    let crew = Starts::by(rt, |rt, work: Work<Limited>| start(rt, work));
    lent_by_crew(&rt, alloc, crew, gives_up, room, gate)
}
