//! Seven batches over a rail, in two intervals.

ghost use Rattle.std.specs.Prelude.{◌≡◌, ◌+◌, ◌^◌, ◌<◌, ◌≤◌, IfOk, IfErr};
ghost use Rattle.driver_trait.specs.Recorder.{RecorderSteps};
ghost use Rattle.batch_rail.specs.Maker.{IsRingLength};
ghost use Rattle.epoch_rail.specs.Work.{Carried};

use crate::doubles::{Gate, Limited};
use batch_pack::Batch;
use batch_rail::{WaitMaker, WaitPart, WaitRail};
use epoch_rail::{Crew, EpochMaker, Interval, Starts, Work, start};
use gl_memory::{ClientMemory, Pieces};
use gl_words::Call;
use std::alloc::{AllocError, AllocError as NoMemory, Global};
use std::sync::{Arc, Wait};
use std::thread::{PromisedHandle, Threads};

/// Over which rail batches go, and to which driver.
#[derive(Clone, Copy)]
pub(super) struct Plan {
    /// How many batches the ring has.
    pub(super) ring: u32,
    /// For how many calls the driver has memory.
    pub(super) room: usize,
    /// Whether the gate is shut until `submit` has returned.
    pub(super) gated: bool,
}

/// What came of some batches: whether the last came back empty, how many were sent, whether the driver was refused where it was
/// taken, and the driver, unless the rail was closed without it.
#[derive(Drop)]
pub(super) struct Outcome {
    pub(super) empty: bool,
    pub(super) sent: u64,
    pub(super) refused: bool,
    pub(super) driver: Option<Limited>,
}

/// Submits a batch of one call.
fn send<T: Threads + Sync, W: Wait, R: WaitRail<Limited>>(
    rt: &T,
    wait: &W,
    rail: &mut R,
    memory: &ClientMemory,
    batch: Batch,
    mask: u32,
) -> Result<Batch, NoMemory>
    requires home { R.home rail.old }
    requires room { R.sent rail.old < 2 ^ 62 }
    requires size { batch.size ≡ R.size rail.old }
    ensures home { R.home rail.new }
    ensures size { IfOk result (λ back. back.size ≡ R.size rail.new) }
    ensures same { R.size rail.new ≡ R.size rail.old }
    ensures sent { R.sent rail.new ≤ R.sent rail.old + 1 }
{
    let mut batch = batch;
    if batch
        .try_pack(&Call::Clear { mask }, &Pieces::new(), memory)
        .is_err()
    {
        return Err(AllocError);
    }
    Ok(rail.submit(rt, wait, batch))
}

/// Takes the driver and puts it back. Gives whether it was refused.
fn took<T: Threads + Sync, W: Wait, R: WaitRail<Limited>>(rt: &T, wait: &W, rail: &mut R) -> bool
    requires home { R.home rail.old }
    ensures home { R.home rail.new }
    ensures same { R.size rail.new ≡ R.size rail.old }
    ensures sent { R.sent rail.new ≡ R.sent rail.old }
{
    match rail.take(rt, wait) {
        Ok(driver) => {
            rail.put(rt, wait, driver);
            false
        }
        Err(_) => true,
    }
}

/// Submits three batches of a call each, takes the driver and puts it back, and submits four more. Where the gate is shut, it
/// opens once so many batches of the first interval were submitted as the ring has, which is three at most, and then once one
/// of the second was.
fn seven_batches<T: Threads + Sync, W: Wait, P: WaitPart<Limited>>(
    rt: &T,
    wait: &W,
    alloc: Global,
    part: &mut P,
    plan: Plan,
    gate: &Arc<Gate, Global>,
) -> Result<Outcome, NoMemory>
    requires ring { IsRingLength plan.ring }
{
    let memory = ClientMemory::new(alloc, 0)?;
    let driver = Limited::new(alloc, plan.room, gate)?;
    let first = Batch::new(alloc, 16)?;
    let Ok(mut rail) = part.launch(rt, wait, alloc, driver, 16, plan.ring) else {
        return Err(AllocError);
    };
    gate.set(!plan.gated);
    let second = send(rt, wait, &mut rail, &memory, first, 1)?;
    gate.set(!plan.gated || plan.ring == 1);
    let third = send(rt, wait, &mut rail, &memory, second, 2)?;
    gate.set(!plan.gated || plan.ring <= 2);
    let fourth = send(rt, wait, &mut rail, &memory, third, 3)?;
    gate.set(true);
    let refused = took(rt, wait, &mut rail);
    gate.set(!plan.gated);
    let fifth = send(rt, wait, &mut rail, &memory, fourth, 4)?;
    gate.set(true);
    let sixth = send(rt, wait, &mut rail, &memory, fifth, 5)?;
    let seventh = send(rt, wait, &mut rail, &memory, sixth, 6)?;
    let last = send(rt, wait, &mut rail, &memory, seventh, 7)?;
    let sent = rail.sent();
    let driver = part.close(rt, wait, rail).ok();
    Ok(Outcome {
        empty: last.used() == 0,
        sent,
        refused,
        driver,
    })
}

/// The same by a part of this maker.
pub(super) fn by_part<T: Threads + Wait + Sync, M: WaitMaker<Limited>>(
    rt: &T,
    alloc: Global,
    maker: &mut M,
    plan: Plan,
    gate: &Arc<Gate, Global>,
) -> Result<Outcome, NoMemory>
    requires ring { IsRingLength plan.ring }
{
    let mut part = maker.split(2);
    let done = seven_batches(rt, rt, alloc, &mut part, plan, gate);
    maker.join(2, part);
    done
}

/// The same with workers that this crew starts.
fn by_crew<T: Threads + Wait + Sync, C>(
    rt: &T,
    alloc: Global,
    crew: C,
    plan: Plan,
    gate: &Arc<Gate, Global>,
) -> Result<Outcome, NoMemory>
where
    C: Crew<Limited, Worker = PromisedHandle<Work<Limited>, Interval<Limited>>> + Send,
    requires ready { C.ready crew }
    requires ring { IsRingLength plan.ring }
{
    let mut maker = EpochMaker::new(crew);
    by_part(rt, alloc, &mut maker, plan, gate)
}

/// The same with workers that have a thread each.
pub(super) fn by_workers<T: Threads + Wait + Copy + Send + Sync + 'static>(
    rt: T,
    alloc: Global,
    plan: Plan,
    gate: &Arc<Gate, Global>,
) -> Result<Outcome, NoMemory>
    requires ring { IsRingLength plan.ring }
{
    let crew = Starts::by(rt, |rt, work: Work<Limited>| start(rt, work));
    by_crew(&rt, alloc, crew, plan, gate)
}

/// Gives the work back.
fn no_thread(
    work: Work<Limited>,
) -> Result<PromisedHandle<Work<Limited>, Interval<Limited>>, Work<Limited>>
    ensures ok { IfOk result (λ worker. worker.promise.was.value ≡ work) }
    ensures err { IfErr result (λ back. Carried RecorderSteps work back) }
{
    Err(work)
}

/// The same where no thread can be started.
pub(super) fn by_no_worker<T: Threads + Wait + Sync>(
    rt: &T,
    alloc: Global,
    plan: Plan,
    gate: &Arc<Gate, Global>,
) -> Result<Outcome, NoMemory>
    requires ring { IsRingLength plan.ring }
{
    let crew = Starts::by((), |_, work: Work<Limited>| no_thread(work));
    by_crew(rt, alloc, crew, plan, gate)
}
