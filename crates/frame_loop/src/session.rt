//! A front without a script: the frames are drawn over a rail of any maker, and the renderer comes back.

ghost use Rattle.std.specs.Prelude.{◌≡◌, ◌≤◌, [], IfOk, OnOk};
ghost use Rattle.batch_rail.specs.Maker.{IsLaunched};
ghost use Rattle.gl_tracked.specs.Tracked.{first_tracked};
ghost use Rattle.gl_objects.specs.Step.{no_objects};
ghost use Rattle.soft_driver.specs.Renderer.{first_soft, soft_tracked, SoftView};
ghost use Rattle.frame_loop.specs.Frame.{after_frames};
ghost use Rattle.frame_loop.specs.Shown.{shown_by};
ghost use Rattle.frame_loop.specs.Work.{sum_of};

use crate::asked::Asked;
use crate::checksum::checksum_of;
use crate::frame::draw_all;
use batch_rail::{RailLender, WaitMaker, WaitPart, WaitRail};
use gl_front::WaitFront;
use gl_memory::ClientMemory;
use gl_objects::Objects;
use soft_driver::Soft;
use std::alloc::{AllocError as NoMemory, Global};
use std::sync::Wait;
use std::thread::Threads;

/// What is printed; own.
#[derive(Clone, Copy, Debug, PartialEq, Eq)]
pub struct Shown {
    /// What the program's own work came to.
    pub sum: u64,
    /// The checksum of the last frame.
    pub checksum: u64,
}

/// The renderer at the start of context 0, of 256 by 256 pixels, beside no objects.
fn new_soft(alloc: Global) -> Result<Soft, NoMemory>
    ensures { IfOk result (λ soft. soft ≡ first_soft 0 256 256 no_objects) }
{
    match Soft::new(alloc, 0, 256, 256, Objects::new(alloc)) {
        Ok(soft) => Ok(soft),
        Err((_objects, refused)) => Err(refused),
    }
}

/// Draws the frames over a rail that was just launched, and gives it back, with no batch open, on every way out.
fn drawn_over<T: Threads + Sync, W: Wait, R: WaitRail<Soft>>(
    rt: &T,
    wait: &W,
    alloc: Global,
    rail: R,
    memory: ClientMemory,
    asked: Asked,
) -> (Result<u64, NoMemory>, R)
    requires launched { IsLaunched soft_tracked (R.stands rail) (R.failed rail) (R.home rail)
        (R.size rail) first_tracked }
    requires none_sent { R.sent rail ≡ 0 }
    requires memory { memory ≡ [] }
    requires few { asked.frames ≤ 1000000 }
    ensures home { R.home result.1 }
    ensures drawn { OnOk result.0 ((st2 : SoftView) → R.stands result.1 st2 → (st : SoftView)
        × R.stands rail st × (st2 ≡ after_frames asked.asks asked.frames st)) }
    ensures sum { IfOk result.0 (λ sum. sum ≡ sum_of asked.work asked.frames) }
{
    let mut front = match WaitFront::new(alloc, rail, memory) {
        Ok(front) => front,
        Err((rail, _memory, refusal)) => return (Err(refusal), rail),
    };
    let drawn = draw_all(rt, wait, &mut front, asked);
    front.flush(rt, wait);
    let (rail, _memory) = front.into_parts();
    (drawn, rail)
}

/// Draws the frames over a rail of this maker, in batches of 1,024 slots of which 8 are on their way at once. Own.
pub fn shown_over<T: Threads + Sync, W: Wait, M: WaitMaker<Soft>>(
    rt: &T,
    wait: &W,
    alloc: Global,
    maker: &mut M,
    asked: Asked,
) -> Result<Shown, NoMemory>
    requires few { asked.frames ≤ 1000000 }
    ensures { IfOk result (λ shown. shown ≡ shown_by asked) }
{
    let memory = ClientMemory::new(alloc, 0)?;
    let driver = new_soft(alloc)?;
    let mut part = maker.split(0);
    let rail = match part.launch(rt, wait, alloc, driver, 1024, 8) {
        Ok(rail) => rail,
        Err((_driver, refusal)) => return Err(refusal),
    };
    let (drawn, rail) = drawn_over(rt, wait, alloc, rail, memory, asked);
    let closed = part.close(rt, wait, rail);
    maker.join(0, part);
    let sum = drawn?;
    let soft = closed?;
    let (frame, _objects) = soft.into_parts();
    Ok(Shown {
        sum,
        checksum: checksum_of(frame.cells()),
    })
}
