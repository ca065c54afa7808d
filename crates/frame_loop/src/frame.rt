//! The calls of a frame, and frames one after another with the program's own work between them.

ghost use Rattle.std.specs.Prelude.{◌≡◌, ◌≤◌, ◌^◌, ◌-◌, [], IfOk, OnOk};
ghost use Rattle.frame_loop.specs.Counts.{IsLow, RisesBy};
ghost use Rattle.frame_loop.specs.Frame.{colour_of, after, drawn, is_asked, drawn_and_asked, after_frames, LeadsBy};
ghost use Rattle.frame_loop.specs.Work.{sum_of};

use crate::asked::Asked;
use crate::work::worked;
use batch_rail::WaitRail;
use gl_front::WaitFront;
use gl_words::Call;
use soft_driver::Soft;
use std::alloc::AllocError as NoMemory;
use std::sync::Wait;
use std::thread::Threads;

/// The call that sets the colour of a frame of this number: red rises from frame to frame.
fn colour_of(number: u32) -> Call
    ensures { result ≡ colour_of number }
{
    Call::ClearColorx {
        red: (number % 65537) as i32,
        green: 65536,
        blue: 32768,
        alpha: 65536,
    }
}

/// Issues a call, of which nothing is written into client memory.
fn make<T: Threads + Sync, W: Wait, R: WaitRail<Soft>>(
    rt: &T,
    wait: &W,
    front: &mut WaitFront<Soft, R>,
    call: &Call,
) -> Result<(), NoMemory>
    requires memory { front.old.memory ≡ [] }
    requires low { IsLow R.sent (2 ^ 62 - 2) front.old }
    ensures made { OnOk result (LeadsBy R.stands (λ soft. after soft call.now) front.old front.new) }
    ensures memory { OnOk result (front.new.memory ≡ []) }
    ensures rises { RisesBy R.sent 2 front.old front.new }
{
    let _reply = front.issue(rt, wait, call)?;
    Ok(())
}

/// Draws a frame of this number.
fn draw<T: Threads + Sync, W: Wait, R: WaitRail<Soft>>(
    rt: &T,
    wait: &W,
    front: &mut WaitFront<Soft, R>,
    number: u32,
) -> Result<(), NoMemory>
    requires memory { front.old.memory ≡ [] }
    requires low { IsLow R.sent (2 ^ 61) front.old }
    ensures drawn { OnOk result (LeadsBy R.stands (drawn number) front.old front.new) }
    ensures memory { OnOk result (front.new.memory ≡ []) }
    ensures rises { RisesBy R.sent 6 front.old front.new }
{
    make(rt, wait, front, &colour_of(number))?;
    make(rt, wait, front, &Call::Clear { mask: 0x4000 })?;
    make(rt, wait, front, &Call::Flush)
}

/// Whether the program asks for an error after a frame of this number.
#[tactic(auto, unfolding(crate::specs::Frame::is_asked))]
fn is_asked(asks: u32, number: u32) -> bool
    ensures { result ≡ is_asked asks number }
{
    asks != 0 && number % asks == 0
}

/// Draws a frame of this number, and asks for an error where it is to.
fn draw_and_ask<T: Threads + Sync, W: Wait, R: WaitRail<Soft>>(
    rt: &T,
    wait: &W,
    front: &mut WaitFront<Soft, R>,
    number: u32,
    asks: u32,
) -> Result<(), NoMemory>
    requires memory { front.old.memory ≡ [] }
    requires low { IsLow R.sent (2 ^ 61) front.old }
    ensures drawn { OnOk result (LeadsBy R.stands (drawn_and_asked asks number) front.old front.new) }
    ensures memory { OnOk result (front.new.memory ≡ []) }
    ensures rises { RisesBy R.sent 8 front.old front.new }
{
    draw(rt, wait, front, number)?;
    if is_asked(asks, number) {
        make(rt, wait, front, &Call::GetError)?;
    }
    Ok(())
}

/// Draws all frames, with the program's own work before each. Gives what it worked out.
pub(crate) fn draw_all<T: Threads + Sync, W: Wait, R: WaitRail<Soft>>(
    rt: &T,
    wait: &W,
    front: &mut WaitFront<Soft, R>,
    asked: Asked,
) -> Result<u64, NoMemory>
    requires few { asked.frames ≤ 1000000 }
    requires memory { front.old.memory ≡ [] }
    requires new { IsLow R.sent 0 front.old }
    ensures drawn { OnOk result
        (LeadsBy R.stands (after_frames asked.asks asked.frames) front.old front.new) }
    ensures sum { IfOk result (λ sum. sum ≡ sum_of asked.work asked.frames) }
    ensures low { IsLow R.sent 8000000 front.new }
{
    let mut number = 0;
    for frame in 0..asked.frames {
        number = worked(number, asked.work);
        draw_and_ask(rt, wait, front, frame, asked.asks)?;
    }
    Ok(number)
}
