//! A front that may wait, beside one whose calls return, over a rail without threads.

ghost use Rattle.std.specs.Prelude.{◌≡◌, ◌≤◌, [], length, IfOk};
ghost use Rattle.driver_trait.specs.Recorder.{RecorderView};
ghost use Rattle.gl_tracked.specs.Tracked.{first_tracked};
ghost use Rattle.batch_rail.specs.Maker.{IsLaunched};
ghost use Rattle.gl_front.specs.Front.{AllHaveRoom, CanRise, no_counts};
ghost use Rattle.gl_front.specs.Taking.{KeepsCount};

use super::doubles::Limited;
use super::{CLEAR, COLOUR, DEPTH, FRUSTUM, MODE, Played, play};
use batch_rail::{InlineMaker, WaitMaker, WaitPart, WaitRail};
use client_shadow::Class;
use driver_trait::Recorder;
use gl_front::WaitFront;
use gl_memory::ClientMemory;
use gl_words::Call;
use std::alloc::{AllocError, AllocError as NoMemory, Global};
use std::sync::Wait;
use std::test::Fail;
use std::thread::Threads;

/// A rail of batches of 16 slots, by whichever part, over a recorder with so much room.
fn waiting_rail<T: Threads + Sync, W: Wait, P: WaitPart<Limited>>(
    rt: &T,
    wait: &W,
    alloc: Global,
    part: &mut P,
    room: usize,
) -> Result<P::Made, NoMemory>
    ensures launched { IfOk result (λ rail. IsLaunched (λ (st : RecorderView). st.tracked)
        (P.Made.stands rail) (P.Made.failed rail) (P.Made.home rail) (P.Made.size rail)
        first_tracked) }
    ensures sent { IfOk result (λ rail. P.Made.sent rail ≡ 0) }
{
    let driver = Limited {
        recorder: Recorder::new(alloc),
        room,
        asked: 0,
        seen: [0; 16],
    };
    let Ok(rail) = part.launch(rt, wait, alloc, driver, 16, 4) else {
        return Err(AllocError);
    };
    Ok(rail)
}

/// A front over a rail that may wait, with 16 bytes of client memory.
fn waiting_front<R: WaitRail<Limited>>(
    alloc: Global,
    rail: R,
) -> Result<WaitFront<Limited, R>, NoMemory>
    requires launched { IsLaunched (λ (st : RecorderView). st.tracked)
        (R.stands rail) (R.failed rail) (R.home rail) (R.size rail) first_tracked }
    ensures { IfOk result (λ front. (front.calls ≡ []) × (front.counts ≡ no_counts)
        × (R.sent front.rail ≡ R.sent rail)) }
{
    let memory = ClientMemory::new(alloc, 16)?;
    let Ok(front) = WaitFront::new(alloc, rail, memory) else {
        return Err(AllocError);
    };
    Ok(front)
}

/// Issues calls to a new front. Gives how many were answered.
fn wait_issue_each<T: Threads + Sync, W: Wait, R: WaitRail<Limited>>(
    rt: &T,
    wait: &W,
    front: &mut WaitFront<Limited, R>,
    calls: &[Call],
) -> usize
    requires few { length calls.now ≤ 100 }
    requires new { front.old.counts ≡ no_counts }
    requires none_sent { R.sent front.old.rail ≡ 0 }
    ensures counts { AllHaveRoom front.new.counts }
    ensures sent { CanRise (R.sent front.new.rail) }
{
    let mut answered = 0;
    for call in calls {
        if front.issue(rt, wait, call).is_ok() {
            answered += 1;
        }
    }
    answered
}

/// Puts a call off, if its class is Defer. Gives whether it is.
fn wait_put_off<T: Threads + Sync, W: Wait, R: WaitRail<Limited>>(
    rt: &T,
    wait: &W,
    front: &mut WaitFront<Limited, R>,
    call: &Call,
) -> bool
    requires counts { AllHaveRoom front.old.counts }
    requires sent { CanRise (R.sent front.old.rail) }
    ensures rises { KeepsCount R.sent front.old front.new }
{
    match front.class(call) {
        Class::Defer => {
            front.defer(rt, wait, call);
            true
        }
        Class::Answer | Class::Sync => false,
    }
}

/// Issues calls, finishes, and takes the recorder back, by a part of a maker.
fn wait_play<T: Threads + Sync, W: Wait, M: WaitMaker<Limited>>(
    rt: &T,
    wait: &W,
    alloc: Global,
    maker: &mut M,
    room: usize,
    calls: &[Call],
) -> Result<Played, NoMemory> {
    let few = &calls[..calls.len().min(100)];
    let mut part = maker.split(0);
    let rail = waiting_rail(rt, wait, alloc, &mut part, room)?;
    let mut front = waiting_front(alloc, rail)?;
    let answered = wait_issue_each(rt, wait, &mut front, few);
    let finished = front.finish(rt, wait).is_ok();
    let counts = front.counts();
    let (rail, _memory) = front.into_parts();
    let sent = rail.sent();
    let closed = part.close(rt, wait, rail).ok();
    maker.join(0, part);
    Ok(Played {
        answered,
        counts,
        sent,
        finished,
        closed,
    })
}

/// Puts a call off at a new front, if its class is Defer, and flushes. Gives whether it is, and how many batches were
/// submitted.
fn flushed<T: Threads + Sync, W: Wait, M: WaitMaker<Limited>>(
    rt: &T,
    wait: &W,
    alloc: Global,
    maker: &mut M,
    call: &Call,
) -> Result<(bool, u64), NoMemory> {
    let mut part = maker.split(1);
    let rail = waiting_rail(rt, wait, alloc, &mut part, 100)?;
    let mut front = waiting_front(alloc, rail)?;
    let deferred = wait_put_off(rt, wait, &mut front, call);
    front.flush(rt, wait);
    Ok((deferred, front.counts().batches))
}

// The last three have room for as many calls as the row says: the driver is refused memory in a batch, or at a call
// that waits.
#[test]
fn a_front_that_may_wait_does_what_one_whose_calls_return_does(
    rt: HostRuntime,
) -> Result<(), Fail> {
    let mixed = [
        CLEAR,
        MODE,
        Call::GetError,
        COLOUR,
        COLOUR,
        COLOUR,
        COLOUR,
        DEPTH,
        Call::Finish,
    ];
    let rows: [(&[Call], usize); 8] = [
        (&[], 100),
        (&[Call::Finish, Call::GetError], 100),
        (&[Call::Flush, CLEAR, Call::Flush], 100),
        (&[FRUSTUM, FRUSTUM, Call::PushMatrix, CLEAR], 100),
        (&mixed, 100),
        (&mixed, 0),
        (&mixed, 1),
        (&mixed, 4),
    ];
    for (calls, room) in rows {
        let mut maker = InlineMaker::new();
        let plain = play(&rt, rt.alloc(), &mut maker, room, calls)?;
        let waited = wait_play(&rt, &rt, rt.alloc(), &mut maker, room, calls)?;
        assert_eq!(rt; waited.answered, plain.answered);
        assert_eq!(rt; waited.counts, plain.counts);
        assert_eq!(rt; waited.sent, plain.sent);
        assert_eq!(rt; waited.finished, plain.finished);
        match (&waited.closed, &plain.closed) {
            (Some(waiting), Some(returning)) => {
                assert_eq!(rt; waiting.recorder.calls(), returning.recorder.calls());
                assert_eq!(rt; waiting.asked, returning.asked);
            }
            (None, None) => assert!(rt; room < 100),
            _ => panic!(rt; "one rail failed, and the other didn't"),
        }
    }
    Ok(())
}

#[test]
fn calls_are_put_off_and_flushed_by_a_front_that_may_wait(rt: HostRuntime) -> Result<(), Fail> {
    let mut maker = InlineMaker::new();
    let rows = [
        (CLEAR, true, 1),
        (Call::Flush, true, 1),
        (MODE, false, 0),
        (Call::Finish, false, 0),
    ];
    for (call, deferred, batches) in rows {
        let given = flushed(&rt, &rt, rt.alloc(), &mut maker, &call)?;
        assert_eq!(rt; given, (deferred, batches));
    }
    Ok(())
}
