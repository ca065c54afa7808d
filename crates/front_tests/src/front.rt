//! Each public call over a driver that keeps the calls that it met, and answers gets of tracked state alone. Where a
//! batch is cut follows from the lengths of the spellings: a slot, and one more for each argument.

ghost use Rattle.std.specs.Prelude.{◌≡◌, ◌≤◌, [], length, IfOk};
ghost use Rattle.gl_tracked.specs.Tracked.{first_tracked};
ghost use Rattle.driver_trait.specs.Recorder.{RecorderView};
ghost use Rattle.batch_rail.specs.Maker.{IsLaunched};
ghost use Rattle.gl_front.specs.Front.{AllHaveRoom, CanRise, no_counts};
ghost use Rattle.gl_front.specs.Taking.{KeepsCount};

mod both;
mod captures;
mod doubles;
mod gets;
mod waits;

use batch_rail::{InlineMaker, Rail, RailMaker};
use client_shadow::Class;
use doubles::{Counting, Limited};
use driver_trait::{Recorder, Reply};
use gl_front::*;
use gl_memory::ClientMemory;
use gl_words::Call;
use std::alloc::{AllocError, AllocError as NoMemory, Global};
use std::test::Fail;
use std::thread::Threads;

/// What became of calls that were issued.
#[derive(Drop)]
struct Played {
    answered: usize,
    counts: Counts,
    sent: u64,
    finished: bool,
    closed: Option<Limited>,
}

/// A rail of batches of 16 slots, by whichever maker, over a recorder with so much room.
fn rail_of_sixteen<M: RailMaker<Limited>>(
    alloc: Global,
    maker: &mut M,
    room: usize,
) -> Result<M::Made, NoMemory>
    ensures launched { IfOk result (λ rail. IsLaunched (λ (st : RecorderView). st.tracked)
        (M.Made.stands rail) (M.Made.failed rail) (M.Made.home rail) (M.Made.size rail)
        first_tracked) }
    ensures sent { IfOk result (λ rail. M.Made.sent rail ≡ 0) }
{
    let driver = Limited {
        recorder: Recorder::new(alloc),
        room,
        asked: 0,
        seen: [0; 16],
    };
    let Ok(rail) = maker.launch(alloc, 0, driver, 16, 4) else {
        return Err(AllocError);
    };
    Ok(rail)
}

/// A front over such a rail. It has 16 bytes of client memory.
fn front_of_sixteen<M: RailMaker<Limited>>(
    alloc: Global,
    maker: &mut M,
    room: usize,
) -> Result<Front<Limited, M::Made>, NoMemory>
    ensures { IfOk result (λ front.
        (front.calls ≡ []) × (front.counts ≡ no_counts) × (M.Made.sent front.rail ≡ 0)) }
{
    let rail = rail_of_sixteen(alloc, maker, room)?;
    front_over(alloc, rail)
}

/// A front over such a rail, which counts.
fn counting_front<M: RailMaker<Limited>>(
    alloc: Global,
    maker: &mut M,
) -> Result<Front<Limited, Counting<M::Made>>, NoMemory>
    ensures { IfOk result (λ front.
        (front.calls ≡ []) × (front.counts ≡ no_counts) × (M.Made.sent front.rail.inside ≡ 0)) }
{
    let inside = rail_of_sixteen(alloc, maker, 100)?;
    front_over(alloc, Counting { inside, takes: 0 })
}

/// A front over a rail, with 16 bytes of client memory.
fn front_over<R: Rail<Limited>>(alloc: Global, rail: R) -> Result<Front<Limited, R>, NoMemory>
    requires launched { IsLaunched (λ (st : RecorderView). st.tracked)
        (R.stands rail) (R.failed rail) (R.home rail) (R.size rail) first_tracked }
    ensures { IfOk result (λ front. (front.calls ≡ []) × (front.counts ≡ no_counts)
        × (R.sent front.rail ≡ R.sent rail)) }
{
    let memory = ClientMemory::new(alloc, 16)?;
    let Ok(front) = Front::new(alloc, rail, memory) else {
        return Err(AllocError);
    };
    Ok(front)
}

/// Issues calls to a new front. Gives how many were answered.
fn issue_each<T: Threads + Sync, R: Rail<Limited>>(
    rt: &T,
    front: &mut Front<Limited, R>,
    calls: &[Call],
) -> usize
    requires few { length calls.now ≤ 100 }
    requires new { front.old.counts ≡ no_counts }
    requires none_sent { R.sent front.old.rail ≡ 0 }
    ensures counts { AllHaveRoom front.new.counts }
    ensures sent { CanRise (R.sent front.new.rail) }
{
    let mut answered = 0;
    for call in calls {
        if front.issue(rt, call).is_ok() {
            answered += 1;
        }
    }
    answered
}

/// What an issue gave: a refusal, no reply, or a reply of nothing, of a number, or of more.
#[derive(Clone, Copy, Debug, PartialEq, Eq)]
enum Outcome {
    Refused,
    NoReply,
    Nothing,
    Number(i64),
    Several,
}

/// What an issue gave, by what it returned.
fn outcome_of(returned: Result<Option<Reply>, NoMemory>) -> Outcome {
    match returned {
        Err(_) => Outcome::Refused,
        Ok(None) => Outcome::NoReply,
        Ok(Some(Reply::Nothing)) => Outcome::Nothing,
        Ok(Some(Reply::One(number))) => Outcome::Number(number),
        Ok(Some(_)) => Outcome::Several,
    }
}

/// A call, its class just before it is issued, what the issue gives, and how many batches were submitted by then.
type Row = (Call, Class, Outcome, u64);

/// Issues calls to a new front, up to the first whose class, outcome or batches are others. Gives how many came before it.
fn issue_alike<T: Threads + Sync, R: Rail<Limited>>(
    rt: &T,
    front: &mut Front<Limited, R>,
    rows: &[Row],
) -> usize
    requires few { length rows.now ≤ 100 }
    requires new { front.old.counts ≡ no_counts }
    requires none_sent { R.sent front.old.rail ≡ 0 }
    ensures counts { AllHaveRoom front.new.counts }
    ensures sent { CanRise (R.sent front.new.rail) }
{
    let mut alike = 0;
    for (call, class, outcome, batches) in rows {
        let before = front.class(call);
        let given = outcome_of(front.issue(rt, call));
        let counted = front.counts().batches;
        if before != *class || given != *outcome || counted != *batches {
            return alike;
        }
        alike += 1;
    }
    alike
}

/// Puts a call off, if its class is Defer. Gives whether it is.
fn put_off<T: Threads + Sync, R: Rail<Limited>>(
    rt: &T,
    front: &mut Front<Limited, R>,
    call: &Call,
) -> bool
    requires counts { AllHaveRoom front.old.counts }
    requires sent { CanRise (R.sent front.old.rail) }
    ensures rises { KeepsCount R.sent front.old front.new }
{
    match front.class(call) {
        Class::Defer => {
            front.defer(rt, call);
            true
        }
        Class::Answer | Class::Sync => false,
    }
}

/// Issues calls, finishes, and takes the recorder back.
fn play<T: Threads + Sync, M: RailMaker<Limited>>(
    rt: &T,
    alloc: Global,
    maker: &mut M,
    room: usize,
    calls: &[Call],
) -> Result<Played, NoMemory> {
    let few = &calls[..calls.len().min(100)];
    let mut front = front_of_sixteen(alloc, maker, room)?;
    let answered = issue_each(rt, &mut front, few);
    let finished = front.finish(rt).is_ok();
    let counts = front.counts();
    let (rail, _memory) = front.into_parts();
    let sent = rail.sent();
    let closed = maker.close(0, rail).ok();
    Ok(Played {
        answered,
        counts,
        sent,
        finished,
        closed,
    })
}

const CLEAR: Call = Call::Clear { mask: 0x4000 };

const COLOUR: Call = Call::ClearColorx {
    red: 65536,
    green: 0,
    blue: -1,
    alpha: i32::MIN,
};

const FRUSTUM: Call = Call::Frustumx {
    left: -65536,
    right: 65536,
    bottom: -65536,
    top: 65536,
    near: 65536,
    far: 131072,
};

#[test]
fn batches_of_16_slots_are_cut_where_the_next_call_does_not_fit(
    rt: HostRuntime,
) -> Result<(), Fail> {
    let rows: [(&[Call], u64); 13] = [
        (&[], 0),
        (&[Call::Finish, Call::GetError], 0),
        (&[Call::Flush, Call::Flush], 2),
        (&[CLEAR, Call::Finish, CLEAR], 2),
        (&[COLOUR, COLOUR, COLOUR], 1),
        (&[COLOUR, COLOUR, COLOUR, COLOUR], 2),
        (&[COLOUR, COLOUR, COLOUR, CLEAR], 2),
        (&[COLOUR, COLOUR, COLOUR, Call::Flush], 1),
        (&[FRUSTUM, FRUSTUM, Call::PushMatrix, Call::PopMatrix], 1),
        (&[FRUSTUM, FRUSTUM, Call::PushMatrix, CLEAR], 2),
        (
            &[COLOUR, COLOUR, COLOUR, CLEAR, Call::Flush, Call::Flush],
            3,
        ),
        (
            &[
                CLEAR,
                CLEAR,
                CLEAR,
                CLEAR,
                CLEAR,
                CLEAR,
                CLEAR,
                CLEAR,
                Call::GetError,
            ],
            1,
        ),
        (
            &[
                CLEAR,
                CLEAR,
                CLEAR,
                CLEAR,
                CLEAR,
                CLEAR,
                CLEAR,
                CLEAR,
                Call::Flush,
            ],
            2,
        ),
    ];
    for (calls, batches) in rows {
        let mut maker = InlineMaker::new();
        let played = play(&rt, rt.alloc(), &mut maker, 100, calls)?;
        assert_eq!(rt; played.answered, calls.len());
        assert_eq!(rt; played.counts.batches, batches);
        assert_eq!(rt; played.sent, batches);
        assert!(rt; played.finished);
        let closed = played.closed.expect(&rt, "the rail failed");
        assert_eq!(rt; closed.recorder.calls(), calls);
    }
    Ok(())
}

#[test]
fn a_driver_that_is_refused_memory_at_its_nth_call_is_answered_no_further(
    rt: HostRuntime,
) -> Result<(), Fail> {
    let calls = [CLEAR, Call::GetError, CLEAR, Call::GetError, Call::Finish];
    // refused in a batch, then at a call that waits, and so on; where all have room, at none
    let rows = [
        (0, 1, false),
        (1, 1, true),
        (2, 3, false),
        (3, 3, true),
        (4, 4, true),
        (5, 5, true),
    ];
    for (room, answered, finished) in rows {
        let mut maker = InlineMaker::new();
        let played = play(&rt, rt.alloc(), &mut maker, room, &calls)?;
        assert_eq!(rt; played.answered, answered);
        assert_eq!(rt; played.finished, finished);
        assert_eq!(rt; played.closed.is_some(), finished);
    }
    Ok(())
}

const MODE: Call = Call::GetIntegerv {
    pname: 0x0BA0,
    params: 4,
};

const DEPTH: Call = Call::GetIntegerv {
    pname: 0x0BA3,
    params: 8,
};

#[test]
fn calls_that_were_put_off_reach_the_driver_before_one_that_waits(
    rt: HostRuntime,
) -> Result<(), Fail> {
    let mut maker = InlineMaker::new();
    let mut front = front_of_sixteen(rt.alloc(), &mut maker, 100)?;
    assert!(rt; put_off(&rt, &mut front, &CLEAR));
    assert!(rt; put_off(&rt, &mut front, &Call::Flush));
    assert!(rt; put_off(&rt, &mut front, &COLOUR));
    front.flush(&rt);
    assert!(rt; put_off(&rt, &mut front, &CLEAR));
    let reply = front.issue(&rt, &Call::GetError);
    let counts = front.counts();
    let finished = front.finish(&rt);
    let (rail, _memory) = front.into_parts();
    let closed = maker.close(0, rail).ok();
    assert!(rt; matches!(reply, Ok(Some(Reply::Nothing))));
    assert!(rt; finished.is_ok());
    assert_eq!(rt;
        counts,
        Counts {
            deferred: 4,
            synchronised: 1,
            answered: 0,
            batches: 3,
        }
    );
    let driver = closed.expect(&rt, "the rail failed");
    assert_eq!(rt;
        driver.recorder.calls(),
        [CLEAR, Call::Flush, COLOUR, CLEAR, Call::GetError].as_slice()
    );
    Ok(())
}

/// Issues calls to a front over a rail that counts, and flushes. Gives how many were answered, how many batches were
/// submitted, and how often the driver was taken.
fn takes<T: Threads + Sync>(
    rt: &T,
    alloc: Global,
    calls: &[Call],
) -> Result<(usize, u64, u64), NoMemory> {
    let few = &calls[..calls.len().min(100)];
    let mut maker = InlineMaker::new();
    let mut front = counting_front(alloc, &mut maker)?;
    let answered = issue_each(rt, &mut front, few);
    front.flush(rt);
    let (rail, _memory) = front.into_parts();
    Ok((answered, rail.sent(), rail.takes))
}

// A colour has 5 slots, so that every fourth begins a batch of 16.
#[test]
fn the_driver_is_taken_once_for_each_call_that_waits_and_for_no_other(
    rt: HostRuntime,
) -> Result<(), Fail> {
    let rows: [(&[Call], u64, u64); 8] = [
        (&[], 0, 0),
        (
            &[
                COLOUR, COLOUR, COLOUR, COLOUR, COLOUR, COLOUR, COLOUR, COLOUR, COLOUR, COLOUR,
            ],
            4,
            0,
        ),
        (&[MODE, DEPTH, MODE], 0, 0),
        (
            &[
                COLOUR, MODE, COLOUR, COLOUR, DEPTH, COLOUR, MODE, COLOUR, COLOUR, COLOUR, DEPTH,
            ],
            3,
            0,
        ),
        (
            &[MODE, CLEAR, Call::Flush, MODE, Call::Flush, CLEAR, DEPTH],
            3,
            0,
        ),
        (&[Call::GetError], 0, 1),
        (
            &[
                COLOUR,
                COLOUR,
                COLOUR,
                COLOUR,
                MODE,
                Call::GetError,
                MODE,
                COLOUR,
            ],
            3,
            1,
        ),
        (
            &[CLEAR, Call::Finish, DEPTH, Call::GetError, Call::Flush],
            2,
            2,
        ),
    ];
    for (calls, batches, taken) in rows {
        let given = takes(&rt, rt.alloc(), calls)?;
        assert_eq!(rt; given, (calls.len(), batches, taken));
    }
    Ok(())
}

// Client memory has 16 bytes: the last of those written falls outside.
#[test]
fn client_memory_keeps_what_was_written_into_it(rt: HostRuntime) -> Result<(), Fail> {
    let mut maker = InlineMaker::new();
    let mut front = front_of_sixteen(rt.alloc(), &mut maker, 100)?;
    assert_eq!(rt; front.slots(), 16);
    front.write_memory(14, &[7, 8, 9]);
    let written = [0, 0, 0, 0, 0, 0, 0, 0, 0, 0, 0, 0, 0, 0, 7, 8];
    assert_eq!(rt; front.memory().bytes(), written.as_slice());
    assert!(rt; front.finish(&rt).is_ok());
    let (_rail, memory) = front.into_parts();
    assert_eq!(rt; memory.bytes(), written.as_slice());
    Ok(())
}
