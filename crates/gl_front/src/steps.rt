//! The steps of a front, over a rail and an open batch: putting a call behind the others, and submitting. No front stands here.

ghost use Rattle.std.specs.Prelude.{◌≡◌, ◌+◌, ◌-◌, ◌^◌, ◌<◌, ◌≤◌, [], ◌∷◌, ◌++◌, length};
ghost use Rattle.client_shadow.specs.declared.class.Class.TheVariants.{Defer};
ghost use Rattle.batch_pack.specs.Spelling.{Spelled, slots_of};
ghost use Rattle.batch_pack.specs.Batch.{captured, slots_left};
ghost use Rattle.client_shadow.specs.Cutting.{batch_unless_empty, joined, cut_before, ended_by, open_by};
ghost use Rattle.batch_pack.specs.Heading.{IsHeadingOf};
ghost use Rattle.batch_rail.specs.Run.{RunsFrom};
ghost use Rattle.batch_rail.specs.Rail.{Gains};
ghost use Rattle.gl_front.specs.Front.{FailsOnlyBy};
ghost use Rattle.gl_front.specs.FrontState.{open_calls, IsReady};

use crate::reach::Reach;
use batch_pack::{Batch, Heading};
use batch_rail::RailState;
use client_shadow::sends_batch;
use driver_trait::Machine;
use gl_memory::{ClientMemory, Pieces};
use gl_words::Call;
use std::thread::Threads;

/// Submits the open batch unless it is empty, and leaves an empty one there. Tells how many were
/// submitted: 0 or 1. Own.
pub fn submit_open<H: Reach<W, D, R>, W, T: Threads + Sync, D: Machine, R: RailState<D>>(
    rt: &T,
    wait: &W,
    rail: &mut R,
    open_batch: &mut Option<Batch>,
) -> u64
    requires ready { IsReady (R.home rail.old) (R.size rail.old) open_batch.old }
    requires room { R.sent rail.old < 2 ^ 62 }
    ensures empty { open_calls open_batch.new ≡ [] }
    ensures count { result ≡ length (batch_unless_empty (open_calls open_batch.old)) }
    ensures few { result ≤ 1 }
    ensures stands { (st2 : D) → R.stands rail.new st2
        → RunsFrom (R.stands rail.old) D.steps (open_calls open_batch.old) st2 }
    ensures kept { batch_unless_empty (open_calls open_batch.old) ≡ [] → rail.new ≡ rail.old }
    ensures failed { FailsOnlyBy (R.failed rail.old) (R.failed rail.new)
        (batch_unless_empty (open_calls open_batch.old)) }
    ensures ready { IsReady (R.home rail.new) (R.size rail.new) open_batch.new }
    ensures rail_size { R.size rail.new ≡ R.size rail.old }
    ensures sent { R.sent rail.new ≡ R.sent rail.old + result }
    ensures journal { Gains (R.journal rail.old) (R.journal rail.new)
        (batch_unless_empty (open_calls open_batch.old)) }
{
    let Some(batch) = open_batch else {
        unreachable!()
    };
    if batch.used() == 0 {
        return 0;
    }
    let Some(batch) = open_batch.take() else {
        unreachable!()
    };
    *open_batch = Some(H::submit(rail, rt, wait, batch));
    1
}

/// Makes room in the open batch for a call of so many slots: submits it where the call doesn't fit,
/// and else touches nothing. Tells how many were submitted: 0 or 1.
fn make_room<H: Reach<W, D, R>, W, T: Threads + Sync, D: Machine, R: RailState<D>>(
    rt: &T,
    wait: &W,
    rail: &mut R,
    open_batch: &mut Option<Batch>,
    slots: u64,
) -> u64
    requires fits { slots ≤ R.size rail.old }
    requires ready { IsReady (R.home rail.old) (R.size rail.old) open_batch.old }
    requires room { R.sent rail.old < 2 ^ 62 }
    ensures fits { slots
        ≤ slots_left (record { size = R.size rail.new; calls = open_calls open_batch.new }) }
    ensures kept { (call : Spelled) → slots ≡ slots_of call
        → cut_before (R.size rail.old) (open_calls open_batch.old) call ≡ []
        → rail.new ≡ rail.old }
    ensures failed { (call : Spelled) → slots ≡ slots_of call
        → FailsOnlyBy (R.failed rail.old) (R.failed rail.new)
        (cut_before (R.size rail.old) (open_calls open_batch.old) call) }
    ensures calls { (call : Spelled) → slots ≡ slots_of call
        → open_calls open_batch.new ≡ joined (R.size rail.old) (open_calls open_batch.old) call }
    ensures count { (call : Spelled) → slots ≡ slots_of call
        → result ≡ length (cut_before (R.size rail.old) (open_calls open_batch.old) call) }
    ensures few { result ≤ 1 }
    ensures stands { (st2 : D)
        → RunsFrom (R.stands rail.new) D.steps (open_calls open_batch.new) st2
        → RunsFrom (R.stands rail.old) D.steps (open_calls open_batch.old) st2 }
    ensures ready { IsReady (R.home rail.new) (R.size rail.new) open_batch.new }
    ensures rail_size { R.size rail.new ≡ R.size rail.old }
    ensures sent { R.sent rail.new ≡ R.sent rail.old + result }
    ensures journal { (call : Spelled) → slots ≡ slots_of call
        → Gains (R.journal rail.old) (R.journal rail.new)
        (cut_before (R.size rail.old) (open_calls open_batch.old) call) }
{
    let Some(batch) = open_batch else {
        unreachable!()
    };
    if slots <= u64::from(batch.left()) {
        return 0;
    }
    submit_open::<H, W, T, D, R>(rt, wait, rail, open_batch)
}

/// Puts a deferred call behind those of the open batch, with the batches that end at it submitted. Where the call fits and
/// doesn't send the batch, none ends, and the rail isn't touched. Tells how many were submitted: 0 to 2. Own.
pub fn put_off<H: Reach<W, D, R>, W, T: Threads + Sync, D: Machine, R: RailState<D>>(
    rt: &T,
    wait: &W,
    rail: &mut R,
    open_batch: &mut Option<Batch>,
    call: &Call,
    pieces: &Pieces,
    memory: &ClientMemory,
    heading: Heading,
) -> u64
    requires heading { IsHeadingOf heading (captured call.now pieces.now memory.now) }
    requires fits { heading.slots ≤ R.size rail.old }
    requires ready { IsReady (R.home rail.old) (R.size rail.old) open_batch.old }
    requires room { R.sent rail.old < 2 ^ 62 - 1 }
    ensures kept { ended_by Defer (R.size rail.old) (open_calls open_batch.old)
        (captured call.now pieces.now memory.now) ≡ [] → rail.new ≡ rail.old }
    ensures failed { FailsOnlyBy (R.failed rail.old) (R.failed rail.new)
        (ended_by Defer (R.size rail.old) (open_calls open_batch.old)
        (captured call.now pieces.now memory.now)) }
    ensures calls { open_calls open_batch.new
        ≡ open_by Defer (R.size rail.old) (open_calls open_batch.old)
        (captured call.now pieces.now memory.now) }
    ensures count { result ≡ length (ended_by Defer (R.size rail.old) (open_calls open_batch.old)
        (captured call.now pieces.now memory.now)) }
    ensures few { result ≤ 2 }
    ensures stands { (st2 : D)
        → RunsFrom (R.stands rail.new) D.steps (open_calls open_batch.new) st2
        → RunsFrom (R.stands rail.old) D.steps
        (open_calls open_batch.old ++ captured call.now pieces.now memory.now ∷ []) st2 }
    ensures ready { IsReady (R.home rail.new) (R.size rail.new) open_batch.new }
    ensures rail_size { R.size rail.new ≡ R.size rail.old }
    ensures sent { R.sent rail.new ≡ R.sent rail.old + result }
    ensures journal { Gains (R.journal rail.old) (R.journal rail.new)
        (ended_by Defer (R.size rail.old) (open_calls open_batch.old)
        (captured call.now pieces.now memory.now)) }
{
    let before = make_room::<H, W, T, D, R>(rt, wait, rail, open_batch, heading.slots);
    let Some(batch) = open_batch else {
        unreachable!()
    };
    batch.pack(call, pieces, memory, heading);
    if sends_batch(call) {
        return before + submit_open::<H, W, T, D, R>(rt, wait, rail, open_batch);
    }
    before
}
