//! Running the lines of a script through a front. No driver is named here: there is none but the one behind the rail.

ghost use Rattle.std.specs.Prelude.{◌≡◌, ℕ, ◌+◌, ◌*◌, ◌^◌, ◌<◌, ◌≤◌, length, OnOk, OnErr, List, [], ◌∷◌, ◌++◌};
ghost use Rattle.std.specs.List.{All};
ghost use Rattle.gl_front.specs.Front.{AllHaveRoom, AllRiseLittle, CanRise};
ghost use Rattle.replay_lines.specs.Limits.{AllLow, AllRiseBy, IsSmall, most_lines};
ghost use Rattle.replay_lines.specs.Lines.{lines_in};
ghost use Rattle.replay_lines.specs.Results.{DoneView};
ghost use Rattle.replay_lines.specs.Running.{RunsOn, StopsOn};

use crate::results::{Done, Results, image_of};
use batch_rail::{Rail, RailState, WaitRail};
use driver_trait::{Driver, Machine, WaitDriver};
use gl_front::{Core, Front, Reach, WaitFront};
use script_reader::{Act, Line};
use std::alloc::{AllocError as NoMemory, Global};
use std::sync::Wait;
use std::thread::Threads;

/// Runs the lines of a context in order, and adds what they tell. Lines of other contexts are passed over. There are at
/// most 262,144 lines. NoMemory stops at a line, which tells nothing, and leaves what the lines before it told; own.
pub fn run_lines<T: Threads + Sync, D: Driver, R: Rail<D>>(
    rt: &T,
    alloc: Global,
    front: &mut Front<D, R>,
    context: u32,
    lines: &[Line],
    results: &mut Results,
) -> Result<(), NoMemory>
    requires few { length lines.now ≤ most_lines }
    requires images { All IsSmall lines.now }
    requires counts { AllLow front.old.counts }
    requires sent { R.sent front.old.rail < 2 ^ 61 }
    ensures ok { OnOk result
        (RunsOn D.tracked D.steps R.stands R.journal
        (lines_in context lines.now) front.old front.new results.old results.new) }
    ensures stopped { OnErr result
        (StopsOn D.tracked D.steps R.stands R.failed R.journal R.sent
        (lines_in context lines.now) front.old front.new results.old results.new) }
    ensures kept { (more : List DoneView) × (results.new ≡ results.old ++ more) }
    ensures rises { AllRiseBy front.old.counts front.new.counts (2 * length lines.now) }
    ensures sent { R.sent front.new.rail + front.old.counts.batches
        ≡ R.sent front.old.rail + front.new.counts.batches }
    ensures size { front.new.size ≡ front.old.size }
{
    run_in_order(rt, &(), alloc, front, context, lines, results)
}

/// Runs the lines of a context as [`run_lines`] does, through a front that may wait, with the same clauses: at most 262,144
/// lines, and NoMemory stops at one; own.
pub fn wait_run_lines<T: Threads + Sync, W: Wait, D: WaitDriver, R: WaitRail<D>>(
    rt: &T,
    wait: &W,
    alloc: Global,
    front: &mut WaitFront<D, R>,
    context: u32,
    lines: &[Line],
    results: &mut Results,
) -> Result<(), NoMemory>
    requires few { length lines.now ≤ most_lines }
    requires images { All IsSmall lines.now }
    requires counts { AllLow front.old.counts }
    requires sent { R.sent front.old.rail < 2 ^ 61 }
    ensures ok { OnOk result
        (RunsOn D.tracked D.steps R.stands R.journal
        (lines_in context lines.now) front.old front.new results.old results.new) }
    ensures stopped { OnErr result
        (StopsOn D.tracked D.steps R.stands R.failed R.journal R.sent
        (lines_in context lines.now) front.old front.new results.old results.new) }
    ensures kept { (more : List DoneView) × (results.new ≡ results.old ++ more) }
    ensures rises { AllRiseBy front.old.counts front.new.counts (2 * length lines.now) }
    ensures sent { R.sent front.new.rail + front.old.counts.batches
        ≡ R.sent front.old.rail + front.new.counts.batches }
    ensures size { front.new.size ≡ front.old.size }
{
    run_in_order(rt, wait, alloc, front, context, lines, results)
}

/// Runs the lines of a context, through a front that reaches its rail as `H` does.
fn run_in_order<H: Reach<W, D, R>, W, T: Threads + Sync, D: Machine, R: RailState<D>>(
    rt: &T,
    wait: &W,
    alloc: Global,
    front: &mut Core<D, R, H>,
    context: u32,
    lines: &[Line],
    results: &mut Results,
) -> Result<(), NoMemory>
    requires few { length lines.now ≤ most_lines }
    requires images { All IsSmall lines.now }
    requires counts { AllLow front.old.counts }
    requires sent { R.sent front.old.rail < 2 ^ 61 }
    ensures ok { OnOk result
        (RunsOn D.tracked D.steps R.stands R.journal
        (lines_in context lines.now) front.old front.new results.old results.new) }
    ensures stopped { OnErr result
        (StopsOn D.tracked D.steps R.stands R.failed R.journal R.sent
        (lines_in context lines.now) front.old front.new results.old results.new) }
    ensures kept { (more : List DoneView) × (results.new ≡ results.old ++ more) }
    ensures rises { AllRiseBy front.old.counts front.new.counts (2 * length lines.now) }
    ensures sent { R.sent front.new.rail + front.old.counts.batches
        ≡ R.sent front.old.rail + front.new.counts.batches }
    ensures size { front.new.size ≡ front.old.size }
{
    for line in lines {
        if line.context == context {
            run_line(rt, wait, alloc, front, line, results)?;
        }
    }
    Ok(())
}

/// Runs a line, and adds what it tells.
fn run_line<H: Reach<W, D, R>, W, T: Threads + Sync, D: Machine, R: RailState<D>>(
    rt: &T,
    wait: &W,
    alloc: Global,
    front: &mut Core<D, R, H>,
    line: &Line,
    results: &mut Results,
) -> Result<(), NoMemory>
    requires image { IsSmall line.now }
    requires counts { AllHaveRoom front.old.counts }
    requires sent { CanRise (R.sent front.old.rail) }
    ensures ok { OnOk result
        (RunsOn D.tracked D.steps R.stands R.journal (line.now ∷ [])
        front.old front.new results.old results.new) }
    ensures stopped { OnErr result
        (StopsOn D.tracked D.steps R.stands R.failed R.journal R.sent (line.now ∷ [])
        front.old front.new results.old results.new) }
    ensures kept { (more : List DoneView) × (results.new ≡ results.old ++ more) }
    ensures rises { AllRiseLittle front.old.counts front.new.counts }
    ensures sent { R.sent front.new.rail + front.old.counts.batches
        ≡ R.sent front.old.rail + front.new.counts.batches }
    ensures size { front.new.size ≡ front.old.size }
{
    match &line.act {
        Act::Mem { at, bytes } => {
            front.write_memory(u64::from(*at), bytes.as_slice());
            Ok(())
        }
        Act::Image {
            name,
            width,
            height,
            at,
        } => {
            let what = image_of(alloc, front.memory(), name, *width, *height, *at)?;
            results.push(Done {
                number: line.number,
                context: line.context,
                what,
            })
        }
        Act::Gl(call) => {
            front.knows_tracked();
            match front.issue_by(rt, wait, call)? {
                Some(reply) => results.answer(line.number, line.context, call, reply),
                None => Ok(()),
            }
        }
    }
}
