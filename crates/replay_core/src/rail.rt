//! Running a script's context over a rail: a front is made for its lines, and the driver comes back.

ghost use Rattle.std.specs.Prelude.{◌≡◌, ◌≤◌, ◌<◌, length, IfOk, OnOk, OnErr};
ghost use Rattle.std.specs.List.{All};
ghost use Rattle.batch_pack.specs.Batch.{IsBatchSize};
ghost use Rattle.batch_rail.specs.Maker.{IsLaunched, IsRingLength};
ghost use Rattle.gl_tracked.specs.Tracked.{first_tracked};
ghost use Rattle.client_shadow.specs.Cutting.{tally_of};
ghost use Rattle.script_reader.specs.Limits.{IsLine};
ghost use Rattle.replay_lines.specs.Limits.{most_lines};
ghost use Rattle.replay_lines.specs.Lines.{lines_in};
ghost use Rattle.replay_core.specs.Calls.{calls_of};
ghost use Rattle.replay_core.specs.Direct.{end_of, soft_reached};
ghost use Rattle.replay_core.specs.Journals.{batches_of, HandsOver, HandsOverSome};
ghost use Rattle.replay_core.specs.Rail.{GainsSome, RunsOver};
ghost use Rattle.replay_core.specs.Report.{counted};
ghost use Rattle.replay_core.specs.Script.{IsOneContext, seen_script};

use crate::plain::{new_soft, only_context};
use crate::ways::{Launches, RunsLines};
use batch_rail::RailState;
use driver_trait::Machine;
use gl_front::Counts;
use gl_memory::ClientMemory;
use replay_lines::Results;
use script_reader::{Line, Script};
use soft_driver::Soft;
use std::alloc::{AllocError as NoMemory, Global};
use std::thread::Threads;

/// What a run over a rail leaves: what was told, in order, the counts, and the context at the end; own.
#[derive(Drop)]
pub struct RailRun {
    pub results: Results,
    pub counts: Counts,
    pub soft: Soft,
}

/// Runs a script's context, of this number, over a rail of this maker, in batches of so many slots. The rail is had as `H`
/// has it, and is closed on every way out; own.
pub(crate) fn run_script<
    H: RunsLines<W, Soft, R> + Launches<W, Soft, R, M>,
    W,
    T: Threads + Sync,
    R: RailState<Soft>,
    M,
>(
    rt: &T,
    wait: &W,
    alloc: Global,
    rails: &mut M,
    batch: u32,
    ring: u32,
    context: u32,
    script: &Script,
) -> Result<RailRun, NoMemory>
    requires batch { IsBatchSize batch }
    requires ring { IsRingLength ring }
    requires context { context < 4 }
    requires contexts { IsOneContext script.now.contexts }
    requires few { length script.now.lines ≤ most_lines }
    requires lines { All IsLine script.now.lines }
    ensures told { IfOk result
        (λ done. done.results ≡ (end_of context (seen_script script.now)).told) }
    ensures soft { IfOk result
        (λ done. done.soft ≡ soft_reached (end_of context (seen_script script.now))) }
    ensures counts { IfOk result (λ done. counted done.counts
        ≡ tally_of batch (calls_of batch context (seen_script script.now))) }
    ensures journal { OnOk result
        (HandsOver context (batches_of batch context (seen_script script.now))
        (H.journal rails.old) (H.journal rails.new)) }
    ensures stopped { OnErr result
        (HandsOverSome context (H.journal rails.old) (H.journal rails.new)) }
{
    let sides = only_context(script);
    let memory = ClientMemory::new(alloc, sides.memory)?;
    let driver = new_soft(alloc, context, sides.width, sides.height)?;
    let (part, rail) = match H::launch(rails, rt, wait, alloc, context, driver, batch, ring) {
        Ok(lent) => lent,
        Err((_driver, refusal)) => return Err(refusal),
    };
    let (ran, rail) = run_over::<H, W, T, Soft, R>(
        rt,
        wait,
        alloc,
        rail,
        memory,
        context,
        script.lines.as_slice(),
    );
    let closed = H::close(rails, rt, wait, context, part, rail);
    let LinesRun { results, counts } = ran?;
    let soft = closed?;
    Ok(RailRun {
        results,
        counts,
        soft,
    })
}

/// What a run of lines leaves: what was told, in order, and the counts.
#[derive(Drop)]
pub(crate) struct LinesRun {
    results: Results,
    counts: Counts,
}

/// Runs the lines of a context over a rail, through a front that is made for them. The rail is given back on every way
/// out, with no batch open.
pub(crate) fn run_over<H: RunsLines<W, D, R>, W, T: Threads + Sync, D: Machine, R: RailState<D>>(
    rt: &T,
    wait: &W,
    alloc: Global,
    rail: R,
    memory: ClientMemory,
    context: u32,
    lines: &[Line],
) -> (Result<LinesRun, NoMemory>, R)
    requires launched { IsLaunched D.tracked (R.stands rail) (R.failed rail) (R.home rail)
        (R.size rail) first_tracked }
    requires none_sent { R.sent rail ≡ 0 }
    requires few { length lines.now ≤ most_lines }
    requires lines { All IsLine lines.now }
    ensures home { R.home result.1 }
    ensures ok { IfOk result.0 (λ ran. RunsOver D.tracked D.steps R.stands R.journal
        (record { size = R.size rail; memory = memory; launched = rail; back = result.1 })
        (lines_in context lines.now) ran.results ran.counts) }
    ensures stopped { OnErr result.0 (GainsSome (R.journal rail) (R.journal result.1)) }
{
    let mut front = match H::front(alloc, rail, memory) {
        Ok(front) => front,
        Err((rail, _memory, refusal)) => return (Err(refusal), rail),
    };
    let mut results = Results::new(alloc);
    let ran = H::run(&mut front, rt, wait, alloc, context, lines, &mut results);
    H::flush(&mut front, rt, wait);
    let counts = front.counts();
    let (rail, _memory) = front.into_parts();
    match ran {
        Ok(()) => (Ok(LinesRun { results, counts }), rail),
        Err(refusal) => (Err(refusal), rail),
    }
}
