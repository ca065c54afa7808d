//! Running lines through a front, and having rails made, in either form, for runs that are written once for both. What a
//! call does is told by the front, the rail and the maker.

ghost use Rattle.std.specs.Prelude.{◌≡◌, ℕ, ◌+◌, ◌*◌, ◌^◌, ◌<◌, ◌≤◌, length, IfOk, IfErr, OnOk, OnErr, List, [], ◌++◌, Option};
ghost use Rattle.std.specs.List.{All};
ghost use Rattle.std.specs.Thread.{IsSync};
ghost use Rattle.batch_pack.specs.Batch.{IsBatchSize};
ghost use Rattle.batch_pack.specs.Spelling.{Spelled};
ghost use Rattle.batch_rail.specs.Maker.{IsLaunched, IsRingLength, IsUnused, KeepsOthers};
ghost use Rattle.batch_rail.specs.Rail.{Gains};
ghost use Rattle.gl_front.specs.Front.{CanRise, new_front};
ghost use Rattle.gl_front.specs.Taking.{Flushes};
ghost use Rattle.gl_tracked.specs.Tracked.{first_tracked};
ghost use Rattle.replay_lines.specs.Limits.{AllLow, AllRiseBy, IsSmall, most_lines};
ghost use Rattle.replay_lines.specs.Lines.{lines_in};
ghost use Rattle.replay_lines.specs.Running.{RunsOn, StopsOn};

use batch_rail::{Rail, RailMaker, RailState, WaitMaker, WaitPart, WaitRail};
use driver_trait::{Driver, Machine, Plainly, WaitDriver, Waiting};
use gl_front::{Core, Front, WaitFront};
use gl_memory::ClientMemory;
use replay_lines::{Results, run_lines, wait_run_lines};
use script_reader::Line;
use std::alloc::{AllocError as NoMemory, Global};
use std::sync::Wait;
use std::thread::Threads;

/// A way to run lines through a front over a rail, with what it may wait by; own. [`Plainly`] has fronts whose calls return,
/// and [`Waiting`] fronts whose calls may wait.
pub(crate) trait RunsLines<W, D: Machine, R: RailState<D>>: Sized {
    /// A front over a rail as it is launched and over client memory. Want of memory gives both back.
    fn front(
        alloc: Global,
        rail: R,
        memory: ClientMemory,
    ) -> Result<Core<D, R, Self>, (R, ClientMemory, NoMemory)>
        requires launched { IsLaunched D.tracked (R.stands rail) (R.failed rail) (R.home rail)
            (R.size rail) first_tracked }
        ensures ok { IfOk result (λ front. front ≡ new_front rail (R.size rail) memory) }
        ensures err { IfErr result (λ refusal. (refusal.0 ≡ rail) × (refusal.1 ≡ memory)) };

    /// Runs the lines of a context in order, and adds what they tell.
    fn run<T: Threads + Sync>(
        front: &mut Core<D, R, Self>,
        rt: &T,
        wait: &W,
        alloc: Global,
        context: u32,
        lines: &[Line],
        results: &mut Results,
    ) -> Result<(), NoMemory>
        requires shared { IsSync T.row }
        requires few { length lines.now ≤ most_lines }
        requires images { All IsSmall lines.now }
        requires counts { AllLow front.old.counts }
        requires sent { R.sent front.old.rail < 2 ^ 61 }
        ensures ok { OnOk result
            (RunsOn D.tracked D.steps R.stands R.journal
            (lines_in context lines.now) front.old front.new results.old results.new) }
        ensures stopped { OnErr result
            (StopsOn D.tracked D.steps R.stands R.failed R.journal R.sent
            (lines_in context lines.now) front.old front.new results.old results.new) }
        ensures rises { AllRiseBy front.old.counts front.new.counts (2 * length lines.now) }
        ensures sent { R.sent front.new.rail + front.old.counts.batches
            ≡ R.sent front.old.rail + front.new.counts.batches };

    /// Submits the open batch, unless it is empty.
    fn flush<T: Threads + Sync>(front: &mut Core<D, R, Self>, rt: &T, wait: &W)
        requires shared { IsSync T.row }
        requires batches { CanRise front.old.counts.batches }
        requires sent { CanRise (R.sent front.old.rail) }
        ensures flushed { Flushes R.stands R.failed R.journal R.sent D.steps
            front.old front.new };
}

impl<W, D: Driver, R: Rail<D>> RunsLines<W, D, R> for Plainly {
    fn front(
        alloc: Global,
        rail: R,
        memory: ClientMemory,
    ) -> Result<Front<D, R>, (R, ClientMemory, NoMemory)> {
        Front::new(alloc, rail, memory)
    }

    fn run<T: Threads + Sync>(
        front: &mut Front<D, R>,
        rt: &T,
        _wait: &W,
        alloc: Global,
        context: u32,
        lines: &[Line],
        results: &mut Results,
    ) -> Result<(), NoMemory> {
        run_lines(rt, alloc, front, context, lines, results)
    }

    fn flush<T: Threads + Sync>(front: &mut Front<D, R>, rt: &T, _wait: &W) {
        front.flush(rt);
    }
}

impl<W: Wait, D: WaitDriver, R: WaitRail<D>> RunsLines<W, D, R> for Waiting {
    fn front(
        alloc: Global,
        rail: R,
        memory: ClientMemory,
    ) -> Result<WaitFront<D, R>, (R, ClientMemory, NoMemory)> {
        WaitFront::new(alloc, rail, memory)
    }

    fn run<T: Threads + Sync>(
        front: &mut WaitFront<D, R>,
        rt: &T,
        wait: &W,
        alloc: Global,
        context: u32,
        lines: &[Line],
        results: &mut Results,
    ) -> Result<(), NoMemory> {
        wait_run_lines(rt, wait, alloc, front, context, lines, results)
    }

    fn flush<T: Threads + Sync>(front: &mut WaitFront<D, R>, rt: &T, wait: &W) {
        front.flush(rt, wait);
    }
}

/// A way to have a maker's rails, with what it may wait by; own. [`Plainly`] has a maker launch and close them, and
/// [`Waiting`] a part that is split from its maker for as long as a rail is out.
pub(crate) trait Launches<W, D: Machine, R: RailState<D>, M> {
    /// What is kept until the rail is closed.
    type Part: Drop;

    /// The batches of each context, where the maker tells them.
    ghost journal: { M → ℕ → Option (List (List Spelled)) };

    /// A rail that stands for this driver, and what is kept beside it. Want of memory gives the driver back.
    fn launch<T: Threads + Sync>(
        maker: &mut M,
        rt: &T,
        wait: &W,
        alloc: Global,
        context: u32,
        driver: D,
        slots: u32,
        ring: u32,
    ) -> Result<(Self::Part, R), (D, NoMemory)>
        requires shared { IsSync T.row }
        requires context { context < 4 }
        requires slots { IsBatchSize slots }
        requires ring { IsRingLength ring }
        ensures ok { IfOk result (λ lent. IsLaunched D.tracked (R.stands lent.1)
            (R.failed lent.1) (R.home lent.1) (R.size lent.1) (D.tracked driver)) }
        ensures unused { IfOk result (λ lent. IsUnused (R.stands lent.1)
            (R.size lent.1) (R.sent lent.1) driver slots) }
        ensures told { IfOk result
            (λ lent. Gains (journal maker.old context) (R.journal lent.1) []) }
        ensures err { IfErr result (λ refusal. refusal.0 ≡ driver) }
        ensures refused_told { OnErr result
            (Gains (journal maker.old context) (journal maker.new context) []) }
        ensures others { KeepsOthers (journal maker.old) (journal maker.new) context };

    /// Closes a rail, and gives its driver. Refused only where the rail failed.
    fn close<T: Threads + Sync>(
        maker: &mut M,
        rt: &T,
        wait: &W,
        context: u32,
        part: Self::Part,
        rail: R,
    ) -> Result<D, NoMemory>
        requires shared { IsSync T.row }
        requires context { context < 4 }
        requires home { R.home rail }
        ensures ok { IfOk result (λ driver. R.stands rail driver) }
        ensures err { OnErr result (R.failed rail) }
        ensures told { Gains (R.journal rail) (journal maker.new context) [] }
        ensures others { KeepsOthers (journal maker.old) (journal maker.new) context };
}

impl<W, D: Driver, M: RailMaker<D>> Launches<W, D, M::Made, M> for Plainly {
    type Part = ();

    ghost journal = { M.journal };

    fn launch<T: Threads + Sync>(
        maker: &mut M,
        _rt: &T,
        _wait: &W,
        alloc: Global,
        context: u32,
        driver: D,
        slots: u32,
        ring: u32,
    ) -> Result<((), M::Made), (D, NoMemory)> {
        match maker.launch(alloc, context, driver, slots, ring) {
            Ok(rail) => Ok(((), rail)),
            Err(refusal) => Err(refusal),
        }
    }

    fn close<T: Threads + Sync>(
        maker: &mut M,
        _rt: &T,
        _wait: &W,
        context: u32,
        _part: (),
        rail: M::Made,
    ) -> Result<D, NoMemory> {
        maker.close(context, rail)
    }
}

impl<W: Wait, D: WaitDriver, M: WaitMaker<D>> Launches<W, D, <M::Part as WaitPart<D>>::Made, M>
    for Waiting {
    type Part = M::Part;

    ghost journal = { M.journal };

    fn launch<T: Threads + Sync>(
        maker: &mut M,
        rt: &T,
        wait: &W,
        alloc: Global,
        context: u32,
        driver: D,
        slots: u32,
        ring: u32,
    ) -> Result<(M::Part, <M::Part as WaitPart<D>>::Made), (D, NoMemory)> {
        let mut part = maker.split(context);
        match part.launch(rt, wait, alloc, driver, slots, ring) {
            Ok(rail) => Ok((part, rail)),
            Err(refusal) => {
                maker.join(context, part);
                Err(refusal)
            }
        }
    }

    fn close<T: Threads + Sync>(
        maker: &mut M,
        rt: &T,
        wait: &W,
        context: u32,
        part: M::Part,
        rail: <M::Part as WaitPart<D>>::Made,
    ) -> Result<D, NoMemory> {
        let mut part = part;
        let closed = part.close(rt, wait, rail);
        maker.join(context, part);
        closed
    }
}
