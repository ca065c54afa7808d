//! Reaching a rail and its driver in either form, for a front that is written once for both. What a call does is told by
//! the rail and the driver.

ghost use Rattle.std.specs.Prelude.{◌≡◌, ◌≢◌, ◌+◌, ◌^◌, ◌<◌, ◌⊎◌, [], ◌∷◌, IfOk, OnOk, OnErr};
ghost use Rattle.std.specs.Thread.{IsSync};
ghost use Rattle.batch_pack.specs.Batch.{empty_batch};
ghost use Rattle.batch_rail.specs.Run.{RunsFrom};
ghost use Rattle.batch_rail.specs.Rail.{Gains, StandsForNoMore};
ghost use Rattle.driver_trait.specs.Reply.{replied};
ghost use Rattle.gl_memory.specs.ClientMemory.{memory_of};

use batch_pack::Batch;
use batch_rail::{Rail, RailState, WaitRail};
use driver_trait::{Driver, Machine, Plainly, Reply, WaitDriver, Waiting};
use gl_memory::ClientMemory;
use gl_words::Call;
use std::alloc::AllocError as NoMemory;
use std::sync::Wait;
use std::thread::Threads;

/// A way to reach a rail and its driver, with what it may wait by; own. [`Plainly`] reaches those whose calls return, and
/// [`Waiting`] those whose calls may wait.
pub trait Reach<W, D: Machine, R: RailState<D>> {
    /// Submits a batch, and gives an empty one of the same size.
    fn submit<T: Threads + Sync>(rail: &mut R, rt: &T, wait: &W, full: Batch) -> Batch
        requires shared { IsSync T.row }
        requires home { R.home rail.old }
        requires size { full.size ≡ R.size rail.old }
        requires room { R.sent rail.old < 2 ^ 62 }
        ensures empty { result ≡ empty_batch full.size }
        ensures stands { (st2 : D) → R.stands rail.new st2
            → RunsFrom (R.stands rail.old) D.steps full.calls st2 }
        ensures failed { R.failed rail.new → R.failed rail.old ⊎ (full.calls ≢ []) }
        ensures home { R.home rail.new }
        ensures size { R.size rail.new ≡ R.size rail.old }
        ensures sent { R.sent rail.new ≡ R.sent rail.old + 1 }
        ensures journal { Gains (R.journal rail.old) (R.journal rail.new) (full.calls ∷ []) };

    /// Carries a call out at once, all submitted batches being carried out before it.
    fn carry_out<T: Threads + Sync>(
        rail: &mut R,
        rt: &T,
        wait: &W,
        call: &Call,
        memory: &ClientMemory,
    ) -> Result<Reply, NoMemory>
        requires shared { IsSync T.row }
        requires home { R.home rail.old }
        ensures replied { IfOk result (λ reply. (st : D) × (st2 : D) × R.stands rail.old st
            × D.steps st call.now (memory_of memory.now) st2 (replied reply)) }
        ensures ok { IfOk result (λ reply. (st2 : D) → R.stands rail.new st2 → (st : D)
            × R.stands rail.old st
            × D.steps st call.now (memory_of memory.now) st2 (replied reply)) }
        ensures sound { OnOk result (¬ R.failed rail.new) }
        ensures failed { R.failed rail.new → R.failed rail.old }
        ensures err { OnErr result (StandsForNoMore (R.stands rail.old) (R.stands rail.new)) }
        ensures home { R.home rail.new }
        ensures size { R.size rail.new ≡ R.size rail.old }
        ensures sent { R.sent rail.new ≡ R.sent rail.old }
        ensures journal { Gains (R.journal rail.old) (R.journal rail.new) [] };

    /// Waits until all submitted batches are carried out. Refused only where one of them failed.
    fn await_all<T: Threads + Sync>(rail: &mut R, rt: &T, wait: &W) -> Result<(), NoMemory>
        requires shared { IsSync T.row }
        requires home { R.home rail.old }
        ensures stands { StandsForNoMore (R.stands rail.old) (R.stands rail.new) }
        ensures sound { OnOk result (¬ R.failed rail.new) }
        ensures err { OnErr result (R.failed rail.old × R.failed rail.new) }
        ensures home { R.home rail.new }
        ensures size { R.size rail.new ≡ R.size rail.old }
        ensures sent { R.sent rail.new ≡ R.sent rail.old }
        ensures journal { Gains (R.journal rail.old) (R.journal rail.new) [] };
}

impl<W, D: Driver, R: Rail<D>> Reach<W, D, R> for Plainly {
    fn submit<T: Threads + Sync>(rail: &mut R, rt: &T, _wait: &W, full: Batch) -> Batch {
        rail.submit(rt, full)
    }

    fn carry_out<T: Threads + Sync>(
        rail: &mut R,
        rt: &T,
        _wait: &W,
        call: &Call,
        memory: &ClientMemory,
    ) -> Result<Reply, NoMemory> {
        let mut driver = rail.take()?;
        let reply = driver.call(rt, call, memory);
        rail.put(driver);
        reply
    }

    fn await_all<T: Threads + Sync>(rail: &mut R, _rt: &T, _wait: &W) -> Result<(), NoMemory> {
        let driver = rail.take()?;
        rail.put(driver);
        Ok(())
    }
}

impl<W: Wait, D: WaitDriver, R: WaitRail<D>> Reach<W, D, R> for Waiting {
    fn submit<T: Threads + Sync>(rail: &mut R, rt: &T, wait: &W, full: Batch) -> Batch {
        rail.submit(rt, wait, full)
    }

    fn carry_out<T: Threads + Sync>(
        rail: &mut R,
        rt: &T,
        wait: &W,
        call: &Call,
        memory: &ClientMemory,
    ) -> Result<Reply, NoMemory> {
        let mut driver = rail.take(rt, wait)?;
        let reply = driver.call(rt, wait, call, memory);
        rail.put(rt, wait, driver);
        reply
    }

    fn await_all<T: Threads + Sync>(rail: &mut R, rt: &T, wait: &W) -> Result<(), NoMemory> {
        let driver = rail.take(rt, wait)?;
        rail.put(rt, wait, driver);
        Ok(())
    }
}
