//! Carrying out a batch.

ghost use Rattle.std.specs.Prelude.{◌≡◌, ◌≢◌, [], IsErr, OnErr, OnOk};
ghost use Rattle.batch_rail.specs.Run.{Run, StopsInside};

use batch_pack::Batch;
use driver_trait::{Calls, Machine};
use std::alloc::AllocError as NoMemory;
use std::thread::Threads;

/// Carries out the calls of a batch in order, up to the first that is refused memory. The driver is called as `H` calls
/// it, without waiting or with leave to wait. Own.
pub fn run_batch<H: Calls<W, D>, W, T: Threads + Sync, D: Machine>(
    rt: &T,
    wait: &W,
    driver: &mut D,
    batch: &Batch,
) -> Result<(), NoMemory>
    ensures ok { OnOk result (Run D.steps driver.old batch.now.calls driver.new) }
    ensures err { OnErr result (StopsInside D.steps driver.old batch.now.calls driver.new) }
    ensures some { IsErr result → batch.now.calls ≢ [] }
{
    let mut reader = batch.reader();
    while let Some(packed) = reader.next() {
        let _reply = H::call(driver, rt, wait, &packed.call, &packed.memory)?;
    }
    Ok(())
}
