//! Lines through the layer, over any driver and any maker of rails. No driver is named here.

ghost use Rattle.std.specs.Prelude.{◌≡◌, ◌≤◌, length, IfOk};
ghost use Rattle.std.specs.List.{All};
ghost use Rattle.gl_tracked.specs.Tracked.{first_tracked};
ghost use Rattle.script_reader.specs.Limits.{IsLine};
ghost use Rattle.replay_lines.specs.Lines.{lines_in};
ghost use Rattle.example_driver.specs.Alone.{TellsAlone};

use batch_rail::RailMaker;
use driver_trait::Driver;
use gl_front::Front;
use gl_memory::ClientMemory;
use replay_lines::{Results, run_lines};
use script_reader::Line;
use std::alloc::{AllocError, AllocError as NoMemory, Global};
use std::thread::Threads;

/// Runs the lines of context 0 through the layer over a driver of a new context. Gives what they told and the driver:
/// just what the driver alone tells of these lines, and where they lead it. NoMemory lets all go; own.
pub fn told_through<T: Threads + Sync, D: Driver, M: RailMaker<D>>(
    rt: &T,
    alloc: Global,
    maker: &mut M,
    driver: D,
    memory: ClientMemory,
    lines: &[Line],
) -> Result<(Results, D), NoMemory>
    requires new { D.tracked driver ≡ first_tracked }
    requires few { length lines.now ≤ 262144 }
    requires lines { All IsLine lines.now }
    ensures { IfOk result (λ ran. TellsAlone D.tracked D.steps
        (record { tracked = first_tracked; memory = memory })
        (lines_in 0 lines.now) driver ran.1 ran.0) }
{
    // Batches of 64 slots. A rail without threads has no use for the length of a ring.
    let Ok(rail) = maker.launch(alloc, 0, driver, 64, 1) else {
        return Err(AllocError);
    };
    let Ok(mut front) = Front::new(alloc, rail, memory) else {
        return Err(AllocError);
    };
    let mut results = Results::new(alloc);
    run_lines(rt, alloc, &mut front, 0, lines, &mut results)?;
    front.flush(rt);
    let (rail, _memory) = front.into_parts();
    let driver = maker.close(0, rail)?;
    Ok((results, driver))
}
