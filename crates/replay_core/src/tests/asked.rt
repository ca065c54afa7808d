//! How often a driver is asked, by one that counts its calls. No clause says it: an answer that was asked for twice is the
//! same answer.

ghost use Rattle.std.specs.Prelude.{◌≡◌, IfOk, OnErr};
ghost use Rattle.std.specs.List.{All};
ghost use Rattle.std.specs.Thread.{IsSync};
ghost use Rattle.driver_trait.specs.Reply.{replied};
ghost use Rattle.gl_tracked.specs.Tracked.{first_tracked};
ghost use Rattle.soft_driver.specs.Renderer.{soft_tracked, SoftSteps};
ghost use Rattle.soft_driver.specs.Soft.{soft_is_driver};
ghost use Rattle.script_reader.specs.Limits.{IsLine};

use crate::plain::{Plain, Shows, new_soft};
use crate::rail::run_over;
use batch_rail::{InlineMaker, RailMaker};
use driver_trait::{Driver, Machine, Plainly, Reply};
use gl_memory::{ClientMemory, Memory};
use gl_tracked::Tracked;
use gl_words::Call;
use script_reader::{Act, Line};
use soft_driver::Soft;
use std::alloc::{AllocError as NoMemory, Global};
use std::marker::Model;
use std::test::Fail;
use std::thread::Threads;

/// The renderer, and how often it was asked; contracts see the renderer alone.
#[derive(Drop)]
struct Counting {
    soft: Soft,
    asked: u64,
}

impl Model for Counting {
    ghost use Rattle.soft_driver.specs.Renderer.{SoftView};

    ghost Value = { SoftView };

    ghost view = { λ c. c.soft };
}

impl Counting {
    /// A new renderer of context 2, of one pixel.
    #[tactic(auto, unfolding(soft_driver::specs::Own::first_own, gl_state::specs::Private::first_private))]
    fn new(alloc: Global) -> Result<Counting, NoMemory>
        ensures { IfOk result (λ counting. soft_tracked counting ≡ first_tracked) }
    {
        let soft = new_soft(alloc, 2, 1, 1)?;
        Ok(Counting { soft, asked: 0 })
    }

    fn asked(&self) -> u64 {
        self.asked
    }
}

impl Machine for Counting {
    ghost tracked = { soft_tracked };

    ghost steps = { SoftSteps };

    ghost laws = { soft_is_driver };
}

impl Driver for Counting {
    fn call<T: Threads + Sync, M: Memory>(
        &mut self,
        rt: &T,
        call: &Call,
        memory: &M,
    ) -> Result<Reply, NoMemory> {
        self.asked = self.asked.wrapping_add(1);
        self.soft.call(rt, call, memory)
    }
}

impl Shows for Counting {
    fn shown(&self) -> &Tracked {
        self.soft.tracked()
    }
}

/// A line of context 2 that makes a call.
fn line(number: u32, call: Call) -> Line
    ensures { IsLine result }
{
    Line {
        number,
        context: 2,
        act: Act::Gl(call),
    }
}

/// Two calls that are put off, two gets of tracked state, and two calls that wait.
fn lines() -> [Line; 6]
    ensures { All IsLine result }
{
    let mode = Call::GetIntegerv {
        pname: 0x0BA0,
        params: 0,
    };
    [
        line(3, Call::MatrixMode { mode: 0x1701 }),
        line(4, mode),
        line(5, Call::GetError),
        line(6, Call::LoadIdentity),
        line(7, mode),
        line(8, Call::Finish),
    ]
}

#[test]
fn the_plain_program_asks_once_a_call(rt: HostRuntime) -> Result<(), Fail> {
    let memory = ClientMemory::new(rt.alloc(), 4)?;
    let mut plain = Plain::new(rt.alloc(), Counting::new(rt.alloc())?, memory);
    plain.carry_out(&rt, rt.alloc(), 2, lines().as_slice())?;
    let (driver, _results) = plain.into_parts();
    assert_eq!(rt; driver.asked(), 6);
    Ok(())
}

/// How often the driver is asked in a run over a rail, with batches of 16 slots, or none where the rail failed.
fn asked_over<T: Threads + Sync, M: RailMaker<Counting>>(
    rt: &T,
    alloc: Global,
    maker: &mut M,
) -> Result<Option<u64>, NoMemory> {
    let memory = ClientMemory::new(alloc, 4)?;
    let Ok(rail) = maker.launch(alloc, 2, Counting::new(alloc)?, 16, 1) else {
        return Ok(None);
    };
    let (ran, rail) = run_over::<Plainly, (), T, Counting, M::Made>(
        rt,
        &(),
        alloc,
        rail,
        memory,
        2,
        lines().as_slice(),
    );
    let driver = maker.close(2, rail)?;
    if ran.is_err() {
        return Ok(None);
    }
    Ok(Some(driver.asked()))
}

#[test]
fn a_run_over_a_rail_asks_once_a_call_and_no_get_of_tracked_state(
    rt: HostRuntime,
) -> Result<(), Fail> {
    let mut maker = InlineMaker::new();
    assert_eq!(rt; asked_over(&rt, rt.alloc(), &mut maker)?, Some(4));
    Ok(())
}
