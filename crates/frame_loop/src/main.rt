//! frame_loop: draws frames through the layer as an emulator would, with work of its own between the calls. Which rail takes
//! the calls to the renderer is asked for, and what is printed is the same over each.
#![tactic(auto)]

mod asked;
mod checksum;
mod frame;
mod session;
mod work;

ghost use Rattle.std.specs.Prelude.{◌≡◌, ◌≤◌, IfOk};
ghost use Rattle.frame_loop.specs.Shown.{shown_by};

use crate::asked::{Asked, asked_by};
use crate::session::{Shown, shown_over};
use batch_rail::{InlineMaker, RailKind};
use epoch_rail::{Crew, EpochMaker, Interval, Starts, Work, start};
use soft_driver::Soft;
use std::alloc::{AllocError as NoMemory, Global};
use std::process::ExitCode;
use std::rt::Env;
use std::sync::Wait;
use std::thread::{PromisedHandle, Threads};
use std::{env, io};

const USAGE: &str = "frame_loop RAIL FRAMES WORK [ASKS]

    RAIL      inline or epoch
    FRAMES    frames of 256 by 256 pixels that are cleared, 1 to 1,000,000
    WORK      steps of the program's own work before each, 0 to 1,000,000,000
    ASKS      every how many frames it asks for an error, and so waits, 0 to 1,000,000 (0, never)
";

/// The words of the command line, without the program's name.
fn words_of<R: Env + AllocGlobal>(rt: &R) -> io::Result<Vec<String>> {
    let mut words = Vec::new(rt.alloc());
    for word in env::args(rt)?.skip(1) {
        words.push(word)?;
    }
    Ok(words)
}

/// What is shown over a rail whose workers this crew starts.
fn over_epoch<
    T: Threads + Sync,
    W: Wait,
    C: Crew<Soft, Worker = PromisedHandle<Work<Soft>, Interval<Soft>>> + Send,
>(rt: &T, wait: &W, alloc: Global, crew: C, asked: Asked) -> Result<Shown, NoMemory>
    requires ready { C.ready crew }
    requires few { asked.frames ≤ 1000000 }
    ensures { IfOk result (λ shown. shown ≡ shown_by asked) }
{
    let mut maker = EpochMaker::new(crew);
    shown_over(rt, wait, alloc, &mut maker, asked)
}

/// Tells bad words or want of memory on standard error, if that takes it, and gives an exit status.
fn told(rt: HostRuntime, text: &str, status: u8) -> ExitCode {
    let _taken = eprintln!(rt; "{text}");
    ExitCode::from(status)
}

fn main(rt: HostRuntime) -> ExitCode {
    let Ok(words) = words_of(&rt) else {
        return told(rt, USAGE, 2);
    };
    let Some(asked) = asked_by(&words) else {
        return told(rt, USAGE, 2);
    };
    let shown = match asked.rail {
        RailKind::Epoch => over_epoch(
            &rt,
            &rt,
            rt.alloc(),
            Starts::by(rt, |rt, work: Work<Soft>| start(rt, work)),
            asked,
        ),
        _ => shown_over(&rt, &rt, rt.alloc(), &mut InlineMaker::new(), asked),
    };
    let Ok(shown) = shown else {
        return told(rt, "frame_loop: no memory", 3);
    };
    match println!(rt; "sum {}\nchecksum {}", shown.sum, shown.checksum) {
        Ok(()) => ExitCode::SUCCESS,
        Err(_) => told(rt, "frame_loop: nothing could be written", 4),
    }
}
