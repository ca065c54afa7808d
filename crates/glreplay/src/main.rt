//! glreplay: replays a script of OpenGL ES calls. It makes the real objects, and all else is in the top call.
#![tactic(auto)]

ghost use Rattle.std.specs.Prelude.{◌≡◌};
ghost use Rattle.batch_rail.specs.declared.maker.RailKind.TheVariants.{Inline, Epoch};
ghost use Rattle.replay_text.specs.Words.{rail_in};
ghost use Rattle.replay_text.specs.declared.asked.Command.{Command};
ghost use Rattle.replay_core.specs.Outcome.{Ask};

use batch_rail::{InlineMaker, RailKind};
use epoch_rail::{Crew, EpochMaker, Interval, Starts, Work, start};
use gl_outside::{FolderShelf, Shelf, Sink, Source, StdinSource, StdoutSink};
use replay_core::{replay, replay_alone};
use replay_text::{Status, exit_code, rail_of};
use soft_driver::Soft;
use std::alloc::Global;
use std::io::ErrorKind;
use std::process::ExitCode;
use std::rt::Env;
use std::sync::Wait;
use std::thread::{PromisedHandle, Threads};
use std::{env, io};

const HELP: &str = "glreplay replays a script of OpenGL ES 1.1 calls from standard input.

    glreplay run [--batch SLOTS] [--ring BATCHES] [--rail RAIL] < SCRIPT
    glreplay direct < SCRIPT
    glreplay --help
    glreplay --version

The report goes to standard output, the images into the current folder.

run replays the script through the threaded layer. Its options may stand in any order, each at most once:

    --batch SLOTS     slots of eight bytes in a batch, 16 to 8192 (1024)
    --ring BATCHES    batches on their way at once, 1 to 64 (8)
    --rail RAIL       how batches are handed over: epoch, inline (epoch)

With epoch a worker in a thread of its own carries batches out while the script goes on. A new one is started behind each
call that waits, so that a script with many of these is quicker with inline, where each batch is carried out as it is
handed over, and --ring has no use. Report and images are the same with both.

direct carries out each call as its line is read, and its report has no line of counts.

Exit statuses and the form of scripts and reports are told in docs/FORMATS.md.
";

const VERSION: &str = "glreplay 0.1.0\n";

/// The words of the command line, without the program's name.
fn words_of<R: Env + AllocGlobal>(rt: &R) -> io::Result<Vec<String>> {
    let mut words = Vec::new(rt.alloc());
    for word in env::args(rt)?.skip(1) {
        words.push(word)?;
    }
    Ok(words)
}

/// The text that the one word asks for, which is printed before anything else is done.
fn asked_text(words: &[String]) -> Option<&'static str> {
    match words {
        [word] if word.as_str() == "--help" => Some(HELP),
        [word] if word.as_str() == "--version" => Some(VERSION),
        _ => None,
    }
}

/// Tells a status other than Ok on standard error, if that takes it, and gives its exit status.
fn told(rt: HostRuntime, status: &Status) -> ExitCode {
    if *status != Status::Ok {
        let _taken = eprintln!(rt; "{status}");
    }
    ExitCode::from(exit_code(status))
}

/// Replays by rails that have their workers from this crew.
fn replayed_by_workers<T: Threads + Wait + Sync, S: Source, K: Sink, G: Shelf, C>(
    rt: &T,
    alloc: Global,
    words: &[String],
    source: &mut S,
    sink: &mut K,
    shelf: &mut G,
    crew: C,
) -> Status
where
    C: Crew<Soft, Worker = PromisedHandle<Work<Soft>, Interval<Soft>>> + Send,
    requires ready { C.ready crew }
    requires kind { (asked : Command) → Ask words.now asked → Epoch ≡ rail_in asked }
{
    let mut rails = EpochMaker::new(crew);
    replay(rt, rt, alloc, words, source, sink, shelf, &mut rails)
}

/// Replays by rails without threads, or by direct calls.
fn replayed_by_caller<T: Threads + Sync, S: Source, K: Sink, G: Shelf>(
    rt: &T,
    alloc: Global,
    words: &[String],
    source: &mut S,
    sink: &mut K,
    shelf: &mut G,
) -> Status
    requires kind { (asked : Command) → Ask words.now asked → Inline ≡ rail_in asked }
{
    let mut rails = InlineMaker::new();
    replay_alone(rt, alloc, words, source, sink, shelf, &mut rails)
}

/// Replays by the rails that the words ask for.
fn replayed<T: Threads + Wait + Copy + Send + Sync + 'static, S: Source, K: Sink, G: Shelf>(
    rt: T,
    alloc: Global,
    words: &[String],
    source: &mut S,
    sink: &mut K,
    shelf: &mut G,
) -> Status {
    match rail_of(words) {
        Some(RailKind::Epoch) => {
            let crew = Starts::by(rt, |rt, work: Work<Soft>| start(rt, work));
            replayed_by_workers(&rt, alloc, words, source, sink, shelf, crew)
        }
        Some(RailKind::Inline) | None => {
            replayed_by_caller(&rt, alloc, words, source, sink, shelf)
        }
        Some(RailKind::Ring) => unreachable!(),
    }
}

fn main(rt: HostRuntime) -> ExitCode {
    let words = match words_of(&rt) {
        Ok(words) => words,
        Err(error) if error.kind() == ErrorKind::InvalidData => return told(rt, &Status::BadWords),
        Err(_) => return told(rt, &Status::NoMemory),
    };
    if let Some(text) = asked_text(&words) {
        return match print!(rt; "{text}") {
            Ok(()) => told(rt, &Status::Ok),
            Err(_) => told(rt, &Status::WriteFault),
        };
    }
    let mut source = StdinSource::new(&rt);
    let mut sink = StdoutSink::new(rt);
    let Ok(folder) = String::from_str(rt.alloc(), ".") else {
        return told(rt, &Status::NoMemory);
    };
    let mut shelf = FolderShelf::new(rt, rt.alloc(), folder);
    let status = replayed(rt, rt.alloc(), &words, &mut source, &mut sink, &mut shelf);
    told(rt, &status)
}
