//! The ways in which tests replay a script: by each of the two top calls, over each rail.

ghost use Rattle.std.specs.Prelude.{◌≡◌, true, IfOk, IfErr};
ghost use Rattle.epoch_rail.specs.Work.{Carried};
ghost use Rattle.soft_driver.specs.Renderer.{SoftSteps};
ghost use Rattle.replay_core.specs.Outcome.{Ask};
ghost use Rattle.replay_text.specs.Words.{rail_in};
ghost use Rattle.replay_text.specs.declared.asked.Command.{Command};

use batch_rail::{InlineMaker, RailKind, RailMaker, WaitMaker};
use epoch_rail::{Crew, EpochMaker, Interval, Starts, Work, start};
use gl_outside::{MemoryShelf, MemorySink, MemorySource};
use replay_text::{Status, rail_of};
use soft_driver::Soft;
use std::alloc::{AllocError, Global};
use std::process::Abort;
use std::sync::Wait;
use std::thread::{PromisedHandle, Threads};

/// How a script is replayed.
#[derive(Clone, Copy, Debug, PartialEq, Eq)]
pub(crate) enum Way {
    /// By the call that returns, over the rail without threads.
    Returning,
    /// By the call that may wait, over the rail without threads.
    Waiting,
    /// By the same, over the rail whose batches a worker carries out.
    Worker,
    /// By the same, where no thread can be started for a worker.
    NoThread,
}

/// Each way that can be had.
pub(crate) const WAYS: [Way; 4] = [Way::Returning, Way::Waiting, Way::Worker, Way::NoThread];

/// Which calls of the source, the shelf and the sink fail, and how many bytes a call moves.
#[derive(Drop)]
pub(crate) struct Outside {
    pub(crate) source: Vec<u64>,
    pub(crate) shelf: Vec<u64>,
    pub(crate) sink: Vec<u64>,
    pub(crate) most: usize,
}

impl Outside {
    pub(crate) fn sure(alloc: Global, most: usize) -> Outside {
        Outside {
            source: Vec::new(alloc),
            shelf: Vec::new(alloc),
            sink: Vec::new(alloc),
            most,
        }
    }
}

/// What a run left.
#[derive(Drop)]
pub(crate) struct Left {
    pub(crate) status: Status,
    pub(crate) sink: MemorySink,
    pub(crate) shelf: MemoryShelf,
}

/// The words and the objects of a run.
#[derive(Drop)]
pub(crate) struct Ready {
    words: Vec<String>,
    source: MemorySource,
    sink: MemorySink,
    shelf: MemoryShelf,
}

impl Ready {
    /// The words, of which a blank stands between each two, and the objects, the source with a script.
    pub(crate) fn new(
        alloc: Global,
        words: &str,
        text: &[u8],
        outside: Outside,
    ) -> Result<Ready, AllocError> {
        let mut all = Vec::new(alloc);
        for word in words.split(' ') {
            all.push(String::from_str(alloc, word)?)?;
        }
        let most = outside.most.max(1);
        Ok(Ready {
            words: all,
            source: MemorySource::new(Vec::from_slice(alloc, text)?, outside.source, most),
            sink: MemorySink::new(alloc, outside.sink, most),
            shelf: MemoryShelf::new(alloc, outside.shelf),
        })
    }
}

/// Whether the words ask for a rail of this kind, or for nothing.
fn ask_for(words: &[String], kind: RailKind) -> bool
    ensures { result ≡ true → (asked : Command) → Ask words.now asked → kind ≡ rail_in asked }
{
    match rail_of(words) {
        Some(rail) => rail == kind,
        None => true,
    }
}

/// Replays over a maker of the kind that the words ask for.
pub(crate) fn replay_over<T: Threads + Sync + Abort, R: RailMaker<Soft>>(
    rt: &T,
    alloc: Global,
    ready: Ready,
    rails: &mut R,
) -> Left {
    let Ready {
        words,
        mut source,
        mut sink,
        mut shelf,
    } = ready;
    let words: &[String] = &words;
    assert!(rt;
        ask_for(words, rails.kind()),
        "the words ask for another rail"
    );
    let status = replay_core::replay_alone(
        rt,
        alloc,
        words,
        &mut source,
        &mut sink,
        &mut shelf,
        rails,
    );
    Left {
        status,
        sink,
        shelf,
    }
}

/// Replays by the call that may wait, over a maker of the kind that the words ask for.
pub(crate) fn wait_over<T: Threads + Sync + Abort, W: Wait, R: WaitMaker<Soft>>(
    rt: &T,
    wait: &W,
    alloc: Global,
    ready: Ready,
    rails: &mut R,
) -> Left {
    let Ready {
        words,
        mut source,
        mut sink,
        mut shelf,
    } = ready;
    let words: &[String] = &words;
    assert!(rt;
        ask_for(words, rails.kind()),
        "the words ask for another rail"
    );
    let status = replay_core::replay(
        rt,
        wait,
        alloc,
        words,
        &mut source,
        &mut sink,
        &mut shelf,
        rails,
    );
    Left {
        status,
        sink,
        shelf,
    }
}

/// Replays over the rail whose batches a worker carries out, with workers that this crew starts.
fn over_crew<T: Threads + Wait + Sync + Abort, C>(
    rt: &T,
    alloc: Global,
    ready: Ready,
    crew: C,
) -> Left
where
    C: Crew<Soft, Worker = PromisedHandle<Work<Soft>, Interval<Soft>>> + Send,
    requires ready { C.ready crew }
{
    let mut rails = EpochMaker::new(crew);
    wait_over(rt, rt, alloc, ready, &mut rails)
}

/// Replays over the rail whose batches a worker carries out, each in a thread of its own.
pub(crate) fn over_workers<T: Threads + Wait + Copy + Send + Sync + Abort + 'static>(
    rt: T,
    alloc: Global,
    ready: Ready,
) -> Left {
    let crew = Starts::by(rt, |rt, work: Work<Soft>| start(rt, work));
    over_crew(&rt, alloc, ready, crew)
}

/// Gives the work back.
fn no_thread(work: Work<Soft>) -> Result<PromisedHandle<Work<Soft>, Interval<Soft>>, Work<Soft>>
    ensures ok { IfOk result (λ worker. worker.promise.was.value ≡ work) }
    ensures err { IfErr result (λ back. Carried SoftSteps work back) }
{
    Err(work)
}

/// The same where no thread can be started.
fn over_no_thread<T: Threads + Wait + Sync + Abort>(rt: &T, alloc: Global, ready: Ready) -> Left {
    let crew = Starts::by((), |_, work: Work<Soft>| no_thread(work));
    over_crew(rt, alloc, ready, crew)
}

impl Way {
    /// Whether a command can be replayed so. Direct calls are no matter of the rails with workers.
    pub(crate) fn has(self, words: &str) -> bool {
        words != "direct" || self == Way::Returning || self == Way::Waiting
    }

    /// The words that are told, and for a run those that ask for the rail of this way.
    fn words(self, alloc: Global, told: &str) -> Result<String, AllocError> {
        let rail = match self {
            _ if told == "direct" => "",
            Way::Returning | Way::Waiting => " --rail inline",
            Way::Worker | Way::NoThread => " --rail epoch",
        };
        format!(in alloc; "{told}{rail}")
    }

    /// Replays a script so, by words that name no rail.
    pub(crate) fn replay<T: Threads + Wait + Copy + Send + Sync + Abort + 'static>(
        self,
        rt: T,
        alloc: Global,
        told: &str,
        text: &[u8],
        outside: Outside,
    ) -> Result<Left, AllocError> {
        let words = self.words(alloc, told)?;
        let ready = Ready::new(alloc, words.as_str(), text, outside)?;
        Ok(match self {
            Way::Returning => replay_over(&rt, alloc, ready, &mut InlineMaker::new()),
            Way::Waiting => wait_over(&rt, &rt, alloc, ready, &mut InlineMaker::new()),
            Way::Worker => over_workers(rt, alloc, ready),
            Way::NoThread => over_no_thread(&rt, alloc, ready),
        })
    }
}
