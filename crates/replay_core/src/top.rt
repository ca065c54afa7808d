//! The top call: from the bytes of a script to the bytes of images and a report. All that the program does is in it.

ghost use Rattle.std.specs.Prelude.{◌≡◌, ◌⊎◌, ◌+◌, ◌↔◌, ℕ, List, Some, Ok, Err, take};
ghost use Rattle.gl_outside.specs.Faults.{Rose};
ghost use Rattle.gl_outside.specs.Moved.{TakesAtMost};
ghost use Rattle.script_reader.specs.Grammar.{script_of};
ghost use Rattle.script_reader.specs.declared.error.ScriptError.{ScriptError};
ghost use Rattle.script_reader.specs.declared.script.Script.{Script};
ghost use Rattle.replay_core.specs.Outcome.{Ask, AskNothing, most_bytes, Replays, ReadsNoScript, PutsSome, WritesSome, StopsAnywhere};
ghost use Rattle.replay_text.specs.Words.{rail_in};
ghost use Rattle.replay_core.specs.World.{world_of};
ghost use Rattle.replay_text.specs.declared.status.Status.{Status};
ghost use Rattle.replay_text.specs.declared.asked.Command.{Command};
ghost use Rattle.replay_text.specs.declared.asked.Command.TheVariants.{Direct};

use crate::deliver::deliver;
use crate::run::run_command;
use crate::ways::{Launches, RunsLines};
use batch_rail::{RailMaker, RailState, WaitMaker, WaitPart};
use driver_trait::{Plainly, Waiting};
use gl_outside::{ReadError, Shelf, Sink, Source, read_up_to};
use replay_text::{Status, command};
use script_reader::{ReadRefusal, read};
use soft_driver::Soft;
use std::alloc::Global;
use std::sync::Wait;
use std::thread::Threads;

/// One byte more than a script may have.
const ENOUGH: usize = 8_388_609;

/// The number of a script's one context.
const ONLY_NUMBER: u32 = 0;

/// Replays the script in the source: puts its images on the shelf and writes its report to the sink. What each
/// answer says is its clause; `told` gives what the four objects tell, before the call and after it. Own.
pub fn replay_alone<T: Threads + Sync, S: Source, K: Sink, G: Shelf, R: RailMaker<Soft>>(
    rt: &T,
    alloc: Global,
    words: &[String],
    source: &mut S,
    sink: &mut K,
    shelf: &mut G,
    rails: &mut R,
) -> Status
    requires kind { (asked : Command) → Ask words.now asked
        → R.kind_of rails.old ≡ rail_in asked }
    ensures ok { let told = world_of S.left K.held G.list R.journal S.faults K.faults G.faults in
        (asked : Command) → Ask words.now asked → result ≡ Status.Ok
        → Replays asked (told source.old sink.old shelf.old rails.old)
        (told source.new sink.new shelf.new rails.new) }
    ensures bad_words { (result ≡ Status.BadWords) ↔ AskNothing words.now }
    ensures bad_words_leave { result ≡ Status.BadWords → (source.new ≡ source.old)
        × (sink.new ≡ sink.old) × (shelf.new ≡ shelf.old) × (rails.new ≡ rails.old) }
    ensures read_fault { result ≡ Status.ReadFault
        → Rose (S.faults source.old) (S.faults source.new)
        × TakesAtMost (most_bytes + 1) (S.left source.old) (S.left source.new)
        × (sink.new ≡ sink.old) × (shelf.new ≡ shelf.old) × (rails.new ≡ rails.old) }
    ensures bad_script { (error : ScriptError) → result ≡ Status.BadScript error
        → ReadsNoScript error (S.left source.old) (S.left source.new)
        × (S.faults source.new ≡ S.faults source.old)
        × (sink.new ≡ sink.old) × (shelf.new ≡ shelf.old) × (rails.new ≡ rails.old) }
    ensures shelf_fault { let told =
        world_of S.left K.held G.list R.journal S.faults K.faults G.faults in
        (asked : Command) → Ask words.now asked
        → (stored : ℕ) → result ≡ Status.ShelfFault stored
        → PutsSome asked stored (told source.old sink.old shelf.old rails.old)
        (told source.new sink.new shelf.new rails.new)
        × Rose (G.faults shelf.old) (G.faults shelf.new) × (sink.new ≡ sink.old)
        × (S.faults source.new ≡ S.faults source.old) }
    ensures write_fault { let told =
        world_of S.left K.held G.list R.journal S.faults K.faults G.faults in
        (asked : Command) → Ask words.now asked → result ≡ Status.WriteFault
        → WritesSome asked (told source.old sink.old shelf.old rails.old)
        (told source.new sink.new shelf.new rails.new)
        × Rose (K.faults sink.old) (K.faults sink.new)
        × (G.faults shelf.new ≡ G.faults shelf.old)
        × (S.faults source.new ≡ S.faults source.old) }
    ensures no_memory { let told =
        world_of S.left K.held G.list R.journal S.faults K.faults G.faults in
        (asked : Command) → Ask words.now asked → result ≡ Status.NoMemory
        → StopsAnywhere asked (told source.old sink.old shelf.old rails.old)
        (told source.new sink.new shelf.new rails.new) }
    // the direct machine leaves the maker of rails as it was
    ensures direct { Ask words.now Direct → rails.new ≡ rails.old }
    // refused bytes are told as such, and accepted ones are run, where no count of faults rose
    ensures refused { (left : List ℕ) (asked : Command) (error : ScriptError)
        → S.left source.old ≡ Some left → Ask words.now asked
        → script_of (take (most_bytes + 1) left) ≡ Err error
        → ¬ Rose (S.faults source.old) (S.faults source.new)
        → (result ≡ Status.BadScript error) ⊎ (result ≡ Status.NoMemory) }
    ensures complete { (left : List ℕ) (asked : Command) (script : Script)
        → S.left source.old ≡ Some left → Ask words.now asked
        → script_of left ≡ Ok script
        → ¬ Rose (S.faults source.old) (S.faults source.new)
        → ¬ Rose (K.faults sink.old) (K.faults sink.new)
        → ¬ Rose (G.faults shelf.old) (G.faults shelf.new)
        → (result ≡ Status.Ok) ⊎ (result ≡ Status.NoMemory) }
{
    replay_by::<Plainly, (), T, S, K, G, R::Made, R>(
        rt,
        &(),
        alloc,
        words,
        source,
        sink,
        shelf,
        rails,
    )
}

/// Replays as [`replay_alone`] does, with the same answers, over a maker whose rails may wait: a part is split from it for the
/// run, and joined to it again on every way out. Own.
pub fn replay<T: Threads + Sync, W: Wait, S: Source, K: Sink, G: Shelf, R: WaitMaker<Soft>>(
    rt: &T,
    wait: &W,
    alloc: Global,
    words: &[String],
    source: &mut S,
    sink: &mut K,
    shelf: &mut G,
    rails: &mut R,
) -> Status
    requires kind { (asked : Command) → Ask words.now asked
        → R.kind_of rails.old ≡ rail_in asked }
    ensures ok { let told = world_of S.left K.held G.list R.journal S.faults K.faults G.faults in
        (asked : Command) → Ask words.now asked → result ≡ Status.Ok
        → Replays asked (told source.old sink.old shelf.old rails.old)
        (told source.new sink.new shelf.new rails.new) }
    ensures bad_words { (result ≡ Status.BadWords) ↔ AskNothing words.now }
    ensures bad_words_leave { result ≡ Status.BadWords → (source.new ≡ source.old)
        × (sink.new ≡ sink.old) × (shelf.new ≡ shelf.old) × (rails.new ≡ rails.old) }
    ensures read_fault { result ≡ Status.ReadFault
        → Rose (S.faults source.old) (S.faults source.new)
        × TakesAtMost (most_bytes + 1) (S.left source.old) (S.left source.new)
        × (sink.new ≡ sink.old) × (shelf.new ≡ shelf.old) × (rails.new ≡ rails.old) }
    ensures bad_script { (error : ScriptError) → result ≡ Status.BadScript error
        → ReadsNoScript error (S.left source.old) (S.left source.new)
        × (S.faults source.new ≡ S.faults source.old)
        × (sink.new ≡ sink.old) × (shelf.new ≡ shelf.old) × (rails.new ≡ rails.old) }
    ensures shelf_fault { let told =
        world_of S.left K.held G.list R.journal S.faults K.faults G.faults in
        (asked : Command) → Ask words.now asked
        → (stored : ℕ) → result ≡ Status.ShelfFault stored
        → PutsSome asked stored (told source.old sink.old shelf.old rails.old)
        (told source.new sink.new shelf.new rails.new)
        × Rose (G.faults shelf.old) (G.faults shelf.new) × (sink.new ≡ sink.old)
        × (S.faults source.new ≡ S.faults source.old) }
    ensures write_fault { let told =
        world_of S.left K.held G.list R.journal S.faults K.faults G.faults in
        (asked : Command) → Ask words.now asked → result ≡ Status.WriteFault
        → WritesSome asked (told source.old sink.old shelf.old rails.old)
        (told source.new sink.new shelf.new rails.new)
        × Rose (K.faults sink.old) (K.faults sink.new)
        × (G.faults shelf.new ≡ G.faults shelf.old)
        × (S.faults source.new ≡ S.faults source.old) }
    ensures no_memory { let told =
        world_of S.left K.held G.list R.journal S.faults K.faults G.faults in
        (asked : Command) → Ask words.now asked → result ≡ Status.NoMemory
        → StopsAnywhere asked (told source.old sink.old shelf.old rails.old)
        (told source.new sink.new shelf.new rails.new) }
    // the direct machine leaves the maker of rails as it was
    ensures direct { Ask words.now Direct → rails.new ≡ rails.old }
    // refused bytes are told as such, and accepted ones are run, where no count of faults rose
    ensures refused { (left : List ℕ) (asked : Command) (error : ScriptError)
        → S.left source.old ≡ Some left → Ask words.now asked
        → script_of (take (most_bytes + 1) left) ≡ Err error
        → ¬ Rose (S.faults source.old) (S.faults source.new)
        → (result ≡ Status.BadScript error) ⊎ (result ≡ Status.NoMemory) }
    ensures complete { (left : List ℕ) (asked : Command) (script : Script)
        → S.left source.old ≡ Some left → Ask words.now asked
        → script_of left ≡ Ok script
        → ¬ Rose (S.faults source.old) (S.faults source.new)
        → ¬ Rose (K.faults sink.old) (K.faults sink.new)
        → ¬ Rose (G.faults shelf.old) (G.faults shelf.new)
        → (result ≡ Status.Ok) ⊎ (result ≡ Status.NoMemory) }
{
    replay_by::<Waiting, W, T, S, K, G, <R::Part as WaitPart<Soft>>::Made, R>(
        rt, wait, alloc, words, source, sink, shelf, rails,
    )
}

/// Replays as [`replay_alone`] and [`replay`] do, over a maker whose rails are had as `H` has them.
fn replay_by<
    H: RunsLines<W, Soft, L> + Launches<W, Soft, L, R>,
    W,
    T: Threads + Sync,
    S: Source,
    K: Sink,
    G: Shelf,
    L: RailState<Soft>,
    R,
>(
    rt: &T,
    wait: &W,
    alloc: Global,
    words: &[String],
    source: &mut S,
    sink: &mut K,
    shelf: &mut G,
    rails: &mut R,
) -> Status
    ensures ok { let told = world_of S.left K.held G.list H.journal S.faults K.faults G.faults in
        (asked : Command) → Ask words.now asked → result ≡ Status.Ok
        → Replays asked (told source.old sink.old shelf.old rails.old)
        (told source.new sink.new shelf.new rails.new) }
    ensures bad_words { (result ≡ Status.BadWords) ↔ AskNothing words.now }
    ensures bad_words_leave { result ≡ Status.BadWords → (source.new ≡ source.old)
        × (sink.new ≡ sink.old) × (shelf.new ≡ shelf.old) × (rails.new ≡ rails.old) }
    ensures read_fault { result ≡ Status.ReadFault
        → Rose (S.faults source.old) (S.faults source.new)
        × TakesAtMost (most_bytes + 1) (S.left source.old) (S.left source.new)
        × (sink.new ≡ sink.old) × (shelf.new ≡ shelf.old) × (rails.new ≡ rails.old) }
    ensures bad_script { (error : ScriptError) → result ≡ Status.BadScript error
        → ReadsNoScript error (S.left source.old) (S.left source.new)
        × (S.faults source.new ≡ S.faults source.old)
        × (sink.new ≡ sink.old) × (shelf.new ≡ shelf.old) × (rails.new ≡ rails.old) }
    ensures shelf_fault { let told =
        world_of S.left K.held G.list H.journal S.faults K.faults G.faults in
        (asked : Command) → Ask words.now asked
        → (stored : ℕ) → result ≡ Status.ShelfFault stored
        → PutsSome asked stored (told source.old sink.old shelf.old rails.old)
        (told source.new sink.new shelf.new rails.new)
        × Rose (G.faults shelf.old) (G.faults shelf.new) × (sink.new ≡ sink.old)
        × (S.faults source.new ≡ S.faults source.old) }
    ensures write_fault { let told =
        world_of S.left K.held G.list H.journal S.faults K.faults G.faults in
        (asked : Command) → Ask words.now asked → result ≡ Status.WriteFault
        → WritesSome asked (told source.old sink.old shelf.old rails.old)
        (told source.new sink.new shelf.new rails.new)
        × Rose (K.faults sink.old) (K.faults sink.new)
        × (G.faults shelf.new ≡ G.faults shelf.old)
        × (S.faults source.new ≡ S.faults source.old) }
    ensures no_memory { let told =
        world_of S.left K.held G.list H.journal S.faults K.faults G.faults in
        (asked : Command) → Ask words.now asked → result ≡ Status.NoMemory
        → StopsAnywhere asked (told source.old sink.old shelf.old rails.old)
        (told source.new sink.new shelf.new rails.new) }
    // the direct machine leaves the maker of rails as it was
    ensures direct { Ask words.now Direct → rails.new ≡ rails.old }
    // refused bytes are told as such, and accepted ones are run, where no count of faults rose
    ensures refused { (left : List ℕ) (asked : Command) (error : ScriptError)
        → S.left source.old ≡ Some left → Ask words.now asked
        → script_of (take (most_bytes + 1) left) ≡ Err error
        → ¬ Rose (S.faults source.old) (S.faults source.new)
        → (result ≡ Status.BadScript error) ⊎ (result ≡ Status.NoMemory) }
    ensures complete { (left : List ℕ) (asked : Command) (script : Script)
        → S.left source.old ≡ Some left → Ask words.now asked
        → script_of left ≡ Ok script
        → ¬ Rose (S.faults source.old) (S.faults source.new)
        → ¬ Rose (K.faults sink.old) (K.faults sink.new)
        → ¬ Rose (G.faults shelf.old) (G.faults shelf.new)
        → (result ≡ Status.Ok) ⊎ (result ≡ Status.NoMemory) }
{
    let Some(asked) = command(words) else {
        return Status::BadWords;
    };
    let bytes = match read_up_to(alloc, source, ENOUGH) {
        Ok(bytes) => bytes,
        Err(ReadError::Failed) => return Status::ReadFault,
        Err(ReadError::NoMemory) => return Status::NoMemory,
    };
    let script = match read(alloc, &bytes) {
        Ok(script) => script,
        Err(ReadRefusal::Bad(error)) => return Status::BadScript(error),
        Err(ReadRefusal::NoMemory) => return Status::NoMemory,
    };
    match run_command::<H, W, T, L, R>(rt, wait, alloc, rails, asked, ONLY_NUMBER, &script) {
        Ok(output) => deliver(sink, shelf, output.images.as_slice(), output.report.bytes()),
        Err(_) => Status::NoMemory,
    }
}
