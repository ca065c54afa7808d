//! The words of the command line, without the program's name. Why words ask for nothing, nothing here says.

ghost use Rattle.std.specs.Prelude.{◌≡◌, ◌≤◌, IfSome, codes};
ghost use Rattle.frame_loop.specs.Asked.{texts_of, rail_named, decimal_within, asked_in, asked_of};

use batch_rail::RailKind;
use script_reader::decimal_from;

/// What the program is asked for; own.
#[derive(Clone, Copy, Debug, PartialEq, Eq)]
pub struct Asked {
    /// How batches are carried out: Inline or Epoch.
    pub rail: RailKind,
    /// How many frames are drawn, 1 to 1,000,000.
    pub frames: u32,
    /// Steps of the program's own work before each frame, at most 1,000,000,000.
    pub work: u32,
    /// Every how many frames the program asks for an error, at most 1,000,000; 0 is never.
    pub asks: u32,
}

/// The rail that a word names.
#[tactic(auto, unfolding(crate::specs::Asked::rail_named))]
fn rail_from(word: &[u8]) -> Option<RailKind>
    ensures { result ≡ rail_named word.now }
{
    if word == b"inline".as_slice() {
        Some(RailKind::Inline)
    } else if word == b"epoch".as_slice() {
        Some(RailKind::Epoch)
    } else {
        None
    }
}

/// The number that a word spells, where it is one from low to high.
#[tactic(auto, unfolding(crate::specs::Asked::decimal_within))]
fn decimal_between(word: &[u8], low: u32, high: u32) -> Option<u32>
    ensures value { result ≡ decimal_within low high word.now }
    ensures range { IfSome result (λ n. n ≤ high) }
{
    let n = decimal_from(word)?;
    if n >= u64::from(low) && n <= u64::from(high) {
        Some(n as u32)
    } else {
        None
    }
}

/// What these four words ask for.
#[tactic(auto, unfolding(crate::specs::Asked::asked_in))]
fn asked_in(rail: &[u8], frames: &[u8], work: &[u8], asks: &[u8]) -> Option<Asked>
    ensures value { result ≡ asked_in rail.now frames.now work.now asks.now }
    ensures few { IfSome result (λ asked. asked.frames ≤ 1000000) }
{
    Some(Asked {
        rail: rail_from(rail)?,
        frames: decimal_between(frames, 1, 1_000_000)?,
        work: decimal_between(work, 0, 1_000_000_000)?,
        asks: decimal_between(asks, 0, 1_000_000)?,
    })
}

/// What the words ask for; own. None exactly where they ask for nothing. It takes no memory.
pub fn asked_by(words: &[String]) -> Option<Asked>
    ensures meaning { result ≡ asked_of (texts_of words.now) }
    ensures few { IfSome result (λ asked. asked.frames ≤ 1000000) }
{
    match words {
        [rail, frames, work] => {
            asked_in(
                rail.as_bytes(),
                frames.as_bytes(),
                work.as_bytes(),
                b"0".as_slice(),
            )
        }
        [rail, frames, work, asks] => {
            asked_in(
                rail.as_bytes(),
                frames.as_bytes(),
                work.as_bytes(),
                asks.as_bytes(),
            )
        }
        _ => None,
    }
}
