//! The words of the command line, without the program's name. Why words are no command, nothing here says.

ghost use Rattle.std.specs.Prelude.{◌≡◌, ◌≤◌, IfSome};
ghost use Rattle.std.specs.Option.{option_copied, option_map};
ghost use Rattle.batch_pack.specs.Batch.{IsBatchSize};
ghost use Rattle.batch_rail.specs.Maker.{IsRingLength};
ghost use Rattle.replay_text.specs.Words.{texts_of, pairs_of, decimal_within, batch_spelled, ring_spelled, rail_spelled, is_option, value_given, are_options, batch_of, ring_of, rail_asked, command_of, rail_in, IsWithinLimits};

use crate::asked::Command;
use batch_rail::RailKind;
use script_reader::decimal_from;

/// The number that a word spells, where it is one from low to high.
#[tactic(auto, unfolding(crate::specs::Words::decimal_within))]
fn decimal_between(word: &[u8], low: u32, high: u32) -> Option<u32>
    ensures value { result ≡ decimal_within low high word.now }
    ensures range { IfSome result (λ n. (low ≤ n) × (n ≤ high)) }
{
    let n = decimal_from(word)?;
    if n >= u64::from(low) && n <= u64::from(high) {
        Some(n as u32)
    } else {
        None
    }
}

/// The slots of a batch that a word spells.
#[tactic(auto, unfolding(crate::specs::Words::batch_spelled))]
fn batch_from(word: &[u8]) -> Option<u32>
    ensures value { result ≡ batch_spelled word.now }
    ensures limits { IfSome result IsBatchSize }
{
    decimal_between(word, 16, 8192)
}

/// The batches of a ring that a word spells.
#[tactic(auto, unfolding(crate::specs::Words::ring_spelled))]
fn ring_from(word: &[u8]) -> Option<u32>
    ensures value { result ≡ ring_spelled word.now }
    ensures limits { IfSome result IsRingLength }
{
    decimal_between(word, 1, 64)
}

/// The rail that a word names, of those that can be asked for.
#[tactic(auto, unfolding(crate::specs::Words::rail_spelled))]
fn rail_from(word: &[u8]) -> Option<RailKind>
    ensures { result ≡ rail_spelled word.now }
{
    if word == b"inline".as_slice() {
        Some(RailKind::Inline)
    } else if word == b"epoch".as_slice() {
        Some(RailKind::Epoch)
    } else {
        None
    }
}

/// Whether a name is an option's, and the word behind it one of its values.
#[tactic(auto, unfolding(crate::specs::Words::is_option))]
fn is_option(name: &[u8], value: &[u8]) -> bool
    ensures { result ≡ is_option (name.now, value.now) }
{
    if name == b"--batch".as_slice() {
        batch_from(value).is_some()
    } else if name == b"--ring".as_slice() {
        ring_from(value).is_some()
    } else {
        name == b"--rail".as_slice() && rail_from(value).is_some()
    }
}

/// The word behind a name, where words are names and values in turn.
fn value_given<'a>(words: &'a [String], name: &[u8]) -> Option<&'a [u8]>
    ensures { option_copied result ≡ value_given name.now (pairs_of (texts_of words.now)) }
{
    let mut remaining = words;
    'pairs: while let [other, value, rest @ ..] = remaining {
        if other.as_bytes() == name {
            return Some(value.as_bytes());
        }
        remaining = rest;
    }
    None
}

/// Whether words are options, each with one of its values, and none twice.
fn are_options(words: &[String]) -> bool
    ensures { result ≡ are_options (texts_of words.now) }
{
    let mut remaining = words;
    'pairs: while let [name, value, rest @ ..] = remaining {
        if !is_option(name.as_bytes(), value.as_bytes()) {
            return false;
        }
        if value_given(rest, name.as_bytes()).is_some() {
            return false;
        }
        remaining = rest;
    }
    remaining.is_empty()
}

/// The slots of a batch that options ask for.
#[tactic(auto, unfolding(crate::specs::Words::batch_of))]
fn batch_in(words: &[String]) -> u32
    ensures value { result ≡ batch_of (pairs_of (texts_of words.now)) }
    ensures limits { IsBatchSize result }
{
    match value_given(words, b"--batch".as_slice()) {
        Some(value) => batch_from(value).unwrap_or(1024),
        None => 1024,
    }
}

/// The batches of a ring that options ask for.
#[tactic(auto, unfolding(crate::specs::Words::ring_of))]
fn ring_in(words: &[String]) -> u32
    ensures value { result ≡ ring_of (pairs_of (texts_of words.now)) }
    ensures limits { IsRingLength result }
{
    match value_given(words, b"--ring".as_slice()) {
        Some(value) => ring_from(value).unwrap_or(8),
        None => 8,
    }
}

/// The rail that options ask for.
#[tactic(auto, unfolding(crate::specs::Words::rail_asked))]
fn rail_in(words: &[String]) -> RailKind
    ensures { result ≡ rail_asked (pairs_of (texts_of words.now)) }
{
    match value_given(words, b"--rail".as_slice()) {
        Some(value) => rail_from(value).unwrap_or(RailKind::Epoch),
        None => RailKind::Epoch,
    }
}

/// The command that the words spell; own. None exactly where they aren't a command. It takes no memory.
pub fn command(words: &[String]) -> Option<Command>
    ensures meaning { result ≡ command_of (texts_of words.now) }
    ensures limits { IfSome result IsWithinLimits }
{
    let [word, rest @ ..] = words else {
        return None;
    };
    if word.as_bytes() == b"run".as_slice() && are_options(rest) {
        Some(Command::Run {
            batch: batch_in(rest),
            ring: ring_in(rest),
            rail: rail_in(rest),
        })
    } else if word.as_bytes() == b"direct".as_slice() && rest.is_empty() {
        Some(Command::Direct)
    } else {
        None
    }
}

/// The rail of the command that the words spell, Inline for direct calls; own. None exactly where they aren't a command.
pub fn rail_of(words: &[String]) -> Option<RailKind>
    ensures { result ≡ option_map rail_in (command_of (texts_of words.now)) }
{
    match command(words)? {
        Command::Run { rail, .. } => Some(rail),
        Command::Direct => Some(RailKind::Inline),
    }
}
