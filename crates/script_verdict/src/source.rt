//! A source as lines and words with their columns. Whether a line is faulty is the reader's to say.

use script_reader::next_word;
use std::alloc::{AllocError as NoMemory, Global};

/// How many words of a line are kept: more than any form has, with the words behind it that a hint is about.
const KEPT: usize = 24;

/// A word of a line: the bytes before it, and its own.
#[derive(Clone, Copy)]
pub(crate) struct Word<'a> {
    pub(crate) column: usize,
    pub(crate) bytes: &'a [u8],
}

/// The words of a line: the first of them, and how many there are.
#[derive(Drop)]
pub(crate) struct Words<'a> {
    pub(crate) first: Vec<Word<'a>>,
    pub(crate) count: usize,
}

impl<'a> Words<'a> {
    /// The bytes of the word at a place, from 0; no bytes where there is none.
    pub(crate) fn at(&self, place: usize) -> &'a [u8] {
        match self.first.get(place) {
            Some(word) => word.bytes,
            None => &[],
        }
    }
}

/// The first line without its line end, which is LF or CR and LF, and what follows it.
pub(crate) fn cut_line(bytes: &[u8]) -> (&[u8], &[u8]) {
    match bytes.iter().position(|byte| *byte == b'\n') {
        Some(at) => {
            let (line, after) = bytes.split_at(at);
            (without_return(line), behind_first(after))
        }
        None => (bytes, &[]),
    }
}

fn without_return(line: &[u8]) -> &[u8] {
    match line {
        [front @ .., b'\r'] => front,
        _ => line,
    }
}

fn behind_first(bytes: &[u8]) -> &[u8] {
    match bytes {
        [_, rest @ ..] => rest,
        [] => &[],
    }
}

/// Some bytes of a text, from one place to another.
pub(crate) fn part(text: &[u8], from: usize, to: usize) -> &[u8] {
    let (front, _) = text.split_at(to.min(text.len()));
    let (_, part) = front.split_at(from.min(front.len()));
    part
}

/// The words of a line without its end.
pub(crate) fn words_in(alloc: Global, text: &[u8]) -> Result<Words<'_>, NoMemory> {
    let mut words = Words {
        first: Vec::new(alloc),
        count: 0,
    };
    let mut rest = text;
    for _ in 0..u64::MAX {
        let Some((word, after)) = next_word(rest) else {
            break;
        };
        if words.first.len() < KEPT {
            let taken = word.len().saturating_add(after.len());
            words.first.push(Word {
                column: text.len().saturating_sub(taken),
                bytes: word,
            })?;
        }
        words.count = words.count.saturating_add(1);
        rest = after;
    }
    Ok(words)
}

/// What the lines before a line have said, as far as the explanation of its fault asks.
#[derive(Clone, Copy)]
pub(crate) struct Past {
    /// How many of them are `context` lines.
    pub(crate) contexts: i64,
    /// The header came.
    pub(crate) begun: bool,
}

/// The text of a line by its number, from 1, and what the lines before it, none of which is faulty, have said. None where there
/// are fewer lines.
pub(crate) fn line_at(bytes: &[u8], number: u32) -> (Option<&[u8]>, Past) {
    let mut past = Past {
        contexts: 0,
        begun: false,
    };
    let mut rest = bytes;
    for _ in 1..number {
        let (line, after) = cut_line(rest);
        hear(&mut past, line);
        rest = after;
    }
    if rest.is_empty() {
        return (None, past);
    }
    let (line, _) = cut_line(rest);
    (Some(line), past)
}

fn hear(past: &mut Past, line: &[u8]) {
    let Some((first, _)) = next_word(line) else {
        return;
    };
    if !first.starts_with(b"#".as_slice()) {
        past.begun = true;
        if first == b"context".as_slice() {
            past.contexts = past.contexts.saturating_add(1);
        }
    }
}

/// How many lines there are; the last may lack its end.
pub(crate) fn count_lines(bytes: &[u8]) -> u64 {
    let mut count = 0u64;
    for byte in bytes {
        if *byte == b'\n' {
            count = count.saturating_add(1);
        }
    }
    match bytes {
        [] | [.., b'\n'] => count,
        _ => count.saturating_add(1),
    }
}
