//! The name that a word was meant to be: of the table of calls or of names, one or two letters off.

use gl_words::{names_by_length, number_of_enum, row_numbered};
use std::alloc::{AllocError as NoMemory, Global};
use std::str::from_utf8;
use strsim::osa_distance;

/// The nearest name so far, and how many letters it is off.
#[derive(Clone, Copy)]
pub(crate) struct Nearest {
    pub(crate) name: Option<&'static str>,
    off: usize,
}

/// The longest word for which names are compared: no name has so many letters.
const LONGEST: usize = 48;

impl Nearest {
    /// No name is near enough yet to a word: two letters, of a short word one.
    pub(crate) fn to(word: &str) -> Nearest {
        Nearest {
            name: None,
            off: if word.len() < 5 { 2 } else { 3 },
        }
    }

    /// Takes a name where it is nearer.
    pub(crate) fn compare(
        &mut self,
        alloc: Global,
        word: &str,
        name: &'static str,
    ) -> Result<(), NoMemory> {
        if name.len().abs_diff(word.len()) < self.off {
            let off = osa_distance(alloc, word, name)?;
            if off < self.off {
                *self = Nearest {
                    name: Some(name),
                    off,
                };
            }
        }
        Ok(())
    }
}

/// The nearest of some words, if one is near.
pub(crate) fn nearest_of(
    alloc: Global,
    word: &str,
    names: &[&'static str],
) -> Result<Option<&'static str>, NoMemory> {
    let mut nearest = Nearest::to(word);
    if word.len() <= LONGEST {
        for name in names {
            nearest.compare(alloc, word, *name)?;
        }
    }
    Ok(nearest.name)
}

/// The nearest name of a call, if one is near.
pub(crate) fn nearest_call(alloc: Global, word: &str) -> Result<Option<&'static str>, NoMemory> {
    let mut nearest = Nearest::to(word);
    if word.len() <= LONGEST {
        for id in 1..=u16::MAX {
            match row_numbered(id) {
                Some(row) => nearest.compare(alloc, word, row.name)?,
                None => break,
            }
        }
    }
    Ok(nearest.name)
}

/// The nearest name of an enumerant, if one is near.
pub(crate) fn nearest_enumerant(
    alloc: Global,
    word: &str,
) -> Result<Option<&'static str>, NoMemory> {
    let mut nearest = Nearest::to(word);
    if word.len() <= LONGEST {
        for group in names_by_length() {
            for name in *group {
                nearest.compare(alloc, word, name.0)?;
            }
        }
    }
    Ok(nearest.name)
}

/// The name of a call that is this word, whatever the case of its letters.
pub(crate) fn call_in_any_case(word: &str) -> Option<&'static str> {
    for id in 1..=u16::MAX {
        let row = row_numbered(id)?;
        if row.name.eq_ignore_ascii_case(word) {
            return Some(row.name);
        }
    }
    None
}

/// The name of an enumerant that is this word, whatever the case of its letters.
pub(crate) fn enumerant_in_any_case(word: &str) -> Option<&'static str> {
    for group in names_by_length() {
        for name in *group {
            if name.0.eq_ignore_ascii_case(word) {
                return Some(name.0);
            }
        }
    }
    None
}

/// Whether a word is the name of an enumerant.
pub(crate) fn is_enumerant(word: &str) -> bool {
    number_of_enum(word).is_some()
}

/// A word as text; one that is none is no name.
pub(crate) fn text_of(word: &[u8]) -> &str {
    match from_utf8(word) {
        Ok(text) => text,
        Err(_) => "",
    }
}
