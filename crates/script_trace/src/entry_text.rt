//! Entries, causes and ends as text. Which of them are printed is the program's to choose.

use crate::entry::{Entry, Recorded};
use crate::error_numbers::error_numbered;
use crate::fate::{BatchEnd, Cause, Fate, Why};
use crate::names::NumberNames;
use crate::spelled::{append_call, error_name, write_count};
use gl_words::Call;
use itoa::Buffer;
use replay_lines::Printed;
use std::alloc::AllocError as NoMemory;
use std::fmt;
use std::fmt::Write;

impl Cause {
    /// The cause in words, without numbers; own.
    pub fn reason(&self) -> &'static str {
        match self {
            Cause::Asks => "its answer is the driver's",
            Cause::Finishes => "all calls before it are to be carried out",
            Cause::TooLong { .. } => "it is longer than a batch",
            Cause::ReadsAll => "it reads all of client memory",
        }
    }

    /// The cause in one word, for programs; own.
    pub fn word(&self) -> &'static str {
        match self {
            Cause::Asks => "answer",
            Cause::Finishes => "finish",
            Cause::TooLong { .. } => "length",
            Cause::ReadsAll => "memory",
        }
    }
}

impl fmt::Display for Why {
    fn fmt<W: fmt::Write>(&self, f: &mut fmt::Formatter<W>) -> fmt::Result {
        f.write_str(match self {
            Why::Full => "full",
            Why::Sent => "by a Flush",
            Why::Waits => "by a call that waits",
            Why::NoMore => "at the end of the script",
        })
    }
}

/// An entry beside the size of batches in slots, as a line without its end; own.
#[derive(Clone, Copy)]
pub struct EntryLine<'a> {
    pub entry: &'a Entry,
    pub names: &'a NumberNames,
    pub size: u32,
}

impl EntryLine<'_> {
    /// Appends the line. NoMemory may leave some of it; own.
    pub fn append_to(&self, text: &mut String) -> Result<(), NoMemory> {
        let entry = self.entry;
        let mut digits = Buffer::new();
        text.push_str(digits.format(entry.line))?;
        text.push_str(" ")?;
        text.push_str(digits.format(entry.context))?;
        text.push_str(" ")?;
        append_call(text, &entry.call, self.names)?;
        text.push_str(": ")?;
        append_reply(text, &entry.call, &entry.reply)?;
        if let Some(error) = entry.error {
            append_error(text, error)?;
        }
        append_fate(text, entry.fate, self.size)
    }
}

/// The end of a batch beside the size of batches in slots, as a line without its end; own.
#[derive(Clone, Copy)]
pub struct EndLine {
    pub end: BatchEnd,
    pub size: u32,
}

impl fmt::Display for EndLine {
    fn fmt<W: fmt::Write>(&self, f: &mut fmt::Formatter<W>) -> fmt::Result {
        let BatchEnd {
            number,
            calls,
            slots,
            why,
        } = self.end;
        let size = self.size;
        write!(f, "  batch {number} ends {why}: ")?;
        write_count(f, calls, "call")?;
        write!(f, ", {slots} of {size} slots")
    }
}

/// Appends an error, and the one that is recorded already.
fn append_error(text: &mut String, error: Recorded) -> Result<(), NoMemory> {
    text.push_str(error_name(error.error))?;
    if let Some(before) = error.before {
        text.push_str(", but ")?;
        text.push_str(error_name(before))?;
        text.push_str(" is recorded already")?;
    }
    text.push_str("; ")
}

/// Appends what becomes of a call, with batches of so many slots.
fn append_fate(text: &mut String, fate: Fate, size: u32) -> Result<(), NoMemory> {
    match fate {
        Fate::Answered => text.push_str("answered by the shadow"),
        Fate::Waits(cause) => append_cause(text, cause),
        Fate::PutOff { batch, slots } => {
            let mut digits = Buffer::new();
            text.push_str("put off into batch ")?;
            text.push_str(digits.format(batch))?;
            text.push_str(" (slots ")?;
            text.push_str(digits.format(slots))?;
            text.push_str(" of ")?;
            text.push_str(digits.format(size))?;
            text.push_str(")")
        }
    }
}

/// Appends why a call waits.
fn append_cause(text: &mut String, cause: Cause) -> Result<(), NoMemory> {
    text.push_str("waits because ")?;
    text.push_str(cause.reason())?;
    match cause {
        Cause::TooLong { slots } => write!(text, " ({slots} slots)"),
        Cause::Asks | Cause::Finishes | Cause::ReadsAll => Ok(()),
    }
}

/// Appends what a call replied, where it replied something: GetError by the name of an error.
fn append_reply(text: &mut String, call: &Call, reply: &Printed) -> Result<(), NoMemory> {
    match reply {
        Printed::Nothing => Ok(()),
        Printed::One(number) => match (call, error_numbered(number)) {
            (Call::GetError, Some(error)) => {
                let name = error_name(error);
                write!(text, "replied {name}; ")
            }
            (Call::GetError, None) => text.push_str("replied NO_ERROR; "),
            (Call::ReadPixels { .. }, _) => write!(text, "replied {number} bytes; "),
            _ => write!(text, "replied {number}; "),
        },
        Printed::Many(numbers) => {
            text.push_str("replied")?;
            for number in numbers.as_slice() {
                write!(text, " {number}")?;
            }
            text.push_str("; ")
        }
    }
}
