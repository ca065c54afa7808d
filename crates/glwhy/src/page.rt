//! Lines on their way out, which are written together.

use crate::stop::Stop;
use gl_outside::{Sink, write_all};
use script_trace::EntryLine;
use std::alloc::Global;
use std::fmt::{Display, Write};

/// How many bytes are kept before they are written, but for the last line.
const FULL: usize = 65_536;

/// A sink, and the lines that weren't written to it yet.
#[derive(Drop)]
pub struct Page<K: Sink> {
    sink: K,
    text: String,
}

impl<K: Sink> Page<K> {
    pub fn new(alloc: Global, sink: K) -> Page<K> {
        Page {
            sink,
            text: String::new(alloc),
        }
    }

    /// Adds a line.
    pub fn line<D: Display>(&mut self, line: &D) -> Result<(), Stop> {
        writeln!(self.text, "{line}")?;
        self.send_full()
    }

    /// Adds the line of an entry.
    pub fn entry(&mut self, line: &EntryLine<'_>) -> Result<(), Stop> {
        line.append_to(&mut self.text)?;
        self.text.push_str("\n")?;
        self.send_full()
    }

    /// Writes the lines where they are many.
    fn send_full(&mut self) -> Result<(), Stop> {
        if self.text.len() >= FULL {
            self.send()?;
        }
        Ok(())
    }

    /// Writes the lines that weren't written yet.
    pub fn send(&mut self) -> Result<(), Stop> {
        write_all(&mut self.sink, self.text.as_bytes())?;
        self.text.clear();
        Ok(())
    }
}
