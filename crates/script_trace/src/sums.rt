//! What the calls of a trace sum up to. Only the four numbers of a line of counts are told by a clause.

ghost use Rattle.std.specs.Prelude.{◌≡◌, ◌<◌, ◌≤◌, ◌^◌, length, IfOk, OnOk};
ghost use Rattle.std.specs.List.{All};
ghost use Rattle.batch_pack.specs.Batch.{IsBatchSize};
ghost use Rattle.client_shadow.specs.Cutting.{tally_of};
ghost use Rattle.script_reader.specs.Limits.{IsContext, IsLine};
ghost use Rattle.replay_lines.specs.Limits.{most_lines};
ghost use Rattle.replay_core.specs.Calls.{calls_of};
ghost use Rattle.script_trace.specs.Entries.{scripted, seen};
ghost use Rattle.script_trace.specs.Tallies.{HasRoom, no_tally, tally_by, with_class_in, with_end, with_entry};
ghost use Rattle.script_trace.specs.Cause.{class_in_fate};

use crate::entry::{Entry, Recorded};
use crate::fate::{BatchEnd, Cause, Fate, Why};
use crate::trace::Trace;
use gl_words::{GlError, call_name};
use script_reader::{ContextSpec, Line};
use std::alloc::{AllocError as NoMemory, Global};
use std::thread::Threads;

/// How many calls of a name waited for a cause; own. Of calls that are longer than a batch their slots aren't told apart.
#[derive(Clone, Copy, Debug, PartialEq, Eq)]
pub struct Waits {
    pub name: &'static str,
    pub cause: Cause,
    pub count: u64,
}

/// How many calls of a name had an error, and how many of these errors were recorded; own.
#[derive(Clone, Copy, Debug, PartialEq, Eq)]
pub struct Errors {
    pub name: &'static str,
    pub error: GlError,
    pub count: u64,
    pub recorded: u64,
}

/// The sums of a trace; own.
#[derive(Drop)]
pub struct Sums {
    /// Calls that were put off.
    pub deferred: u64,
    /// Calls that waited.
    pub synchronised: u64,
    /// Calls that tracked state answered.
    pub answered: u64,
    /// Batches.
    pub batches: u64,
    /// Batches by why they ended: full, sent, before a call that waits, at the end of the script.
    pub ends: [u64; 4],
    /// Batches by the share of their slots that is used: up to a quarter, to a half, to three quarters, more, and all.
    pub fills: [u64; 5],
    /// Calls that waited by name and cause, as they first came.
    pub waits: Vec<Waits>,
    /// Calls with an error by name and error, as they first came.
    pub errors: Vec<Errors>,
}

impl Sums {
    /// Of no calls. It takes no memory; own.
    pub fn new(alloc: Global) -> Sums
        ensures { tally_by result ≡ no_tally }
    {
        Sums {
            deferred: 0,
            synchronised: 0,
            answered: 0,
            batches: 0,
            ends: [0; 4],
            fills: [0; 5],
            waits: Vec::new(alloc),
            errors: Vec::new(alloc),
        }
    }

    /// How many calls there are; own. A count that would be too great for 64 bits stands still at the greatest number.
    pub fn calls(&self) -> u64 {
        self.deferred
            .saturating_add(self.synchronised)
            .saturating_add(self.answered)
    }

    /// Adds an entry of a trace with batches of so many slots. After NoMemory the sums are those of no trace; own.
    pub fn add(&mut self, entry: &Entry, size: u32) -> Result<(), NoMemory>
        requires { HasRoom (tally_by self.old) }
        ensures { OnOk result
            (tally_by self.new ≡ with_entry (tally_by self.old) (seen entry.now)) }
    {
        let name = call_name(&entry.call);
        if let Some(error) = entry.error {
            add_error(&mut self.errors, name, error)?;
        }
        if let Fate::Waits(cause) = entry.fate {
            add_wait(&mut self.waits, name, cause)?;
        }
        self.count(entry.fate);
        self.add_end(entry.ended, size);
        self.add_end(entry.sent, size);
        Ok(())
    }

    /// Counts a call of which this becomes.
    fn count(&mut self, fate: Fate)
        requires { HasRoom (tally_by self.old) }
        ensures { tally_by self.new ≡ with_class_in (tally_by self.old) (class_in_fate fate) }
    {
        match fate {
            Fate::Answered => self.answered += 1,
            Fate::PutOff { .. } => self.deferred += 1,
            Fate::Waits(_) => self.synchronised += 1,
        }
    }

    /// Adds the end of a batch of so many slots, if there is one; own.
    pub fn add_end(&mut self, end: Option<BatchEnd>, size: u32)
        requires { self.old.batches < 2 ^ 62 }
        ensures { tally_by self.new ≡ with_end (tally_by self.old) end }
    {
        if let Some(end) = end {
            self.batches += 1;
            raise(&mut self.ends[place_of(end.why)]);
            raise(&mut self.fills[fill_of(end.slots, size)]);
        }
    }
}

/// Adds a call of this name that waited for this cause.
fn add_wait(waits: &mut Vec<Waits>, name: &'static str, cause: Cause) -> Result<(), NoMemory> {
    for wait in waits.iter_mut() {
        if wait.name == name && is_same(wait.cause, cause) {
            raise(&mut wait.count);
            return Ok(());
        }
    }
    waits.push(Waits {
        name,
        cause,
        count: 1,
    })?;
    Ok(())
}

/// Adds an error of a call of this name.
fn add_error(
    errors: &mut Vec<Errors>,
    name: &'static str,
    recorded: Recorded,
) -> Result<(), NoMemory> {
    let first = u64::from(recorded.before.is_none());
    for error in errors.iter_mut() {
        if error.name == name && error.error == recorded.error {
            raise(&mut error.count);
            error.recorded = error.recorded.saturating_add(first);
            return Ok(());
        }
    }
    errors.push(Errors {
        name,
        error: recorded.error,
        count: 1,
        recorded: first,
    })?;
    Ok(())
}

/// Adds one to a count, which stands still at its greatest number.
fn raise(count: &mut u64) {
    *count = count.saturating_add(1);
}

/// The sums of the calls on the lines of a context of this number and of these sides, with batches of so many slots; own. The
/// four numbers are those of a report's line of counts.
pub fn sums_of<T: Threads + Sync>(
    rt: &T,
    alloc: Global,
    size: u32,
    context: u32,
    spec: ContextSpec,
    lines: &[Line],
) -> Result<Sums, NoMemory>
    requires size { IsBatchSize size }
    requires context { context < 4 }
    requires spec { IsContext spec }
    requires few { length lines.now ≤ most_lines }
    requires lines { All IsLine lines.now }
    ensures { IfOk result (λ sums. tally_by sums
        ≡ tally_of size (calls_of size context (scripted spec lines.now))) }
{
    let mut trace = Trace::new(alloc, size, context, spec, lines)?;
    let mut sums = Sums::new(alloc);
    while let Some(entry) = trace.next(rt)? {
        sums.add(&entry, size)?;
    }
    sums.add_end(trace.end(), size);
    Ok(sums)
}

/// Whether two causes are the same, whatever the slots.
fn is_same(one: Cause, other: Cause) -> bool {
    match (one, other) {
        (Cause::TooLong { .. }, Cause::TooLong { .. }) => true,
        _ => one == other,
    }
}

/// The place of an end among the ends.
fn place_of(why: Why) -> usize
    ensures { result < 4 }
{
    match why {
        Why::Full => 0,
        Why::Sent => 1,
        Why::Waits => 2,
        Why::NoMore => 3,
    }
}

/// The place of a share among the shares.
fn fill_of(slots: u64, size: u32) -> usize
    ensures { result < 5 }
{
    let size = u64::from(size);
    if slots >= size {
        4
    } else if 4 * slots > 3 * size {
        3
    } else if 2 * slots > size {
        2
    } else if 4 * slots > size {
        1
    } else {
        0
    }
}
