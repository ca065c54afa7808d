//! Sums as text, for people. Programs are given them by names, which is the program's to do.

use crate::fate::Why;
use crate::spelled::{error_name, write_count};
use crate::sums::Sums;
use std::fmt;

/// Sums beside the size of batches in slots, without the last line end; own.
#[derive(Clone, Copy)]
pub struct SumsText<'a> {
    pub sums: &'a Sums,
    pub size: u32,
}

/// The ends of batches, in the order of the sums.
static ENDS: [Why; 4] = [Why::Full, Why::Sent, Why::Waits, Why::NoMore];

/// The shares of their slots, in the same order.
static FILLS: [&str; 5] = [
    "up to a quarter",
    "more than a quarter",
    "more than half",
    "more than three quarters",
    "all",
];

impl fmt::Display for SumsText<'_> {
    fn fmt<W: fmt::Write>(&self, f: &mut fmt::Formatter<W>) -> fmt::Result {
        let Sums {
            deferred,
            synchronised,
            answered,
            batches,
            ..
        } = self.sums;
        write_count(f, self.sums.calls(), "call")?;
        write!(
            f,
            ": {deferred} put off, {synchronised} waited, {answered} answered by the shadow\n"
        )?;
        let size = self.size;
        let noun = if *batches == 1 { "batch" } else { "batches" };
        write!(f, "{batches} {noun} of {size} slots")?;
        for (count, why) in self.sums.ends.iter().zip(ENDS.iter()) {
            write_named(f, "ended", why, *count)?;
        }
        for (count, fill) in self.sums.fills.iter().zip(FILLS.iter()) {
            write_named(f, "used", fill, *count)?;
        }
        for wait in self.sums.waits.iter() {
            let name = wait.name;
            let count = wait.count;
            let reason = wait.cause.reason();
            write!(f, "\nwaited: {name}, {count}: {reason}")?;
        }
        for errors in self.sums.errors.iter() {
            let name = errors.name;
            let count = errors.count;
            let error = error_name(errors.error);
            let recorded = errors.recorded;
            write!(
                f,
                "\nerror: {name}, {count}: {error}, {recorded} of them recorded"
            )?;
        }
        Ok(())
    }
}

/// Writes a count with its name, unless it is zero.
fn write_named<W: fmt::Write, D: fmt::Display>(
    f: &mut fmt::Formatter<W>,
    verb: &str,
    name: &D,
    count: u64,
) -> fmt::Result {
    if count > 0 {
        write!(f, "\n{verb} {name}: {count}")?;
    }
    Ok(())
}
