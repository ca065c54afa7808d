//! What is to be said of a script beyond its report: each call as the direct machine meets it, and sums of these.
#![tactic(auto)]

mod direct;
mod entry;
mod entry_text;
mod error_numbers;
mod fate;
mod here;
pub mod laws;
mod length;
mod names;
mod open_batch;
mod spelled;
mod sums;
mod sums_text;
mod trace;
mod waiting;

pub use entry::{Entry, Recorded};
pub use entry_text::{EndLine, EntryLine};
pub use fate::{BatchEnd, Cause, Fate, Why};
pub use names::NumberNames;
pub use spelled::{error_name, write_count};
pub use sums::{Errors, Sums, Waits, sums_of};
pub use sums_text::SumsText;
pub use trace::Trace;
