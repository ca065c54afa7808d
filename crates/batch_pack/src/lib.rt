//! Calls spelled in slots of eight bytes, and batches of them.
#![tactic(auto)]

mod batch;
mod decoder;
mod fault;
mod laws;
mod packed;
mod reader;
mod segments;
mod spelling;
mod writer;

pub use batch::Batch;
pub use fault::{BadSlots, Full};
pub use laws::spelling_law;
pub use packed::Packed;
pub use reader::{Reader, parse};
pub use segments::Segments;
pub use spelling::{Heading, heading_of};
