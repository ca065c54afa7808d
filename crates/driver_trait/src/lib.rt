//! What drivers are: what a call answers and where that is written, and the laws of drivers.
#![tactic(auto)]

mod calls;
mod driver;
pub mod laws;
mod output;
mod recorder;
mod reply;

pub use calls::{Calls, Plainly, Waiting};
pub use driver::{Driver, Machine, WaitDriver};
pub use output::write_reply;
pub use recorder::Recorder;
pub use reply::Reply;
