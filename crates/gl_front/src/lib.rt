//! The layer between a program and a driver: calls are put into batches, a rail carries them out.
#![tactic(auto)]

mod counts;
mod front;
mod plain_front;
mod reach;
mod steps;
mod wait_front;

pub use counts::Counts;
pub use front::Core;
pub use plain_front::Front;
pub use reach::Reach;
pub use wait_front::WaitFront;
