//! A driver small enough to be read in one go, for authors of drivers: it counts clears. It draws nothing.
#![tactic(auto)]

mod counter;
mod session;
mod through;

pub use counter::Counter;
pub use session::two_clears;
pub use through::told_through;
