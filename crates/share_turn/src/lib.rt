//! A lock with a history: seats take turns at a value, and no entry of it is lost or reordered.
#![tactic(auto)]

mod annals;
pub mod laws;
mod pairs;
mod rule;
mod seat;
mod steps;
mod turn;
mod view;

pub use annals::Annals;
pub use pairs::{Pairs, append_in_turn};
pub use seat::TurnSeat;
pub use turn::{NoMemory, Turn};
