//! The frame, and what fragments and Clear make of its cells.
#![tactic(auto)]

mod area;
mod blend;
mod cell;
mod clear;
mod comparison;
mod frame;
pub mod laws;
mod over;
mod place;
mod run;
mod state;

pub use cell::Cell;
pub use frame::Frame;
pub use place::Place;
pub use state::{FragmentState, byte};
