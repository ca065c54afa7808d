//! The renderer: a driver that carries calls out by itself, in memory, with integers alone.
#![tactic(auto)]

mod book;
mod drawing;
pub mod laws;
mod memories;
mod reading;
mod soft;

pub use book::{Book, Kept};
pub use fragment_ops::Frame;
pub use soft::Soft;
