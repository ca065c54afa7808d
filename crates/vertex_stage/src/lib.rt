//! The vertices of a draw: read from arrays, transformed, and put together to triangles.
#![tactic(auto)]

pub mod laws;
mod memories;
mod number;
mod stage;
mod triangles;
mod vertex;

pub use memories::{Memories, Numbered};
pub use stage::{Stage, Texturing};
pub use triangles::{Triple, triangle, triangle_count};
