//! The matrices and matrix stacks of OpenGL ES 1.1 in 16.16 fixed point, with exact integer values.
#![tactic(auto)]

mod angle;
mod arithmetic;
mod axis;
pub mod laws;
mod matrix;
mod projection;
mod stack;
mod turning;

pub use matrix::Matrix;
pub use projection::{frustum, ortho};
pub use stack::{Bottom, Full, Stack};
pub use turning::rotation;
