//! Textures: their texels, what is read of them at a coordinate, and what a texel makes of a fragment's colour.
#![tactic(auto)]

mod coordinate;
mod environment;
mod format;
pub mod laws;
mod linear;
mod part;
mod place;
mod sampling;
mod side;
mod texture;

pub use environment::{EnvMode, combine};
pub use format::Format;
pub use sampling::{MinFilter, Sampling};
pub use side::is_side;
pub use texture::{Texture, sample};
