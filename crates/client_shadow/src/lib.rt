//! What the layer keeps of a context's state by itself, and which class a call has by it.
#![tactic(auto)]

mod class;
pub mod laws;
mod look;
mod shadow;

pub use class::{Class, sends_batch};
pub use look::{Becomes, Look};
pub use shadow::Shadow;
