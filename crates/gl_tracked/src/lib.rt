//! The part of a context's state that the layer keeps as well: what it is, which errors it shows, and what calls do to it.
#![tactic(auto)]

mod arrays;
mod element;
mod enumerants;
mod fault;
mod finding;
mod gets;
mod images;
mod indices;
mod names;
mod textures;
mod tracked;

pub use finding::Finding;
pub use images::{image_length, pitch_of, side_of, texel_size};
pub use indices::{count_drawn, count_of, index_bytes, index_numbered};
pub use names::{binding_after, name_at};
pub use tracked::{ArrayState, Tracked};
