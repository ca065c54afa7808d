//! The pieces of client memory that draws, matrices, uploads, images, colours and deletions read. Nothing here takes memory.
#![tactic(auto)]

mod bytes;
mod draw;
mod elements;
mod image;
pub mod laws;
mod matrix;
mod part;

pub use bytes::{pieces_of_bytes, pieces_of_data, pieces_of_names};
pub use draw::pieces_of_draw;
pub use elements::pieces_of_elements;
pub use image::{pieces_of_colour, pieces_of_image, pieces_of_subimage};
pub use matrix::pieces_of_matrix;
