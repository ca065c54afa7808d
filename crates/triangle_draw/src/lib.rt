//! A draw: the triangles of its vertices, put into a frame.
#![tactic(auto)]

mod area;
mod drawing;
mod elements;
mod fragments;
pub mod laws;
mod rows;
mod textured;
mod triangles;
mod unit;

pub use drawing::Drawing;
pub use elements::Elements;
pub use triangles::draw;
pub use unit::Unit;
