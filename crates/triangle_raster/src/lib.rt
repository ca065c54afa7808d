//! Which pixels of an area a triangle covers, each once, with its depth and ten values, in exact integers.
#![tactic(auto)]

mod arithmetic;
mod carry;
mod columns;
mod edge;
mod extent;
mod fragment;
pub mod laws;
mod near;
pub mod plain;
mod rates;
mod row;
mod run;
mod setup;
mod shaded;
mod shape;
mod span;
mod steps;
mod sums;
mod vertex;
mod walk;

pub use extent::Extent;
pub use fragment::{Fragment, Spot};
pub use row::Row;
pub use run::Run;
pub use setup::Setup;
pub use shaded::Shaded;
pub use vertex::{Area, Vertex, View};
