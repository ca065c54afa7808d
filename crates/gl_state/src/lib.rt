//! The private state of a context: all that calls set, but objects and pixels; and what a call does to it.
#![tactic(auto)]

mod ask;
mod gets;
mod images;
mod plan;
mod planning;
mod private;
mod settings;
mod stacks;

pub use ask::Ask;
pub use images::mode_of;
pub use plan::Plan;
pub use private::Private;
pub use settings::{Capabilities, Settings};
