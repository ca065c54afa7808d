//! The words of the command line, how a run ends, the lines of the report, and the images: what is read and shown as text.
#![tactic(auto)]

mod asked;
mod image;
mod name;
mod status;
mod text;
mod words;

pub use asked::Command;
pub use image::{ppm, ppm_of_cells};
pub use name::{frame_name, image_name};
pub use status::{Status, exit_code};
pub use text::Text;
pub use words::{command, rail_of};
