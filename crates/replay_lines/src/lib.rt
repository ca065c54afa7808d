//! Runs the lines of a script through a front, over any driver and rail, and tells what they told.
#![tactic(auto)]

mod lines;
mod results;

pub use lines::{run_lines, wait_run_lines};
pub use results::{Done, Printed, Results, What, answer_of, image_of};
