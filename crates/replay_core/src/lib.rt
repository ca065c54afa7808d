//! Replays scripts: the direct machine, runs over rails, the report and the images, and the top call with its theorem.
#![tactic(auto)]

mod deliver;
mod image;
mod plain;
mod rail;
mod reporting;
mod run;
#[cfg(test)]
mod tests;
mod top;
mod ways;

pub use image::{ImageFile, files, frame_file};
pub use plain::{DirectRun, direct};
pub use reporting::{direct_report, report};
pub use top::{replay, replay_alone};
