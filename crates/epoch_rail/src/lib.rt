//! A rail whose batches a worker carries out, an interval at a time.
#![tactic(auto)]

mod caller;
mod carry;
mod crew;
mod ends;
mod launch;
mod maker;
mod parts;
mod rail;
mod rings;
mod stage;
mod starts;
mod work;
mod worker;

pub use crew::{Begun, Crew, Interval, start};
pub use parts::{EpochMaker, EpochPart};
pub use rail::EpochRail;
pub use starts::Starts;
pub use work::Work;
