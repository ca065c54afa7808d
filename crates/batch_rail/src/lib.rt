//! Rails: what takes full batches to a driver. Makers make them and take them back.
#![tactic(auto)]

mod batches;
mod inline;
mod journal;
mod kept;
mod kept_maker;
mod maker;
mod part;
mod rail;
mod run;
mod stretch;

pub use batches::Batches;
pub use inline::{InlineMaker, InlinePart, InlineRail};
pub use kept::JournalRail;
pub use kept_maker::{JournalMaker, JournalPart};
pub use maker::{RailKind, RailMaker};
pub use part::{RailLender, RailUser, WaitMaker, WaitPart};
pub use rail::{Rail, RailState, WaitRail};
pub use run::run_batch;
