//! What the program is told to do. Which words say so is told in `words.rt`.

use batch_rail::RailKind;

/// What the program is told to do; own.
#[derive(Clone, Copy, Debug, PartialEq, Eq)]
pub enum Command {
    /// A run through the layer.
    Run {
        /// The slots of a batch, 16 to 8192.
        batch: u32,
        /// The batches of a ring, 1 to 64.
        ring: u32,
        /// How batches are carried out.
        rail: RailKind,
    },
    /// A run by direct calls.
    Direct,
}
