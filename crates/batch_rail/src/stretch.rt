//! How batches without slots are kept: by their number, so that they take no memory.

/// A batch with slots, and those without slots right before it; own.
#[derive(Clone, Copy)]
pub(crate) struct Stretch {
    /// How many batches without slots stand before it.
    pub(crate) empty: u64,
    /// How many slots it has.
    pub(crate) slots: u64,
}
