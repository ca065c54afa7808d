//! The numbers of a front's calls and batches.

/// How many calls of each class a front took, and how many batches it submitted; own. A call
/// that is refused isn't counted. No bound is kept: `issue`, `defer`, `flush` and `finish` ask that each
/// number has room, by their conditions.
#[derive(Clone, Copy, Debug, PartialEq, Eq)]
pub struct Counts {
    /// Calls of class Defer, which were put off.
    pub deferred: u64,
    /// Calls of class Sync, which waited.
    pub synchronised: u64,
    /// Calls of class Answer, which tracked state answered.
    pub answered: u64,
    /// Batches submitted: by a call up to two.
    pub batches: u64,
}
