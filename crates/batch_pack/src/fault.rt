//! What packing and reading refuse.

use thiserror::Error;

/// The call's spelling is longer than the slots left in the batch.
#[derive(Clone, Copy, Debug, Error, PartialEq, Eq)]
#[error("the batch is full")]
pub struct Full;

/// The slots are no list of spellings.
#[derive(Clone, Copy, Debug, Error, PartialEq, Eq)]
#[error("the slots are no spellings of calls")]
pub struct BadSlots;
