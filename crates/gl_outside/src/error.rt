// What the outside refuses. Why it did, no value says: the system's own words are lost.
ghost use Rattle.std.specs.Prelude.{◌≡◌};
ghost use Rattle.gl_outside.specs.declared.error.OutError.TheVariants.{NoMemory};
ghost use Rattle.gl_outside.specs.declared.error.ReadError.TheVariants.{Failed as ReadFailed, NoMemory as NoMemoryToRead};

use std::alloc::{AllocError, AllocFailed};
use thiserror::Error;

/// A read that failed.
#[derive(Clone, Copy, Debug, PartialEq, Eq, Error)]
#[error("the source failed")]
pub struct Failed;

/// A write or a put that did not happen: the object failed and its count of faults rose, or a request
/// for memory was refused.
#[derive(Clone, Copy, Debug, PartialEq, Eq, Error)]
pub enum OutError {
    #[error("the object failed")]
    Failed,
    #[error("out of memory")]
    NoMemory,
}

impl From<AllocError> for OutError {
    ghost from_gives = { λ _ e. e ≡ NoMemory };

    fn from(_: AllocError) -> Self {
        OutError::NoMemory
    }
}

impl<T: Drop> From<AllocFailed<T>> for OutError {
    ghost from_gives = { λ _ e. e ≡ NoMemory };

    fn from(_: AllocFailed<T>) -> Self {
        OutError::NoMemory
    }
}

/// A reading to the end that was not finished: the source failed and its count of faults rose, or a
/// request for memory was refused.
#[derive(Clone, Copy, Debug, PartialEq, Eq, Error)]
pub enum ReadError {
    #[error("the source failed")]
    Failed,
    #[error("out of memory")]
    NoMemory,
}

impl From<Failed> for ReadError {
    ghost from_gives = { λ _ e. e ≡ ReadFailed };

    fn from(_: Failed) -> Self {
        ReadError::Failed
    }
}

impl From<AllocError> for ReadError {
    ghost from_gives = { λ _ e. e ≡ NoMemoryToRead };

    fn from(_: AllocError) -> Self {
        ReadError::NoMemory
    }
}
