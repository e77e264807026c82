//! Want of memory, the one refusal that no contract ties to a cause.

use std::alloc::{AllocError, AllocFailed};
use thiserror::Error;

/// A growth was refused. The value that was to grow is as it was before the call.
#[derive(Clone, Copy, Debug, PartialEq, Eq, Error)]
#[error("want of memory")]
pub struct Memory;

impl From<AllocError> for Memory {
    fn from(_refused: AllocError) -> Memory {
        Memory
    }
}

impl<T: Drop> From<AllocFailed<T>> for Memory {
    fn from(_refused: AllocFailed<T>) -> Memory {
        Memory
    }
}
