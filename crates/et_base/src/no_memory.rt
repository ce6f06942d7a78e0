//! Want of memory.

use std::alloc::{AllocError, AllocFailed};

/// An allocation was refused. What was asked for wasn't done.
#[derive(Clone, Copy, Debug, PartialEq, Eq)]
pub struct NoMemory {}

impl From<AllocError> for NoMemory {
    fn from(_refused: AllocError) -> NoMemory {
        NoMemory {}
    }
}

impl<T: Drop> From<AllocFailed<T>> for NoMemory {
    fn from(_refused: AllocFailed<T>) -> NoMemory {
        NoMemory {}
    }
}
