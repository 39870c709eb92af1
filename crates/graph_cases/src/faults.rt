// Why a line can't be read or done.
use shared_types::OutOfMemory;
use std::alloc::{AllocError, AllocFailed};
use thiserror::Error;

/// Why a line of a script can't be read, or what it says can't be done.
#[derive(Clone, Copy, Debug, Error)]
pub enum LineError {
    /// It isn't as it is to be, and how.
    #[error("{0}")]
    Faulty(&'static str),
    /// Memory ran out.
    #[error("out of memory")]
    Memory,
}

impl From<OutOfMemory> for LineError {
    fn from(_: OutOfMemory) -> Self {
        LineError::Memory
    }
}

impl From<AllocError> for LineError {
    fn from(_: AllocError) -> Self {
        LineError::Memory
    }
}

impl<T: Drop> From<AllocFailed<T>> for LineError {
    fn from(_: AllocFailed<T>) -> Self {
        LineError::Memory
    }
}
