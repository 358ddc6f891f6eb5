use std::alloc::AllocError;
use thiserror::Error;

/// Memory was wanted and isn't there.
#[derive(Debug, Clone, Copy, Drop, Error)]
#[error("out of memory")]
pub struct Memory;

impl From<AllocError> for Memory {
    fn from(_error: AllocError) -> Memory {
        Memory
    }
}
