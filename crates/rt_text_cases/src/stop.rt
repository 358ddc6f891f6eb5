//! Why a line isn't answered.

use rt_words::Memory;
use std::alloc::AllocError;

/// Why a line isn't answered.
#[derive(Clone, Copy, Drop)]
pub enum Stop {
    /// Want of memory.
    Memory,
    /// The line can't be read.
    Line,
}

impl From<Memory> for Stop {
    fn from(_error: Memory) -> Stop {
        Stop::Memory
    }
}

impl From<AllocError> for Stop {
    fn from(_error: AllocError) -> Stop {
        Stop::Memory
    }
}
