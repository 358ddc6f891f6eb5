//! Why a text is refused.

ghost use Rattle.std.specs.Prelude.{◌≡◌};
ghost use Rattle.rt_replay.specs.declared.fault.ReportFault.TheVariants as fault;

use thiserror::Error;

/// Why a report isn't read. Lines are numbered from 1.
#[derive(Debug, Clone, Copy, Drop, Error)]
pub enum ReportFault {
    #[error("out of memory")]
    Memory,
    /// The first line that isn't in its place. Where the text ends too early, it is the one past the end.
    #[error("line {line} isn't in its place")]
    BadReport { line: u32 },
}

impl From<rt_words::Memory> for ReportFault {
    ghost from_gives = { λ memory made. made ≡ fault.Memory };

    fn from(_memory: rt_words::Memory) -> ReportFault {
        ReportFault::Memory
    }
}
