//! Why a text is refused.

ghost use Rattle.std.specs.Prelude.{◌≡◌};
ghost use Rattle.rt_system.specs.declared.fault.LineFault.TheVariants as fault;

use thiserror::Error;

/// Why a text isn't read. Lines are numbered from 1.
#[derive(Debug, Clone, Copy, Drop, Error)]
pub enum LineFault {
    #[error("out of memory")]
    Memory,
    /// The first line that breaks a rule.
    #[error("line {line} breaks a rule")]
    BadLine { line: u32 },
    /// The first line that names an object, where objects aren't taken.
    #[error("line {line} names an object")]
    ObjectLine { line: u32 },
}

impl From<rt_words::Memory> for LineFault {
    ghost from_gives = { λ memory made. made ≡ fault.Memory };

    fn from(_memory: rt_words::Memory) -> LineFault {
        LineFault::Memory
    }
}
