ghost use Rattle.std.specs.Prelude.{◌≡◌};
ghost use Rattle.rt_templates.specs.declared.fault.ExpandFault.TheVariants as fault;

use rt_words::Name;
use thiserror::Error;

/// Why a module has no code.
#[derive(Debug, Drop, Error)]
pub enum ExpandFault {
    /// The code of this procedure, the first such, has more than 16,383 words.
    #[error("the code of a procedure is too long")]
    ProcTooLong { proc: Name },
    #[error("no memory")]
    Memory,
}

impl From<rt_words::Memory> for ExpandFault {
    ghost from_gives = { λ memory made. made ≡ fault.Memory };

    fn from(_memory: rt_words::Memory) -> ExpandFault {
        ExpandFault::Memory
    }
}
