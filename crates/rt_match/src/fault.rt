//! Why modules don't match.

use rt_words::{Bytes, Memory, Name};
use thiserror::Error;

/// Why modules don't match. Modules are numbered from 1, and bricks are known by their names.
#[derive(Debug, Drop, Error)]
pub enum MatchFault {
    #[error("out of memory")]
    Memory,
    /// An ENT brick whose name an earlier ENT brick has.
    #[error("two ENT bricks have one name")]
    Duplicate {
        brick: Name,
    },
    /// An EXT brick whose name no ENT brick has.
    #[error("module {module}: an EXT brick is in no module")]
    Missing {
        module: u16,
        brick: Name,
    },
    /// An EXT or SVC brick, and what it names, differ: the full mode that the module itself gives, and the one of what was found.
    #[error("module {module}: a brick is found with another mode")]
    Mismatch {
        module: u16,
        brick: Name,
        wanted: Bytes,
        found: Bytes,
    },
    /// An SVC brick whose name isn't supplied.
    #[error("module {module}: an SVC brick isn't supplied")]
    NotSupplied {
        module: u16,
        brick: Name,
    },
}

impl From<Memory> for MatchFault {
    ghost use Rattle.std.specs.Prelude.{◌≡◌};
    ghost use Rattle.rt_match.specs.declared.fault.MatchFault.TheVariants as fault;

    ghost from_gives = { λ _ made. made ≡ fault.Memory };

    fn from(_memory: Memory) -> MatchFault {
        MatchFault::Memory
    }
}
