//! Why a system isn't linked.

use rt_graph::GraphFault;
use rt_match::MatchFault;
use rt_words::Memory;
use thiserror::Error;

/// The first test that a system fails.
#[derive(Debug, Drop, Error)]
pub enum LinkFault {
    #[error("out of memory")]
    Memory,
    /// The objects don't match.
    #[error("{0}")]
    Unmatched(MatchFault),
    /// A task has no root or no stack of its own, what the roots reach lies on a cycle, or a stack has too few words.
    #[error("{0}")]
    Refused(GraphFault),
    /// The parts of the system have so many bytes, more than the memory.
    #[error("{bytes} bytes where the memory has 57344")]
    NoRoom { bytes: u64 },
}

impl From<Memory> for LinkFault {
    ghost use Rattle.std.specs.Prelude.{◌≡◌};
    ghost use Rattle.rt_link.specs.declared.fault.LinkFault.TheVariants as fault;

    ghost from_gives = { λ _ made. made ≡ fault.Memory };

    fn from(_memory: Memory) -> LinkFault {
        LinkFault::Memory
    }
}

impl From<MatchFault> for LinkFault {
    ghost use Rattle.std.specs.Prelude.{◌≡◌};
    ghost use Rattle.rt_link.specs.Faults.{of_match};

    ghost from_gives = { λ fault made. made ≡ of_match fault };

    fn from(fault: MatchFault) -> LinkFault {
        match fault {
            MatchFault::Memory => LinkFault::Memory,
            _ => LinkFault::Unmatched(fault),
        }
    }
}

impl From<GraphFault> for LinkFault {
    ghost use Rattle.std.specs.Prelude.{◌≡◌};
    ghost use Rattle.rt_link.specs.Faults.{of_graph};

    ghost from_gives = { λ fault made. made ≡ of_graph fault };

    fn from(fault: GraphFault) -> LinkFault {
        match fault {
            GraphFault::Memory => LinkFault::Memory,
            _ => LinkFault::Refused(fault),
        }
    }
}
