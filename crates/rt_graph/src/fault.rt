//! What is wrong with a system's calls or tasks.

use rt_tree_nodes::Proc;
use rt_words::{List, Memory, Name};
use thiserror::Error;

/// Why a system is refused.
#[derive(Debug, Drop, Error)]
pub enum GraphFault {
    #[error("out of memory")]
    Memory,
    /// A procedure that a root reaches lies on a cycle of calls, which begins and ends with the first such procedure.
    #[error("recursion")]
    Recursion { cycle: List<Proc> },
    /// A task's stack has fewer words than its root needs.
    #[error("a stack of {has} words where {need} are needed")]
    SmallStack { task: Name, need: u32, has: u16 },
    /// A task's root is no procedure that may be one, or its stack is none of its own.
    #[error("line {line}: no root, or no stack of its own")]
    BadTask { line: u32 },
}

impl From<Memory> for GraphFault {
    ghost use Rattle.std.specs.Prelude.{◌≡◌};
    ghost use Rattle.rt_graph.specs.declared.fault.GraphFault.TheVariants as fault;

    ghost from_gives = { λ _ made. made ≡ fault.Memory };

    fn from(_memory: Memory) -> GraphFault {
        GraphFault::Memory
    }
}
