//! The call graph of a system of objects, the exact needs of its procedures, and the roots and stacks of its tasks.
//!
//! `specs/Calls.antt` has the procedures of a system, the candidates of a mode, and the edges; `specs/Reach.antt` what roots reach
//! and the cycles there; `specs/Needs.antt` the words that a procedure needs; `specs/Tasks.antt` the roots and stacks of tasks.
#![tactic(auto)]

mod classes;
mod fault;
mod laws;
mod members;
mod nodes;
mod places;
mod reached;
mod row;
mod sorting;
mod stacks;
mod sums;
mod table;
mod taken;
mod tasks;

pub use fault::GraphFault;
pub use laws::{needs_are_exact, reached_is_closed, some_are_always_candidates, stacks_are_exact};
pub use members::candidates;
pub use places::bound_at;
pub use reached::Order;
pub use rt_tree_nodes::Proc;
pub use sorting::order;
pub use stacks::{check_stacks, is_same, told_need};
pub use sums::needs;
pub use tasks::{entry_named, root_named, roots, stack_named};
