//! Graphs of numbered nodes: an order of the nodes that roots reach, in which each stands behind its successors, or a cycle; and of each
//! node whether it lies on a cycle.
//!
//! `specs/Walks.antt` has the definitions over edges of any kind: walks, what is reached, cycles, orders. `specs/Digraph.antt` has
//! them for a graph that is a list, with the list of each node's successors at its place. `specs/Rings.antt` has which nodes lie on cycles.
#![tactic(auto)]

mod alone;
mod numbers;
mod rings;
mod sorting;
mod walk;

pub use rings::mark_cycles;
pub use sorting::{Sorted, sort};
