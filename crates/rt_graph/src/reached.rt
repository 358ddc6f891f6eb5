//! The reached procedures.

use rt_tree_nodes::Proc;
use rt_words::List;

/// The procedures that some roots reach, callees first.
#[derive(Drop)]
pub struct Order {
    pub procs: List<Proc>,
}
