//! What bricks hold.

use rt_tree_nodes::{DataStart, ProcBody};
use rt_words::List;

/// What a brick of the module holds: a procedure's body, the starts of data, or nothing.
#[derive(Drop)]
pub struct Filling {
    pub body: Option<ProcBody>,
    pub starts: List<DataStart>,
}
