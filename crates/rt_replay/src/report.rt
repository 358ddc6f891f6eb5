//! What the report of a run says.

use rt_rules::State;
use rt_words::{List, Name};

/// A task of a run, and its condition where the run ended.
#[derive(Drop)]
pub struct ReportedTask {
    pub name: Name,
    pub state: State,
}

/// What the report of a run says of its steps.
#[derive(Drop)]
pub struct Report {
    /// The visible steps.
    pub steps: u64,
    /// The tasks, in the order of their numbers.
    pub tasks: List<ReportedTask>,
    /// For each tick that was taken the visible steps before it.
    pub placements: List<u64>,
}
