//! What the tasks of a system have in common.

use crate::kept::KeptRules;
use rt_words::List;
use rt_work_state::ModuleStore;

/// The rules, the store, and the number of bytes of the console that were taken.
#[derive(Drop)]
pub struct Common {
    pub rules: KeptRules,
    pub store: List<ModuleStore>,
    pub taken: u64,
}
