//! The source meaning: what the tasks of a system do, visible step by visible step, over one store; and whole runs of it, with
//! ticks at stated placements.
#![tactic(auto)]

mod begin;
mod common;
mod kept;
mod laws;
mod moves;
mod run;
mod state;
mod system;

pub use begin::SourceTask;
pub use laws::{
    answers_serve, steps_access_one_location, steps_leave_other_tasks, steps_touch_one_location,
};
pub use run::{Reached, are_placements, run_system, source_run};
pub use state::SourceState;
