//! What it means that the machine follows the source: where everything of an image lies (`specs/Whole.antt`), that a task of the machine
//! follows a task of the source whatever the others do (`specs/Follows.antt`), and that a procedure's code runs, given what comes after
//! its return (`specs/Runs.antt`). There is no code here but functions that do nothing, whose contracts are the laws;
//! `specs/Laws.antt` has their statements.
#![tactic(auto)]

mod laws;

pub use laws::{calls_go_through, numbers_are_passed, parameters_may_change, tasks_follow};
