//! What it means that linked images are imaged, as `specs/Imaging.antt` states it: for whoever proves it, and for whoever needs it.
#![tactic(auto)]

mod laws;

pub use laws::tasks_are_those;
