//! What one activation of a procedure does: its invisible work, and its next visible step.
//!
//! `specs/Task.antt` has the definition: the next visible step of what is still to be done.
#![tactic(auto)]

mod control;
mod numbers;
mod trees;
mod values;
mod work;

pub use work::advance;
