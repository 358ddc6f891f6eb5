//! What is left open of a linked system, and what comes of it: its image is that of its modules.
#![tactic(auto)]

mod laws;

pub use laws::{
    accepted_are_imaged, linked_are_imaged, objects_make_systems, systems_are_built,
    systems_are_imaged, systems_are_owed, systems_lie_right,
};
