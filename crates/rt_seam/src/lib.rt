//! The seam between a linked system's layout and its code.
#![tactic(auto)]

mod laws;

pub use laws::{
    addresses_are_those, procs_are_lowered, rrgel_was_reached, support_is_at, systems_are_built,
    systems_are_imaged_so,
};
