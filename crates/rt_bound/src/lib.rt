//! To what bricks are bound, by the linker as by the meaning.
#![tactic(auto)]

mod laws;

pub use laws::{
    bricks_are_bound_alike, faces_lie_alike, modules_match, modules_match_so, procs_are_led,
    signatures_are_those_of_trees, svc_full_modes_tell, systems_are_bound, systems_are_imaged_so,
};
