//! The image of a linked system, and what of `Imaged` its layout gives.
#![tactic(auto)]

mod laws;

pub use laws::{
    code_stands, entries_do_stand, fixed_are_laid, parts_of_tasks_sit, procs_are_compiled,
    relocations_resolve, roots_are_roots, systems_are_imaged_by, systems_are_imaged_if,
    systems_are_laid, systems_lie, tasks_have_room, trees_of_modules,
};
