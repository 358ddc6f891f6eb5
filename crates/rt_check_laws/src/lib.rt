//! Laws of the checker's answers: each module has its typed tree or a fault that counts, what stands is known, and modes of one module are told apart by
//! their full modes (BS 5904, modes). There is no code here but functions that do nothing, whose contracts are the laws.
//!
//! `specs/Laws.antt` has the statements. That a module never has both a tree and a fault, and that it has one tree alone, is
//! `rt_check::one_tree`.
#![tactic(auto)]

mod laws;

pub use laws::{each_module_is_judged, full_modes_are_modes, what_stands_is_known};
