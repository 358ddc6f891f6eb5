//! What guarded data are: the points of procedures between two steps, which facilities are held and may be held there,
//! the tests of guarded data, and the verdict (`specs/Verdicts.antt`).
//!
//! There is no code here but a function that does nothing, whose contract is the laws.
#![tactic(auto)]

mod laws;

pub use laws::families_and_verdicts_are_one;
