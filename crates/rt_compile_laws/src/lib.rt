//! What `compile` promises of texts and of code. There is no code here but functions that do nothing, whose contracts are the laws.
//!
//! - `specs/Objects.antt`: the typed tree of a text has an object, or a procedure whose code is too long.
//! - `specs/Long.antt`: that can be only one with more than 1,363 items; the support code has at most 2,048 bytes.
//! - `specs/Faults.antt`: a text has one fault.
//! - `specs/Kept.antt`: what the bricks of an object keep of its ranges.
#![tactic(auto)]

mod kept;
mod laws;

pub use kept::{data_are_low, procedures_are_low, stacks_are_low, strings_are_low};
pub use laws::{
    fitting_trees_are_compiled, long_code_is_large, long_texts_are_large, support_is_small,
    texts_are_compiled, texts_have_one_fault,
};
