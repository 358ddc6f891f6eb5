//! What the templates keep. There is no code here but functions that do nothing, whose contracts are the laws; `specs/Laws.antt`
//! has their statements.
#![tactic(auto)]

mod laws;

pub use laws::{
    addresses_are_filled, code_is_within, marks_are_small, support_is_short, templates_stand,
};
