//! The faults of a module, and which of several counts (BS 5904, expressions and modes).
//!
//! A [`CheckFault`] is what can be wrong at an item, by its number from 20 to 29, or that memory ran out, or that a thing
//! can't be known since a declaration is unfit. `specs/Outcomes.antt` has the order of faults (the least item, and at one
//! item the least number), what is answered of parts that are judged apart ([`both`], [`after`]), and what an answer says of
//! the faults that stand (`Settles`).
#![tactic(auto)]

mod fault;

pub use fault::{CheckFault, after, both, or_other};
