//! Which procedures of a typed module stand as values or as starts.
//!
//! `specs/Taken.antt` has the definition, over the list of such names with repetitions (`rt_tree`, Taken).

pub mod conditions;
pub mod module;
pub mod starts;
pub mod statements;
pub mod values;
