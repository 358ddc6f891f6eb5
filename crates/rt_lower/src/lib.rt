//! Procedures of typed modules as intermediate code, and where the data of a typed module lie: the items of its data bricks, and the
//! fields of its records.
//!
//! `specs/Code.antt` has the definition, on the plain trees of procedures: `code_of`, one clause for each form of node. `specs/Values.antt`
//! has its part for values and places. `specs/Layouts.antt` says which offsets and sizes are right.
#![tactic(auto)]

mod draft;
mod laid;
mod layouts;
mod module;
mod site;
mod statements;
mod values;

pub use layouts::Layouts;
pub use module::{lower, lower_by};
pub use site::Site;
