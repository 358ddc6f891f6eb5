//! What a module declares: the names of its one outermost scope, its records, and its bricks with their modes (BS 5904,
//! scopes, modes and bricks); and the fault that counts of each.
//!
//! - `specs/Written.antt` says which mode is written at a place, by the names that are seen there: a fold over what is
//!   written, whose result is the mode, or all faults that stand in it ([`resolve`], `specs/Verdicts.antt`). [`both`] and
//!   [`after`] join what is judged apart.
//! - `specs/Names.antt` has all names in their order, of which the first of each spelling counts, and a fault at each other
//!   one ([`declared_names`]).
//! - `specs/Fields.antt` has the names that are declared with a mode, and `specs/Records.antt` the MODEs of a module: a
//!   record that contains itself, or that is larger than 57,344 bytes, is a fault of its MODE, where that holds no other
//!   ([`read_records`]).
//! - `specs/Parts.antt` has what each name is declared with, `specs/Bricks.antt` the bricks in the order of declaration and
//!   the faults of their modes ([`read_bricks`]), `specs/Totals.antt` the item with which a data brick is too large
//!   ([`large_item`]).
#![tactic(auto)]

mod bricks;
mod fields;
mod gather;
mod join;
mod judge;
mod module;
mod names;
mod parts;
mod procedures;
mod records;
mod site;
mod totals;
mod written;

pub use bricks::{Bricks, Heading, Sort, read_bricks};
pub use fields::{Found, read_fields};
pub use gather::{gathered_fault_counts, note};
pub use join::{after, both};
pub use module::{Records, read_records};
pub use names::{Declared, ModuleNames, declared_names, second_fields};
pub use parts::{Given, Part};
pub use records::either;
pub use site::Site;
pub use totals::{fields_of, large_item};
pub use written::{Resolved, resolve};
