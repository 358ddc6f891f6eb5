//! Laws of sizes: a size and an offset are those of the full mode, whichever module's records they are counted by (BS 5904, modes
//! and linking; the layout is this project's own). There is no code here but functions that do nothing, whose contracts are the
//! laws.
//!
//! `specs/Laws.antt` has the statements. A module numbers its own records, so modes of one full mode are different modes in
//! different modules: their sizes are one ([`full_modes_have_one_size`]), their fields lie alike ([`fields_lie_alike`]), and a path
//! leads on from each to the same ([`paths_lead_alike`]). A mode has a size unless a record of it contains itself
//! ([`modes_have_sizes`]), and one size alone ([`tables_tell_once`]). Whether it has one, with which field a brick passes the
//! greatest size and whether a record contains another can be told ([`sizes_are_decided`], `specs/Decided.antt`).
#![tactic(auto)]

mod laws;

pub use laws::{
    fields_lie_alike, full_modes_have_one_size, modes_have_sizes, paths_lead_alike,
    sizes_are_decided, tables_tell_once,
};
