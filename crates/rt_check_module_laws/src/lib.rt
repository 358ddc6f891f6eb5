//! Laws of judged modules (BS 5904). There is no code here but functions that do nothing, whose contracts are the laws.
//!
//! - `specs/Starts.antt`: what is made for a data brick in which no fault stands fits the items of the brick.
//! - `specs/Modules.antt`: the tree of a module in which no fault stands is one of which every node fits, and its procedures
//!   stay within what procedures may take.
//! - `specs/Tables.antt`: its records can be told apart in the texts of full modes, and the items of its data are fields.
#![tactic(auto)]

mod laws;

pub use laws::{
    data_items_are_fields, modules_fit, modules_stay_within, names_hold, records_are_tables,
    records_fit, what_is_made_fits,
};
