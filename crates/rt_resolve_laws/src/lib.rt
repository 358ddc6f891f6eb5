//! Laws of what a system of modules begins with, and of its stores (BS 5904, modules and linking). There is no code here but
//! functions that do nothing, whose contracts are the laws.
#![tactic(auto)]

mod laws;

pub use laws::{code_is_its_modules, names_lead, reads_follow_writes};
