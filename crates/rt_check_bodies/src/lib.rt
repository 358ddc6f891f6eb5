//! Procedures: their parameters, their locals and labels, and their statements. A procedure's brick becomes the typed tree of
//! what it does, or the fault that counts (BS 5904, procedures, statements and scopes).
//!
//! [`Names`] are the records, the strings and the levels of names that are seen at a place: contracts see them as a `Sight` of
//! `rt_exprs`. `specs/Sights.antt` says what an expression, an assignment, a call, a condition, a label or a mode is there, by
//! the rules of `rt_exprs` and `rt_check_declared`. A [`Tally`] has the locals so far, how many labels there are, and the faults
//! (`specs/Parts.antt`).
//! [`declare_name`] and [`add_labels`] put names into a level.
//!
//! `specs/Statements.antt` has the body: a fold over the syntax tree, in which each part is judged by what it sees and notes
//! its own faults. `specs/Procedures.antt` puts it together. [`judge_procedure`] answers the tree where no fault stands, and
//! else the fault of the least item, and of those of that item the one of least number.
#![tactic(auto)]

mod answer;
mod faults;
mod labels;
mod locals;
mod names;
mod nested;
mod pairs;
mod parameters;
mod plain;
mod procedure;
mod sequences;
mod statements;
mod tally;

pub use faults::first_of;
pub use labels::{add_labels, declare_name, labels_in, numbers_from};
pub use names::Names;
pub use procedure::judge_procedure;
pub use tally::Tally;
