//! Expressions: which value an expression is where a mode is wanted, which place is assigned, which call a chain is that
//! stands alone, and which test a condition is; else the fault that counts (BS 5904, expressions and modes).
//!
//! `specs/Sights.antt` says what a node sees, in lists and records: contracts see a [`Level`] and a [`Scope`] so.
//!
//! Of one operand: `specs/Names.antt` has what names stand for, `specs/Indexed.antt` the maps by which fields are found,
//! `specs/Modes.antt` and `specs/Operands.antt` the rules; `specs/Following.antt` says by the REFs in front of a mode what a
//! value is where another mode is wanted ([`references_are_followed`]). What can be wrong, and which fault counts, is in
//! `rt_check_faults`.
//!
//! Of the whole: `specs/Fitting.antt` has the definition: relations with one case for each rule, of what fits and of where
//! faults stand. [`fit`], [`fit_target`], [`fit_val_target`], [`fit_call`] and [`fit_condition`] answer what fits, or else
//! the fault of the least item, and of those of that item the one of least number; [`one_value`] says that at most one value
//! fits. `specs/Judging.antt` has the rule of each link and the whole as a function on trees, against which the code is
//! proved.
#![tactic(auto)]

mod condition;
mod expression;
mod level;
mod links;
mod modes;
mod names;
mod numbers;
mod operand;
mod operators;
mod records;
mod scope;
mod suit;
mod target;

pub use condition::fit_condition;
pub use expression::{fit, fit_by_itself, fit_nothing, one_value};
pub use level::Level;
pub use modes::{
    array_at, base_of, lent, record_of, ref_of, references_are_followed, through, wanted,
};
pub use names::{find, find_name, name_at, text_at};
pub use numbers::small_number;
pub use operand::{Base, Meant, Operand, Standing, Wanted};
pub use records::{IndexedRecords, field_named};
pub use scope::{Meaning, Scope};
pub use suit::{fits, suits};
pub use target::{fit_call, fit_target, fit_val_target};
