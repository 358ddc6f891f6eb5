//! A typed store stays typed: the law that stands above the source meaning (BS 5904). There is no code here but functions that
//! do nothing, whose contracts are the laws.
#![tactic(auto)]

mod laws;

pub use laws::{
    ends_agree, modules_fit, one_mode_a_place, reads_and_writes_fit, runs_keep_types,
    source_runs_fit, starts_fit, steps_in_a_row_keep_types, steps_keep_types, stores_stay_typed,
    systems_fit, values_pass, work_fits,
};
