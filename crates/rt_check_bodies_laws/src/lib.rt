//! Laws of judged procedures (BS 5904, procedures and statements). There is no code here but functions that do nothing, whose
//! contracts are the laws.
//!
//! - A procedure in which no fault stands fits in the typed tree: `specs/Held.antt` says where what is seen is there in the
//!   tree and can be known, `specs/Fitting.antt` has the law, `specs/Faults.antt` that what stands in one is a fault, and `specs/Standing.antt` that of written modes.
//! - What the checker makes of an expression weighs no more than its items allow: `specs/Refs.antt` says how many REFs may
//!   stand in a row in a mode, `specs/Parts.antt` which parts stay within so many items, and `specs/Weights.antt` has the
//!   laws.
//! - So a procedure stays within what the code of a procedure may take: `specs/Modes.antt` says where the modes of a scope
//!   stand, and `specs/Within.antt` and `specs/Named.antt` have the laws.
#![tactic(auto)]

mod laws;

pub use laws::{
    bounds_stay_within, faults_are_known, locals_are_few, locals_stand, modules_are_within,
    procedures_are_within, what_fits_stays_within, what_is_judged_fits, written_modes_stand,
};
