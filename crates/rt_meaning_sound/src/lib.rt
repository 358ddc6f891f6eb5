//! The law of typed stores for systems whose modules are those of texts, as the checker answers them, and what it takes of
//! the checker (BS 5904, scope of names). There is no code here but functions that do nothing, whose contracts are the laws.
//!
//! - `specs/Seen.antt` says which names stand for locals that have a value, `specs/Short.antt` which modes have lengths of 16
//!   bits, and `specs/Expressions.antt` has the laws: an expression names only locals that are seen, and numbers that are
//!   words.
//! - `specs/Procedures.antt`: a procedure names a local only where it has a value on every way there.
//! - `specs/Numbers.antt`: each number in a start of data is a word of 16 bits, and each byte of a string has 8 bits.
//! - `specs/Systems.antt`: in every state of the source run of a matched system of modules of texts the store is typed.
#![tactic(auto)]

mod laws;

pub use laws::{
    modes_are_short, modules_are_named, numbers_fit, procedures_are_named,
    stores_of_texts_stay_typed, what_fits_is_seen,
};
