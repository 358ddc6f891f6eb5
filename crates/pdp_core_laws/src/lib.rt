//! The laws above the instruction table. Each is a function that does nothing, whose contract is the law.
//!
//! - [`numbers`]: what the effects mean for the numbers, signed and unsigned, that words and bytes stand for
//!   (`specs/Numbers.antt`).
//! - [`others_keep_their_bytes`]: what instructions leave as it was (`specs/Laws.antt`).
#![tactic(auto)]

mod laws;
pub mod numbers;

pub use laws::others_keep_their_bytes;
