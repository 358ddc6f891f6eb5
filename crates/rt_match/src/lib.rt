//! Matching: to what each brick of each module of a system is bound, by names and full modes.
//!
//! `specs/Matching.antt` has what it is to be bound and the four tests, over what each brick says of itself to others;
//! `specs/Signatures.antt` has what that is for the bricks of objects.
#![tactic(auto)]

mod alike;
mod bind;
mod bindings;
mod entries;
mod fault;
mod laws;
mod missing;
mod shape;
mod verdict;

pub use bindings::{Bindings, Bound};
pub use fault::MatchFault;
pub use laws::{bindings_lead, one_verdict};
pub use shape::write_full_mode;
pub use verdict::match_all;
