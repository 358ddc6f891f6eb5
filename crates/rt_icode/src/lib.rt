//! The intermediate code of procedures: instructions over a stack of values of one word each. An instruction uses at most one item
//! that tasks share, and makes at most one visible step.
//!
//! - [`Ins`], [`IProc`], [`IModule`]: instructions, the code of a procedure and that of a module.
//! - [`visible`]: the visible step of an instruction.
//! - [`words`] and [`unmarked`]: how many words of the machine's code an instruction becomes, and how many instructions without a
//!   visible step it makes there at the most. `specs/Within.antt` says by these when code stays within what its items allow.
//! - [`print_ins`]: an instruction's text.
#![tactic(auto)]

mod ins;
mod printing;
mod procedure;
mod step;
mod weight;

pub use ins::{Alter, Division, Fixed, Ins, Merge, OwnItem, Width};
pub use printing::print_ins;
pub use procedure::{IModule, IProc};
pub use step::visible;
pub use weight::{unmarked, words};
