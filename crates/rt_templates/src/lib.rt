//! The machine's code of intermediate code: for each of its instructions a template, a list of instructions of the machine with their
//! marks; and the support code, which stands first in every image.
//!
//! - [`expand`]: the code of each procedure of a module.
//! - [`put_template`]: the template of one instruction.
//! - [`support`]: the support code, and where its routines begin; [`Routine`] names them.
//!
//! `specs/Templates.antt` is the table of the templates, with `Places`, `Operators`, `Ways` and `Calls` for its parts.
#![tactic(auto)]

mod calls;
mod code;
mod expansion;
mod fault;
mod layout;
mod line;
mod operators;
mod places;
mod routine;
mod support_code;
mod template;
mod ways;

pub use code::{Code, ProcCode, Support};
pub use expansion::expand;
pub use fault::ExpandFault;
pub use layout::Layout;
pub use line::{Hole, Line};
pub use routine::Routine;
pub use support_code::support;
pub use template::put_template;
