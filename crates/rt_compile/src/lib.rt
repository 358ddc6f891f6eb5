//! The compiler: from the text of a module to its object, or the first fault.
//!
//! `specs/Objects.antt` has the object of a typed module, brick by brick, and `specs/Texts.antt` what a text gives. [`compile`] puts one
//! behind the other what makes the parts: the typed module (`rt_check`), how its data lie and the intermediate code of its
//! procedures (`rt_lower`), and the machine's of that (`rt_templates`), frames (`rt_frames`), the bytes of data (`specs/Data.antt`) and the
//! procedures that stand as values (`specs/Taken.antt`).
#![tactic(auto)]

mod bricks;
mod contents;
mod copies;
mod data;
mod data_laws;
mod fault;
mod laws;
mod parts;
mod taken;
mod text;

pub use data_laws::{bytes_are_counted, places_are_named, places_are_within};
pub use fault::CompileFault;
pub use laws::one_object;
pub use text::compile;
