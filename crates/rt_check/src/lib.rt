//! The checker: from the text of a module to its one typed module, or the fault that counts of all that stand in it (BS
//! 5904).
//!
//! `rt_check_module` says what the typed tree is and which faults stand. [`read_module`] reads it: it goes over the
//! declarations three times, for names, modes and bricks as they are declared; for strings, which are numbered by their place
//! in the module; and for what bricks hold. By the laws of `rt_check_module_laws` every node of a tree without fault fits,
//! and its procedures stay within what the code of procedures may take, so [`check_module`] answers a typed module.
//! [`typed_module`] puts items, grammar and checker one behind the other (`specs/Texts.antt`); by [`one_tree`] a module has
//! one typed tree at most.
#![tactic(auto)]

mod bricks;
mod check;
mod contents;
mod fault;
mod laws;
mod lines;
mod module;
mod strings;
mod text;
mod walk;

pub use check::check_module;
pub use fault::ModuleFault;
pub use laws::one_tree;
pub use module::read_module;
pub use text::typed_module;
