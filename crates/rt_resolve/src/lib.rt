//! From typed modules to what the meaning runs: trees, bindings, and the starting store.
#![tactic(auto)]

mod bindings;
mod code;
mod join;
mod share;
mod spot;
mod starting;
mod statements;
mod system;
mod values;

pub use code::{Code, ModuleCode, code_of, module_at};
pub use statements::body as body_tree;
pub use system::{System, are_numbered, resolve};
