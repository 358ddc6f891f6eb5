//! Whether the parts of an object keep its ranges (`rt_object`, specs/Ranges.antt): the object of the parts, or none.
//!
//! Each group of parts has its test. What a type says by itself, as that a byte is below 256, is no test.
#![tactic(auto)]

mod bricks;
mod data;
mod fields;
mod modes;
mod names;
mod procs;
mod records;
mod relocations;
mod small;
mod strings;
mod taken;
mod within;

pub use within::object_within;
