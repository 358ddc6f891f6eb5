//! One instruction of the machine, a PDP-11, over any memory.
//!
//! - [`step`]: one instruction, which is the definition `execute` for any [`Bus`]; [`carry_on`] tells its stop beside.
//! - [`Bus`]: a memory with the leave that a task has to use it. [`Protection`] says which parts are a task's.
//! - [`FlatBus`]: one for a single task, all its bytes in one vector.
#![tactic(auto)]

pub mod cpu;
mod ends;
mod execute;
mod flags;
mod flat;
mod groups;
pub mod memory;
mod operand;
mod pairs;

pub use cpu::{Done, Kind, Refused, Regs, Stop};
pub use execute::{carry_on, step};
pub use flat::FlatBus;
pub use memory::{Bus, MEMORY_END, Protection};
