//! Tasks of the machine that own their parts.
//!
//! - [`Shared`]: the code with its marks, and the data.
//! - [`Parked`]: a task that doesn't run, with its registers and its [`StackBrick`]. [`dispatch`] makes it [`Running`], which
//!   alone may use what all share; [`park`] and [`finish`] end that, and hand all parts on. None is copied.
//! - [`Running::step`]: one instruction over the one memory that the parts of all tasks make up. Nothing that belongs to another
//!   task changes by it. [`Running::carry_on`] tells its stop beside.
//!
//! `specs/Parts.antt` has what contracts see of these types, and `specs/Whole.antt` the one memory.
#![tactic(auto)]

mod code;
mod laws;
mod memory;
mod shared;
mod start;
mod switch;
mod tasks;

pub use laws::parts_make_one_memory;
pub use memory::StackBrick;
pub use shared::Shared;
pub use switch::{dispatch, finish, park};
pub use tasks::{Finished, Parked, Running};
