//! The code of procedures and modules.

use crate::ins::Ins;
use rt_words::{List, Name};

/// The intermediate code of a procedure.
#[derive(Drop)]
pub struct IProc {
    pub name: Name,
    /// How many items its text has, from its PROC to its ENDPROC.
    pub items: u16,
    pub code: List<Ins>,
}

/// The intermediate code of a module: that of its own and ENT procedures, in the order of their bricks.
#[derive(Drop)]
pub struct IModule {
    pub procs: List<IProc>,
}
