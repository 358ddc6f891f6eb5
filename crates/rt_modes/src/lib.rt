//! Modes, the full mode as a text, and the spelling of a mode in an object.
//!
//! [`Supplied`] are the bricks that the supervisor supplies, with their names, full modes and numbers.
//! `specs/Bricks.antt` has them as a list, for the definitions that speak of what is supplied.

#![tactic(auto)]

mod code;
mod fault;
mod fields;
mod laws;
mod mode;
mod pieces;
mod read;
mod same;
mod spell;
mod supplied;
mod supplied_laws;
mod write;

pub use fault::ModeFault;
pub use laws::{full_modes_define_what_they_mention, one_spelling};
pub use mode::{Field, Mode, ModeTable, RecordDef};
pub use read::read_mode;
pub use same::{same_data_mode, same_full_mode};
pub use spell::spell_mode;
pub use supplied::{SUPPLIED, Supplied};
pub use supplied_laws::{supplied_bricks_agree, supplied_names_tell};
pub use write::{write_data_mode, write_mode};
