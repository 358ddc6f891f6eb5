//! What a module is where every name, mode and start in it is judged (BS 5904): its typed tree, and the faults that stand.
//!
//! `specs/Tree.antt` has the tree of a module, `specs/Faults.antt` the faults that stand in one, and `specs/Typed.antt` the
//! typed tree of a module in which none stands.
//!
//! `specs/Levels.antt` says what the names of MODEs ([`mode_level`]) and all names of a module ([`module_level`]) stand for.
//! [`read_scene`] reads what the declarations say outside of what bricks hold: names, records, and bricks as they are
//! declared.
//!
//! `specs/Starts.antt` says which start a data item has ([`read_starts`]), and `specs/Items.antt` the faults of what is written
//! for it ([`judge_starts`]).

#![tactic(auto)]

mod defaults;
mod filling;
mod items;
mod judge;
mod levels;
mod make;
mod parts;
mod places;
mod scene;
mod strings;
mod supplied;
mod unwritten;

pub use filling::Filling;
pub use items::{judge_starts, read_starts};
pub use levels::{mode_level, module_level};
pub use scene::{Scene, read_scene};
pub use strings::add_brick_strings;
