//! What the files that a command names are taken for, and systems, whose modules are read in their turn.
//!
//! `specs/Reading.antt` says what a file is taken for, or by which fault line it is refused, `specs/Faulting.antt` which fault line a
//! module's text has that isn't accepted, `specs/Systems.antt` what is read of a system in the order of its lines, and
//! `specs/Verdicts.antt` which fault line one has that isn't linked. `specs/Calls.antt` says what the outside held before a call of a
//! command and after it, and `specs/FileEnds.antt` how a command ends that puts the fault line of a file that isn't accepted.
#![tactic(auto)]

mod entries;
mod faulting;
mod laws;
mod modules;
mod naming;
mod reading;
mod verdict;

pub use entries::{accept_entries, accept_library};
pub use faulting::not_compiled;
pub use laws::{cycles_are_named, faults_have_lines, objects_have_their_places};
pub use modules::{Modules, accept_modules};
pub use reading::{
    Unaccepted, accept_image, accept_module, accept_object, accept_system, accept_ticks,
};
pub use verdict::not_linked;
