//! A whole system linked: the verdict on its objects, and where they pass all tests, the image and its map.
//!
//! `specs/Verdict.antt` has the tests in their order, and what is known of a system that passes them. `specs/Linked.antt` has what a system
//! is linked to, and `specs/Needs.antt` how the needs of roots are found.
//!
//! The image of a system is where its parts lie in the memory, its code and data with relocations applied, and its tasks.
//! The parts are support code, the words by which tasks enter, procedures, strings, data bricks, blocks and stack bricks.
//! `specs/Room.antt` has the room that they take as the sum of its parts, `specs/Addresses.antt` the address of each thing that a
//! relocation may name, `specs/Tables.antt` what a layout is, and `specs/Parts.antt` that the parts lie one after another and fill the
//! room. `specs/Named.antt` has the addresses of what relocations name, `specs/Relocated.antt` what words and bytes are with their
//! relocations applied, `specs/Imaged.antt` the image, and `specs/Mapped.antt` its map.

#![tactic(auto)]

mod address;
mod code;
mod data;
mod fault;
mod held;
mod image_laws;
mod judged;
mod laid;
mod laws;
mod layout_laws;
mod linked;
mod linking;
mod mapped;
mod needs;
mod patches;
mod rows;
mod stacks;
mod starts;
mod sums;
mod tasks;
mod verdict_laws;
mod whole;

pub use fault::LinkFault;
pub use image_laws::{entries_are_stacks, images_lie_as_laid};
pub use judged::{Judged, judge};
pub use laid::{Layout, MEMORY};
pub use laws::{one_image, one_verdict, tasks_are_those_of_the_lines};
pub use layout_laws::parts_fill_room;
pub use linked::link;
pub use linking::Linking;
pub use mapped::image_map;
pub use sums::room;
pub use verdict_laws::each_has_a_stack;
pub use whole::image;
