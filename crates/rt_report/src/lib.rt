//! The printed texts: in lines of words fault lines, the reports of refusals and runs, maps, and stack tables; and the listing of an
//! object.
//!
//! `specs/Lines.antt` has what a line is, `specs/Faults.antt` and `specs/Reports.antt` fault lines and reports, `specs/Maps.antt` the text
//! of a map (where the parts of a linked system lie in the memory, and what its tasks need of their stacks), and `specs/Stacks.antt` that of
//! a stack table (the words of the stack that the procedures of a system need, and that its tasks need and have). `specs/Listing.antt` has
//! the listing: the title, the bricks with their full modes, and the instructions of the procedures.
#![tactic(auto)]

mod fault;
mod faults;
mod laws;
mod line;
mod listing_code;
mod listing_laws;
mod listings;
mod map;
mod reports;
mod stack_needs;
mod stacks;
mod word;

pub use fault::{FaultLine, FileKind, Form, ProcName, TextFault};
pub use faults::{fault_line, fault_status, refusal_report};
pub use laws::each_task_is_told;
pub use listing_laws::one_listing;
pub use listings::listing;
pub use map::map_text;
pub use reports::{report, report_room};
pub use stacks::stack_table;
