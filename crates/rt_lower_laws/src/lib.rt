//! What the intermediate code of a typed module keeps. There is no code here but functions that do nothing, whose contracts are the
//! laws; `specs/Laws.antt` has their statements.
#![tactic(auto)]

mod laws;

pub use laws::{code_is_within, frames_alone_differ, labels_lead_inside, locals_have_room};
