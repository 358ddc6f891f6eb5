//! What `go` and `gen` promise for the whole language. `specs/Headline.antt` is the page to read; `specs/Outcome.antt` says what is
//! accepted, `specs/Carrying.antt` what the code does, deed by deed, `specs/Causes.antt` what follows of each answer, and
//! `specs/Determined.antt` that the outcome is one. There is no code here but functions that do nothing, whose contracts are the laws.
#![tactic(auto)]

mod laws;

pub use laws::{
    answers_have_causes, outcomes_are_one, systems_have_tasks_and_trees, the_headline_follows,
};
