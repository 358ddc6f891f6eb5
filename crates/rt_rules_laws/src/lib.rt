//! Who has ended: laws above the rules of the supervisor. There is no code here but a function that does nothing, whose contract is
//! the laws; `specs/Laws.antt` has their statements.
#![tactic(auto)]

mod laws;

pub use laws::ended_tasks_stay_ended;
