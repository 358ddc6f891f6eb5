//! The machine run under ticks, by a supervisor.
//!
//! - [`Run::open`]: the start of an image, under the ticks of a list.
//! - [`Run::go`]: the run up to a limit of instructions, with a console; it can go on by a further call.
//! - [`Supervisor`]: keeps to the rules of [`rt_rules::Rules`], and contracts see it as the same plain data. The ready tasks of each
//!   priority stand in a queue, so that the running task is found at the head of one of them.
//!
//! `specs/Boundaries.antt` has the run, boundary by boundary, over one memory; `specs/Services.antt` what a TRAP asks for;
//! `specs/Picture.antt` how a [`Run`] shows a state of the machine; `specs/Inputs.antt` what an input gives; `specs/Runs.antt` what a
//! call of `go` comes to. [`two_calls_are_one`] and [`told_bytes_are_run_over`] are laws of such calls.
#![tactic(auto)]

mod carry;
mod laws;
mod machine;
mod marks;
mod moves;
mod open;
mod queue;
mod queues;
mod run;
mod service;
mod settle;
mod stretch;
mod super_laws;
mod supervisor;
mod timetable;

pub use laws::{boundaries_are_counted, ends_stay, told_bytes_are_run_over, two_calls_are_one};
pub use machine::End;
pub use run::Run;
pub use super_laws::{others_keep_their_places, running_stands_first};
pub use supervisor::Supervisor;
