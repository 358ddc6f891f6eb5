//! The commands, over any store, input and output: [`top`] does what the words say, and answers the status.
//!
//! `specs/Top.antt` says what is promised of a call. What `go` and `gen` do stands in [`rt_headline`], and what each other command does
//! in a file of its own: `specs/Compiling.antt`, `specs/Linking.antt`, `specs/Running.antt`, `specs/Showing.antt` and
//! `specs/Stacking.antt`. What the files are taken for that a command
//! names stands in [`rt_accept`].
#![tactic(auto)]

mod accepting;
mod carrying;
mod command;
mod compiling;
mod generating;
mod going;
mod linking;
mod reporting;
mod running;
mod showing;
mod stacking;

pub use command::top;
pub use reporting::tell;
