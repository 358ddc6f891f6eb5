//! The words of all commands, read or refused.
//!
//! Which words a command has is `IsCommand` (`specs/Commands.antt`), by their positions.
#![tactic(auto)]

mod command;
mod lent;
mod numbers;
mod words;

pub use command::{Command, WordFault};
pub use lent::{CommandWords, TimedWords};
pub use words::{lend_words, one_command, read_words};
