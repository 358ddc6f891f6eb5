//! System texts, tick texts, the library's text and the words of commands.
//!
//! - `ticks 97*200`: the ticks of this text, those of one gap in a row as `gap times count`; or the line where it is refused.
//! - `go LIBRARY\nTASK T R S 10`: the system of this text, where objects aren't taken: its entries, and its tasks with
//!   their lines; or the line where it is refused.
//! - `link OBJECT T.OBJ\nTASK T R S 10`: so where objects are taken.
//! - `library`: the number of bytes of the library's text, and the text.
//! - `words show A.OBJ`: the command of these words, which stand between spaces, with each file between brackets.

mod commands;
mod parts;
mod ticks;

use crate::texts::system_of;
use crate::told::tell_number;
use commands::describe_words;
use parts::tell_system;
use rt_system::library;
use rt_words::{Memory, Text};
use std::alloc::Global;
use ticks::describe_ticks;

/// Answers a case of this part; false where it is none.
pub fn answer(alloc: Global, kind: &str, rest: &str, out: &mut Text) -> Result<bool, Memory> {
    match kind {
        "ticks" => describe_ticks(alloc, rest, out)?,
        "go" => describe_system(alloc, rest, false, out)?,
        "link" => describe_system(alloc, rest, true, out)?,
        "library" => tell_library(out)?,
        "words" => describe_words(alloc, rest, out)?,
        _ => return Ok(false),
    }
    Ok(true)
}

fn describe_system(alloc: Global, text: &str, objects: bool, out: &mut Text) -> Result<(), Memory> {
    match system_of(alloc, text, objects, out)? {
        Some(system) => tell_system(&system, out),
        None => Ok(()),
    }
}

/// The number of bytes of the library's text, and the text.
fn tell_library(out: &mut Text) -> Result<(), Memory> {
    tell_number(library().len() as u64, out)?;
    out.push_all(b" bytes\n")?;
    out.push_all(library())?;
    out.push_all(b"end of the library")
}
