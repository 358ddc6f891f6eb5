//! What runs begin with: the ticks and the console.

use crate::runs::texts::numbers_of;
use rt_outside::{MemSink, MemSource};
use rt_run::Run;
use rt_words::{Bytes, List, Memory};
use std::alloc::Global;

/// The ticks, the console and the run so far.
#[derive(Drop)]
pub struct Session {
    /// The tick text.
    pub ticks: Bytes,
    pub input: Option<MemSource>,
    pub output: Option<MemSink>,
    pub run: Option<Run>,
}

impl Session {
    /// No ticks, no console and no run.
    pub fn new(alloc: Global) -> Session {
        Session {
            ticks: List::from_vec(Vec::new(alloc)),
            input: None,
            output: None,
            run: None,
        }
    }
}

/// Sets the ticks, for the images behind. The tick text has each gap on a line of its own.
pub fn set_ticks(alloc: Global, gaps: &str, session: &mut Session) -> Result<(), Memory> {
    session.ticks = lines_of(alloc, gaps)?;
    Ok(())
}

fn lines_of(alloc: Global, gaps: &str) -> Result<Bytes, Memory> {
    let mut text = List::new(alloc, gaps.len())?;
    for byte in gaps.as_bytes() {
        text.push(if *byte == b' ' { b'\n' } else { *byte })?;
    }
    Ok(text)
}

// A text, and the numbers of the calls that fail.
fn with_fails(written: &str) -> (&str, &str) {
    let (text, fails) = written.split_once(':').unwrap_or((written, ""));
    (text.trim(), fails)
}

/// Sets the console's input.
pub fn set_input(alloc: Global, written: &str, session: &mut Session) -> Result<(), Memory> {
    let (text, fails) = with_fails(written);
    let bytes = List::from_slice(alloc, text.as_bytes())?;
    let fails = numbers_of(alloc, fails)?;
    session.input = Some(MemSource::new(alloc, bytes, fails)?);
    Ok(())
}

/// Sets the console's output.
pub fn set_output(alloc: Global, written: &str, session: &mut Session) -> Result<(), Memory> {
    let (room, fails) = with_fails(written);
    let room = room.parse::<u16>().unwrap_or(0);
    let fails = numbers_of(alloc, fails)?;
    session.output = Some(MemSink::new(alloc, usize::from(room), fails)?);
    Ok(())
}
