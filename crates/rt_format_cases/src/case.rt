//! One line of the table.

use crate::modes::Tables;
use crate::{formats, linking, modes, systems};
use rt_system::System;
use rt_words::{Memory, Text};
use std::alloc::Global;

/// What the lines so far leave for those below them.
#[derive(Drop)]
pub struct State {
    /// The records that modes are over.
    tables: Tables,
    /// The system whose tasks the objects have.
    system: Option<System>,
}

impl State {
    /// No records, and no system.
    pub fn new(alloc: Global) -> State {
        State {
            tables: Tables::new(alloc),
            system: None,
        }
    }
}

/// Copies a line, and answers it where it has a case.
pub fn describe(
    alloc: Global,
    line: &str,
    state: &mut State,
    out: &mut Text,
) -> Result<(), Memory> {
    out.push_all(line.as_bytes())?;
    out.push(b'\n')?;
    let case = before_comment(line).trim();
    if case.is_empty() {
        return Ok(());
    }
    out.push_all(b"= ")?;
    let (kind, rest) = case.split_once(' ').unwrap_or((case, ""));
    answer(alloc, kind, rest.trim(), state, out)?;
    out.push(b'\n')
}

fn before_comment(line: &str) -> &str {
    match line.split_once("# ") {
        Some((case, _comment)) => case,
        None => line,
    }
}

fn answer(
    alloc: Global,
    kind: &str,
    rest: &str,
    state: &mut State,
    out: &mut Text,
) -> Result<(), Memory> {
    let is_answered = modes::answer(alloc, kind, rest, &mut state.tables, out)?
        || formats::answer(alloc, kind, rest, out)?
        || linking::answer(alloc, kind, rest, &mut state.system, out)?
        || systems::answer(alloc, kind, rest, out)?;
    if is_answered {
        Ok(())
    } else {
        out.push_all(b"no case begins so")
    }
}
