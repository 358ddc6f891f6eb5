//! One line of the table.

use crate::calls::describe_top;
use crate::state::State;
use crate::stores::{
    describe_bytes, describe_file, describe_held, describe_kept, describe_read, describe_store,
    describe_write,
};
use crate::streams::{describe_sink, describe_source, describe_sure};
use rt_words::{Memory, Text};
use std::alloc::Global;

/// Copies a line, and answers it where it has a case.
pub fn describe(
    alloc: Global,
    line: &str,
    state: &mut State,
    out: &mut Text,
) -> Result<(), Memory> {
    out.push_all(line.as_bytes())?;
    out.push(b'\n')?;
    let case = before_comment(line).trim();
    if case.is_empty() {
        return Ok(());
    }
    out.push_all(b"= ")?;
    let (kind, rest) = case.split_once(' ').unwrap_or((case, ""));
    answer_files(alloc, kind, rest, state, out)?;
    out.push(b'\n')
}

fn before_comment(line: &str) -> &str {
    match line.split_once('#') {
        Some((case, _comment)) => case,
        None => line,
    }
}

fn answer_files(
    alloc: Global,
    kind: &str,
    rest: &str,
    state: &mut State,
    out: &mut Text,
) -> Result<(), Memory> {
    match kind {
        "files" => {
            drop(state.files.take());
            out.push_all(b"no files")
        }
        "file" => describe_file(alloc, rest, &mut state.files, out),
        "bytes" => describe_bytes(alloc, rest, &mut state.files, out),
        "store" => describe_store(alloc, rest, state, out),
        "top" => describe_top(alloc, rest, &state.files, out),
        _ => answer_store(alloc, kind, rest, state, out),
    }
}

fn answer_store(
    alloc: Global,
    kind: &str,
    rest: &str,
    state: &mut State,
    out: &mut Text,
) -> Result<(), Memory> {
    match kind {
        "read" => describe_read(alloc, rest, &mut state.store, out),
        "write" => describe_write(alloc, rest, &mut state.store, out),
        "kept" => describe_kept(rest, &state.store, out),
        "held" => describe_held(&state.store, out),
        _ => answer_streams(alloc, kind, rest, out),
    }
}

fn answer_streams(alloc: Global, kind: &str, rest: &str, out: &mut Text) -> Result<(), Memory> {
    match kind {
        "source" => describe_source(alloc, rest, out),
        "sure" => describe_sure(alloc, rest, out),
        "sink" => describe_sink(alloc, rest, out),
        _ => out.push_all(b"no case begins so"),
    }
}
