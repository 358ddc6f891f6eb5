//! Listings of objects, and what is found of a system of them: bindings, needs, stacks, candidates.
//!
//! - `show 52544f01 'T ..`: the listing of an object.
//! - `match .. | .. | ..`: to what the bricks of these objects are bound, those of each object in brackets; or the fault.
//! - `tasks MODULE A.RTL\nTASK T R S 10`: how many tasks this system text has, or the line where it is refused. The cases below
//!   have these tasks; where it is refused, and before the first text, a case has none.
//! - `calls .. | .. | ..`: the needs of the procedures that the roots of the tasks reach in these objects, each behind those that
//!   it may call; and of each task its stack, the need of its root and the words that the stack has; or the fault. Faults come
//!   in this order: of matching, of tasks, of calls, of stacks.
//! - `candidates P | .. | ..`: the procedures that a value of the mode of brick P of the first of these objects may be.

mod calls;
mod candidates;
mod matching;
mod needs;
mod procs;
mod read;
mod stacks;

use crate::texts::system_of;
use crate::told::tell_number;
use calls::tell_calls;
use candidates::tell_candidates;
use matching::tell_bindings;
use read::{read_objects, read_one};
use rt_object::Object;
use rt_report::listing;
use rt_system::System;
use rt_words::{Memory, Text};
use std::alloc::Global;

/// Answers a case of this part; false where it is none.
pub fn answer(
    alloc: Global,
    kind: &str,
    rest: &str,
    system: &mut Option<System>,
    out: &mut Text,
) -> Result<bool, Memory> {
    match kind {
        "show" => show(alloc, rest, out)?,
        "match" => match_objects(alloc, rest, out)?,
        "tasks" => read_tasks(alloc, rest, system, out)?,
        "calls" => judge_calls(alloc, rest, system, out)?,
        "candidates" => find_candidates(alloc, rest, out)?,
        _ => return Ok(false),
    }
    Ok(true)
}

fn show(alloc: Global, text: &str, out: &mut Text) -> Result<(), Memory> {
    match read_one(alloc, text)? {
        Some(object) => tell_listing(alloc, &object, out),
        None => out.push_all(b"no object"),
    }
}

fn tell_listing(alloc: Global, object: &Object, out: &mut Text) -> Result<(), Memory> {
    let lines = listing(alloc, object)?;
    tell_lines(lines.as_slice(), out)
}

/// Appends lines, each but the first behind `= `.
fn tell_lines(lines: &[u8], out: &mut Text) -> Result<(), Memory> {
    let mut is_ended = false;
    for byte in lines {
        if is_ended {
            out.push_all(b"\n= ")?;
        }
        is_ended = *byte == b'\n';
        if !is_ended {
            out.push(*byte)?;
        }
    }
    Ok(())
}

fn match_objects(alloc: Global, text: &str, out: &mut Text) -> Result<(), Memory> {
    match read_objects(alloc, text)? {
        Some(objects) if objects.len() <= 64 => tell_bindings(alloc, objects.as_slice(), out),
        _ => out.push_all(b"no objects"),
    }
}

/// Reads a system text, and tells how many tasks it has; where it is refused there is no system.
fn read_tasks(
    alloc: Global,
    text: &str,
    system: &mut Option<System>,
    out: &mut Text,
) -> Result<(), Memory> {
    *system = system_of(alloc, text, true, out)?;
    match system {
        Some(system) => tell_tasks(system, out),
        None => Ok(()),
    }
}

fn tell_tasks(system: &System, out: &mut Text) -> Result<(), Memory> {
    tell_number(system.tasks().len() as u64, out)?;
    out.push_all(b" tasks")
}

fn judge_calls(
    alloc: Global,
    text: &str,
    system: &Option<System>,
    out: &mut Text,
) -> Result<(), Memory> {
    match read_objects(alloc, text)? {
        Some(objects) if objects.len() <= 64 => tell_calls(alloc, objects.as_slice(), system, out),
        _ => out.push_all(b"no objects"),
    }
}

fn find_candidates(alloc: Global, text: &str, out: &mut Text) -> Result<(), Memory> {
    let (name, rest) = text.split_once('|').unwrap_or((text, ""));
    match read_objects(alloc, rest)? {
        Some(objects) if objects.len() <= 64 => {
            tell_candidates(alloc, name.trim().as_bytes(), objects.as_slice(), out)
        }
        _ => out.push_all(b"no objects"),
    }
}
