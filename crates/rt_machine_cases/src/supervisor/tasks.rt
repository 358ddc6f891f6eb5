//! Tasks, and steps from them on.

use crate::numbers::first;
use crate::supervisor::pair::{Pair, may_begin};
use crate::supervisor::steps::do_steps;
use crate::supervisor::told::tell_pair;
use rt_words::{List, Memory, Text};
use std::alloc::Global;

/// Tasks of these priorities.
pub fn describe_tasks(
    alloc: Global,
    text: &str,
    pair: &mut Option<Pair>,
    out: &mut Text,
) -> Result<(), Memory> {
    let priorities = priorities_of(alloc, text)?;
    begin(alloc, priorities.as_slice(), pair, out)
}

// The priorities that are written; a word that is none stands for 0, which no task has.
fn priorities_of(alloc: Global, text: &str) -> Result<List<u8>, Memory> {
    let mut priorities = List::new(alloc, 0)?;
    for digits in text.split_ascii_whitespace() {
        priorities.push(digits.parse::<u8>().unwrap_or(0))?;
    }
    Ok(priorities)
}

fn begin(
    alloc: Global,
    priorities: &[u8],
    pair: &mut Option<Pair>,
    out: &mut Text,
) -> Result<(), Memory> {
    if !may_begin(priorities) {
        return out.push_all(b"no priorities of 1 to 32 tasks");
    }
    let begun = Pair::open(alloc, priorities)?;
    let told = tell_pair(&begun, out);
    *pair = Some(begun);
    told
}

/// Steps, so many times as is written first.
pub fn describe_repeated(
    text: &str,
    pair: &mut Option<Pair>,
    out: &mut Text,
) -> Result<(), Memory> {
    let (times, steps) = first(text);
    match times.parse::<u32>() {
        Ok(times) => describe_steps(times, steps, pair, out),
        Err(_) => out.push_all(b"no times"),
    }
}

/// Steps, so many times.
pub fn describe_steps(
    times: u32,
    steps: &str,
    pair: &mut Option<Pair>,
    out: &mut Text,
) -> Result<(), Memory> {
    match pair {
        Some(pair) => {
            for _ in 0..times {
                do_steps(steps, pair, out)?;
            }
            tell_pair(pair, out)
        }
        None => out.push_all(b"no tasks"),
    }
}
