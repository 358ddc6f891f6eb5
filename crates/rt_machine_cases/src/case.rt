//! One line of the table.

use crate::instructions::{describe_branch, describe_every, describe_step, describe_words};
use crate::numbers::first;
use crate::runs::{
    Session, describe_flat, describe_go, describe_image, set_input, set_output, set_ticks,
};
use crate::supervisor::{Pair, describe_repeated, describe_steps, describe_tasks};
use crate::templates::{describe_ins, describe_proc, describe_run, describe_support};
use rt_words::{Memory, Text};
use std::alloc::Global;

/// What lines leave for those behind them.
#[derive(Drop)]
pub struct State {
    /// The ticks, the console and the run.
    pub session: Session,
    /// The rules of the supervisor and the supervisor itself.
    pub pair: Option<Pair>,
}

impl State {
    /// Before the first line.
    pub fn new(alloc: Global) -> State {
        State {
            session: Session::new(alloc),
            pair: None,
        }
    }
}

/// Copies a line, and answers it where it has a case.
pub fn describe(
    alloc: Global,
    line: &str,
    state: &mut State,
    out: &mut Text,
) -> Result<(), Memory> {
    out.push_all(line.as_bytes())?;
    out.push(b'\n')?;
    let (word, rest) = first(before_comment(line));
    match word {
        "" => Ok(()),
        "ticks" => set_ticks(alloc, rest, &mut state.session),
        "input" => set_input(alloc, rest, &mut state.session),
        "output" => set_output(alloc, rest, &mut state.session),
        _ => tell_answer(alloc, word, rest, state, out),
    }
}

fn before_comment(line: &str) -> &str {
    match line.split_once("##") {
        Some((case, _comment)) => case,
        None => line,
    }
}

fn tell_answer(
    alloc: Global,
    word: &str,
    rest: &str,
    state: &mut State,
    out: &mut Text,
) -> Result<(), Memory> {
    out.push_all(b"= ")?;
    answer(alloc, word, rest, state, out)?;
    out.push(b'\n')
}

fn answer(
    alloc: Global,
    word: &str,
    rest: &str,
    state: &mut State,
    out: &mut Text,
) -> Result<(), Memory> {
    match word {
        "words" => describe_words(alloc, rest, out),
        "every" => describe_every(rest, out),
        "step" => describe_step(alloc, rest, out),
        "branch" => describe_branch(alloc, rest, out),
        "ins" => describe_ins(alloc, rest, out),
        "run" => describe_run(alloc, rest, out),
        "proc" => describe_proc(alloc, rest, out),
        "support" => describe_support(alloc, out),
        "tasks" => describe_tasks(alloc, rest, &mut state.pair, out),
        "do" => describe_steps(1, rest, &mut state.pair, out),
        "repeat" => describe_repeated(rest, &mut state.pair, out),
        "image" => describe_image(alloc, rest, &mut state.session, out),
        "go" => describe_go(rest, &mut state.session, out),
        "flat" => describe_flat(alloc, rest, out),
        _ => out.push_all(b"no case begins so"),
    }
}
