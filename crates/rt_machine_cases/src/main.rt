//! Cases of the machine, as lines of standard input: its instructions, intermediate instructions with their templates, the
//! supervisor, and runs of images.
//!
//! Each line is copied, and below a case stands its answer, whose lines begin with `= `; what only sets something for the cases
//! behind it has none. What follows `##` is no part of a case. The first word of a case says what is asked. Each part has words of
//! its own, and tells the form of its lines at the head of its module:
//!
//! - `instructions`: instructions by their words and texts, and the state before and after one.
//! - `templates`: intermediate instructions, their templates, and these on the machine.
//! - `supervisor`: the supervisor's rules, on plain data and by queues.
//! - `runs`: runs of images under ticks, with consoles in memory that fail at named calls.
#![tactic(auto)]

mod case;
mod flat;
mod instructions;
mod numbers;
mod queues;
mod runs;
mod supervisor;
mod templates;

use case::{State, describe};
use rt_words::{Memory, Text};
use std::io;
use std::io::Write;

fn main(rt: HostRuntime) -> io::Result<()> {
    let mut state = State::new(rt.alloc());
    tell_all(&rt, &mut state)
}

// The state is lent, so that no step that can fail has to let it go.
fn tell_all(rt: &HostRuntime, state: &mut State) -> io::Result<()> {
    for line in rt.lines(rt.alloc()) {
        tell(rt, line?.as_str(), state)?;
    }
    Ok(())
}

fn tell<R: Print + AllocGlobal>(rt: &R, line: &str, state: &mut State) -> io::Result<()> {
    let mut out = Text::from_vec(Vec::new(rt.alloc()));
    match describe(rt.alloc(), line, state, &mut out) {
        Ok(()) => io::writer(rt).write_all(out.as_slice()),
        Err(Memory) => println!(rt; "out of memory"),
    }
}
