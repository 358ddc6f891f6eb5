//! Cases of the outside, as lines of standard input: files, sources and sinks in memory that fail at named calls, and whole calls of
//! the program.
//!
//! Each line is copied, and below a case stands its answer, whose lines begin with `= `. What follows `#` is no part of a
//! case. `-` is no name, no word or no number. In a text `\n`, `\r` and `\t` are the control bytes, `\s` is a space, and
//! `{255*;A}` stands for 255 times `;A`.
//!
//! - `files`: there are no files. `file A one`: a file more, of this name and text; `bytes A 01ff`: so of bytes in hexadecimal digits.
//! - `store 200 : 3 5`: a store of these files with room for 200 bytes, whose third and fifth call fail.
//!   `read A` and `write A two` are calls of it; `kept A` and `held` look at it.
//! - `source AB : 2 6 : 7`: a source of this text whose second and sixth call fail, and seven calls.
//!   `sure AB : 7`: so of a source that never fails. `sink 2 : 1 3 : 65 66`: a sink with room for two bytes whose first and
//!   third put fail, and two puts.
//! - `top 4 : 1 : go H.SYS H.TCK 100 OUT`: the program with these words over a store of the files, whose fourth call
//!   fails, as the first put does. `top - : - : 2 : run I.IMG T.TCK 100 OUT.RPT`: so where the second read of the input fails.
#![tactic(auto)]

mod calls;
mod case;
mod shown;
mod state;
mod stores;
mod streams;
mod texts;

use case::describe;
use rt_words::{Memory, Text};
use state::State;
use std::io;
use std::io::Write;

fn main(rt: HostRuntime) -> io::Result<()> {
    let mut state = State::new(rt.alloc());
    tell_all(&rt, &mut state)
}

// The state is lent, so that no step that can fail has to let it go.
fn tell_all(rt: &HostRuntime, state: &mut State) -> io::Result<()> {
    for line in rt.lines(rt.alloc()) {
        tell(rt, line?.as_str(), state)?;
    }
    Ok(())
}

fn tell<R: Print + AllocGlobal>(rt: &R, line: &str, state: &mut State) -> io::Result<()> {
    let mut out = Text::from_vec(Vec::new(rt.alloc()));
    match describe(rt.alloc(), line, state, &mut out) {
        Ok(()) => io::writer(rt).write_all(out.as_slice()),
        Err(Memory) => println!(rt; "out of memory"),
    }
}
