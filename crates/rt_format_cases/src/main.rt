//! Cases of the formats and of what is made of them, as lines of standard input.
//!
//! Each line is copied, and below a case stands its answer, whose lines begin with `= `. What follows `# ` is no part of a case.
//! Its first word tells of which part it is; the form of its lines stands at the head of the part's file:
//!
//! - `modes.rt`: modes, their texts and spellings, the sizes of their values, and the words and lists that these stand on.
//! - `formats.rt`: what bytes are, images or objects, or where they are refused.
//! - `linking.rt`: listings of objects, and what is found of a system of them: bindings, needs, stacks, candidates.
//! - `systems.rt`: system texts, tick texts, the library's text and the words of commands.
//!
//! The bytes of an image or of an object are hexadecimal, with blanks anywhere between them; `'P` is a name: the byte of its
//! length, and its letters. They may stand in parts with `/` between, and `3 * 5f00` is a part that stands three times.
//!
//! In a text or a word `\n` is LF, `\r` is CR, `\t` is a tab, `\s` is a space, `\d` is byte 127, `\0` is byte 0, and `\e` is nothing.
//! `{32 T\#\n}` stands for the text in it so many times, where `\#` is the number of the turn, from 1.
#![tactic(auto)]

mod bytes;
mod case;
mod formats;
mod linking;
mod modes;
mod systems;
mod texts;
mod told;

use case::{State, describe};
use rt_words::Memory;
use std::io;
use std::io::Write;
use told::empty;

fn main(rt: HostRuntime) -> io::Result<()> {
    let mut state = State::new(rt.alloc());
    tell_all(&rt, &mut state)
}

// The state is lent, so that no step that can fail has to let it go.
fn tell_all(rt: &HostRuntime, state: &mut State) -> io::Result<()> {
    for line in rt.lines(rt.alloc()) {
        tell(rt, line?.as_str(), state)?;
    }
    Ok(())
}

fn tell<R: Print + AllocGlobal>(rt: &R, line: &str, state: &mut State) -> io::Result<()> {
    let mut out = empty(rt.alloc());
    match describe(rt.alloc(), line, state, &mut out) {
        Ok(()) => io::writer(rt).write_all(out.as_slice()),
        Err(Memory) => println!(rt; "out of memory"),
    }
}
