//! Cases of texts: items, bodies and modules as the grammar has them; typed trees, faults with lines, frames, trees that no text
//! gives; what systems do, step by step; intermediate code. The cases stand in the file `stdin` and what they give in `stdout`,
//! which has each line that asks for something, ` =>` and the answer. What the lines mean is said at the head of `stdin`.
#![tactic(auto)]

mod case;
mod code;
mod expansion;
mod line;
mod modules;
mod questions;
mod stop;
mod syntax;
mod systems;

use case::Case;
use line::describe;
use std::io;

fn main(rt: HostRuntime) -> io::Result<()> {
    let mut case = Case::new(rt.alloc());
    tell_all(&rt, &mut case)
}

// The case is lent, so that no step that can fail has to let it go.
fn tell_all(rt: &HostRuntime, case: &mut Case) -> io::Result<()> {
    for line in rt.lines(rt.alloc()) {
        tell(rt, case, line?.as_str())?;
    }
    Ok(())
}

fn tell<R: Print + AllocGlobal>(rt: &R, case: &mut Case, line: &str) -> io::Result<()> {
    let mut out = String::new(rt.alloc());
    match describe(rt.alloc(), case, line, &mut out) {
        Ok(()) => rt.print(out.as_str()),
        Err(_) => println!(rt; "out of memory"),
    }
}
