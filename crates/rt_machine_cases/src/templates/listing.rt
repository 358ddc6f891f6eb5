//! Instructions, procedures and the support code, as they are listed.

use crate::numbers::{tell_number, tell_octal};
use crate::templates::reading::{read_ins, read_proc};
use crate::templates::template::template_of;
use crate::templates::told::{tell_code, tell_step, tell_support};
use rt_icode::{IModule, IProc, Ins, print_ins, unmarked, visible, words};
use rt_templates::{Code, ExpandFault, ProcCode, Support, expand, support};
use rt_words::{List, Memory, Name, Text};
use std::alloc::Global;

/// An instruction, its step, what it weighs, and its template.
pub fn describe_ins(alloc: Global, text: &str, out: &mut Text) -> Result<(), Memory> {
    match read_ins(alloc, text)? {
        Some(ins) => tell_ins(alloc, &ins, out),
        None => out.push_all(b"no instruction"),
    }
}

fn tell_ins(alloc: Global, ins: &Ins, out: &mut Text) -> Result<(), Memory> {
    print_ins(ins, out)?;
    tell_step(visible(ins), out)?;
    tell_number("; words ", u64::from(words(ins)), out)?;
    tell_number(", unmarked ", u64::from(unmarked(ins)), out)?;
    let code = template_of(alloc, ins)?;
    tell_code(&code, out)
}

/// The code of a procedure.
pub fn describe_proc(alloc: Global, text: &str, out: &mut Text) -> Result<(), Memory> {
    let module = module_of(alloc, text)?;
    tell_expanded(expand(alloc, &module), out)
}

fn module_of(alloc: Global, text: &str) -> Result<IModule, Memory> {
    let mut procs = List::new(alloc, 1)?;
    push_proc(alloc, text, &mut procs)?;
    Ok(IModule { procs })
}

fn push_proc(alloc: Global, text: &str, procs: &mut List<IProc>) -> Result<(), Memory> {
    match read_proc(alloc, text)? {
        Some(proc) => procs.push(proc),
        None => Ok(()),
    }
}

fn tell_expanded(expanded: Result<Code, ExpandFault>, out: &mut Text) -> Result<(), Memory> {
    match expanded {
        Ok(code) => tell_codes(code.procs.as_slice(), out),
        Err(ExpandFault::ProcTooLong { proc }) => tell_too_long(&proc, out),
        Err(ExpandFault::Memory) => Err(Memory),
    }
}

fn tell_too_long(name: &Name, out: &mut Text) -> Result<(), Memory> {
    out.push_all(b"too long: ")?;
    out.push_all(name.as_slice())
}

fn tell_codes(codes: &[ProcCode], out: &mut Text) -> Result<(), Memory> {
    for code in codes {
        tell_number("", code.words.len() as u64, out)?;
        out.push_all(b" words")?;
        tell_code(code, out)?;
    }
    Ok(())
}

/// The support code, and where its routines begin.
pub fn describe_support(alloc: Global, out: &mut Text) -> Result<(), Memory> {
    let code = support(alloc)?;
    tell_routines(&code, out)
}

fn tell_routines(code: &Support, out: &mut Text) -> Result<(), Memory> {
    tell_number("", code.words.len() as u64, out)?;
    out.push_all(b" words, routines at")?;
    for entry in code.entries.as_slice() {
        out.push(b' ')?;
        tell_octal(*entry, out)?;
    }
    tell_support(code, out)
}
