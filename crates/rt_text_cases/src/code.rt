//! Intermediate code, as it is told.

use crate::expansion::write_bytes;
use crate::stop::Stop;
use rt_icode::{IProc, Ins, print_ins, visible};
use rt_lower::lower;
use rt_tree::{Step, TypedModule};
use rt_words::Text;
use std::alloc::Global;
use std::fmt::Write;

/// Writes the procedures of a module, each with its name and its items, and its instructions.
pub fn show_code(alloc: Global, module: &TypedModule, out: &mut String) -> Result<(), Stop> {
    let code = lower(alloc, module)?;
    show_procedures(alloc, code.procs.as_slice(), out)
}

fn show_procedures(alloc: Global, procedures: &[IProc], out: &mut String) -> Result<(), Stop> {
    for procedure in procedures {
        show_procedure(alloc, procedure, out)?;
    }
    Ok(())
}

fn show_procedure(alloc: Global, procedure: &IProc, out: &mut String) -> Result<(), Stop> {
    out.push_str("\n= ")?;
    write_bytes(out, procedure.name.as_slice())?;
    let items = procedure.items;
    write!(out, " {items} items")?;
    for (number, ins) in procedure.code.as_slice().iter().enumerate() {
        show_ins(alloc, number, ins, out)?;
    }
    Ok(())
}

// An instruction with its number, and the visible step where it makes one.
fn show_ins(alloc: Global, number: usize, ins: &Ins, out: &mut String) -> Result<(), Stop> {
    write!(out, "\n= {number} ")?;
    show_printed(alloc, ins, out)?;
    match visible(ins) {
        Some(step) => show_step(step, out),
        None => Ok(()),
    }
}

fn show_printed(alloc: Global, ins: &Ins, out: &mut String) -> Result<(), Stop> {
    let mut text = Text::from_vec(Vec::new(alloc));
    print_ins(ins, &mut text)?;
    write_bytes(out, text.as_slice())
}

fn show_step(step: Step, out: &mut String) -> Result<(), Stop> {
    out.push_str("; ")?;
    Ok(out.push_str(step_name(step))?)
}

fn step_name(step: Step) -> &'static str {
    match step {
        Step::Read => "read",
        Step::Write => "write",
        Step::Call => "call",
        Step::Return => "return",
        Step::Service => "service",
        Step::Jump => "jump",
        Step::Error(_) => "error",
    }
}
