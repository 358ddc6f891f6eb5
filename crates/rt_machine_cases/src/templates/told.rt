//! Steps and code, as they are told.

use crate::numbers::{tell_number, tell_octal, word};
use pdp_code::{decode, print_instr};
use rt_object::{Relocated, Relocation};
use rt_templates::{ProcCode, Support};
use rt_tree_nodes::Step;
use rt_words::{Memory, Text};

/// Appends the visible step of an instruction.
pub fn tell_step(step: Option<Step>, out: &mut Text) -> Result<(), Memory> {
    match step {
        Some(Step::Error(number)) => tell_number("; error ", u64::from(number), out),
        Some(step) => {
            out.push_all(b"; ")?;
            out.push_all(step_name(step).as_bytes())
        }
        None => out.push_all(b"; no step"),
    }
}

fn step_name(step: Step) -> &'static str {
    match step {
        Step::Read => "read",
        Step::Write => "write",
        Step::Call => "call",
        Step::Return => "return",
        Step::Service => "service",
        Step::Jump => "jump",
        Step::Error(_) => "error",
    }
}

/// Appends the instructions that code is, and its relocations.
pub fn tell_code(code: &ProcCode, out: &mut Text) -> Result<(), Memory> {
    tell_lines(code.words.as_slice(), code.marks.as_slice(), out)?;
    tell_relocations(code.relocations.as_slice(), out)
}

// The instructions that words are, each with its mark where that isn't 0.
fn tell_lines(words: &[u16], marks: &[u8], out: &mut Text) -> Result<(), Memory> {
    let mut at = 0;
    for _turn in 0..words.len() {
        let (Some(rest), Some(mark)) = (words.get(at..), marks.get(at)) else {
            return Ok(());
        };
        let Some((instr, count)) = decode(rest) else {
            return out.push_all(b"; no instruction");
        };
        out.push_all(b"; ")?;
        print_instr(&instr, out)?;
        if *mark > 0 {
            tell_number(" !", u64::from(*mark), out)?;
        }
        at = at.saturating_add(usize::from(count));
    }
    Ok(())
}

fn tell_relocations(relocations: &[Relocation], out: &mut Text) -> Result<(), Memory> {
    for relocation in relocations {
        tell_number("; word ", u64::from(relocation.place), out)?;
        tell_of(relocation.of, out)?;
        if relocation.offset > 0 {
            tell_number("+", u64::from(relocation.offset), out)?;
        }
    }
    Ok(())
}

fn tell_of(of: Relocated, out: &mut Text) -> Result<(), Memory> {
    match of {
        Relocated::Brick(number) => tell_number(" brick ", u64::from(number), out),
        Relocated::String(number) => tell_number(" string ", u64::from(number), out),
        Relocated::Support(number) => tell_number(" support ", u64::from(number), out),
    }
}

/// Appends a line for each instruction of the support code: its address, its words, its mark and its text.
pub fn tell_support(support: &Support, out: &mut Text) -> Result<(), Memory> {
    tell_words(support.words.as_slice(), support.marks.as_slice(), out)
}

fn tell_words(words: &[u16], marks: &[u8], out: &mut Text) -> Result<(), Memory> {
    let mut at = 0;
    for _turn in 0..words.len() {
        let (Some(rest), Some(mark)) = (words.get(at..), marks.get(at)) else {
            return Ok(());
        };
        let Some((instr, count)) = decode(rest) else {
            return out.push_all(b"\n= no instruction");
        };
        out.push_all(b"\n= ")?;
        tell_octal(word(at).wrapping_mul(2), out)?;
        for code in rest.iter().take(usize::from(count)) {
            out.push(b' ')?;
            tell_octal(*code, out)?;
        }
        tell_number(" !", u64::from(*mark), out)?;
        out.push(b' ')?;
        print_instr(&instr, out)?;
        at = at.saturating_add(usize::from(count));
    }
    Ok(())
}
