//! Templates on the machine.

use crate::numbers::{octal, tell_number, tell_octal};
use crate::templates::addresses::{BLOCK, FRAME, STACK};
use crate::templates::machine::{End, Machine};
use crate::templates::reading::read_ins;
use rt_icode::Ins;
use rt_words::{Memory, Text};
use std::alloc::Global;

/// How the template of an instruction runs.
pub fn describe_run(alloc: Global, text: &str, out: &mut Text) -> Result<(), Memory> {
    let (written, rest) = text.split_once(" : ").unwrap_or((text, ""));
    match read_ins(alloc, written)? {
        Some(ins) => run_ins(alloc, &ins, rest, out),
        None => out.push_all(b"no instruction"),
    }
}

fn run_ins(alloc: Global, ins: &Ins, rest: &str, out: &mut Text) -> Result<(), Memory> {
    let (values, settings) = rest.split_once(" : ").unwrap_or((rest, ""));
    let mut machine = Machine::open(alloc, ins)?;
    run(&mut machine, values, settings, out)
}

fn run(machine: &mut Machine, values: &str, settings: &str, out: &mut Text) -> Result<(), Memory> {
    for value in values.split_ascii_whitespace() {
        if let Some(value) = octal(value) {
            machine.push(value);
        }
    }
    for setting in settings.split_ascii_whitespace() {
        set(machine, setting);
    }
    let end = machine.run();
    tell_end(end, out)?;
    tell_number("; steps ", u64::from(machine.steps), out)?;
    tell_values(machine, out)?;
    tell_settings(machine, settings, out)?;
    tell_kept(machine, out)
}

fn set(machine: &mut Machine, setting: &str) {
    let (at, value) = setting.split_once('=').unwrap_or((setting, ""));
    machine.set(octal(at).unwrap_or(0), octal(value).unwrap_or(0));
}

fn tell_end(end: End, out: &mut Text) -> Result<(), Memory> {
    match end {
        End::Next => out.push_all(b"next"),
        End::At(at) => {
            out.push_all(b"to ")?;
            tell_octal(at, out)
        }
        End::Trap(number) => tell_number("TRAP ", u64::from(number), out),
        End::Fault => out.push_all(b"fault"),
        End::Endless => out.push_all(b"no end"),
    }
}

// The values, the last one last.
fn tell_values(machine: &mut Machine, out: &mut Text) -> Result<(), Memory> {
    out.push_all(b"; values")?;
    let low = machine.regs.r[6];
    let mut at = STACK;
    for _turn in 0..16 {
        if at <= low {
            return Ok(());
        }
        at = at.wrapping_sub(2);
        out.push(b' ')?;
        tell_octal(machine.get(at), out)?;
    }
    Ok(())
}

fn tell_settings(machine: &mut Machine, settings: &str, out: &mut Text) -> Result<(), Memory> {
    for setting in settings.split_ascii_whitespace() {
        let (at, _value) = setting.split_once('=').unwrap_or((setting, ""));
        let at = octal(at).unwrap_or(0);
        out.push_all(b"; ")?;
        tell_octal(at, out)?;
        out.push(b'=')?;
        tell_octal(machine.get(at), out)?;
    }
    Ok(())
}

// The registers that must be kept, where they aren't, and SP where it stands above the values.
fn tell_kept(machine: &Machine, out: &mut Text) -> Result<(), Memory> {
    tell_changed(b"; R4=", BLOCK, machine.regs.r[4], out)?;
    tell_changed(b"; R5=", FRAME, machine.regs.r[5], out)?;
    if machine.regs.r[6] > STACK {
        out.push_all(b"; SP=")?;
        tell_octal(machine.regs.r[6], out)?;
    }
    Ok(())
}

fn tell_changed(name: &[u8], wanted: u16, value: u16, out: &mut Text) -> Result<(), Memory> {
    if value == wanted {
        return Ok(());
    }
    out.push_all(name)?;
    tell_octal(value, out)
}
