//! One instruction, by the state before and after it.

use crate::flat::fault_name;
use crate::instructions::setting::{REGISTERS, memory_of, read_setting};
use crate::numbers::{tell_number, tell_octal};
use pdp_core::{Bus, FlatBus, Regs, Stop, step};
use rt_words::{Memory, Text};
use std::alloc::Global;

/// How an instruction ends, and the state then.
pub fn describe_step(alloc: Global, text: &str, out: &mut Text) -> Result<(), Memory> {
    let Some((code, state)) = text.split_once(':') else {
        return out.push_all(b"no : behind the words");
    };
    let Some(before) = read_setting(state) else {
        return out.push_all(b"no setting");
    };
    match memory_of(alloc, code, before.regs.r[7], before.cell)? {
        Some(mut bus) => tell_step(&mut bus, before.regs, before.cell, out),
        None => out.push_all(b"no words in the memory"),
    }
}

fn tell_step(
    bus: &mut FlatBus,
    mut regs: Regs,
    cell: Option<(u16, u16)>,
    out: &mut Text,
) -> Result<(), Memory> {
    tell_stop(step(&mut regs, bus), out)?;
    tell_regs(&regs, out)?;
    match cell {
        Some((at, _before)) => tell_cell(bus, at, out),
        None => Ok(()),
    }
}

fn tell_stop(stop: Stop, out: &mut Text) -> Result<(), Memory> {
    match stop {
        Stop::Went => out.push_all(b"went"),
        Stop::Trap(number) => tell_number("TRAP ", u64::from(number), out),
        Stop::Fault(kind, at) => {
            out.push_all(fault_name(kind).as_bytes())?;
            out.push_all(b" at ")?;
            tell_octal(at, out)
        }
    }
}

fn tell_regs(regs: &Regs, out: &mut Text) -> Result<(), Memory> {
    for (name, value) in REGISTERS.iter().zip(regs.r.iter()) {
        if *value != 0 {
            tell_register(name, *value, out)?;
        }
    }
    tell_flags(&[regs.n, regs.z, regs.v, regs.c], out)
}

fn tell_flags(flags: &[bool; 4], out: &mut Text) -> Result<(), Memory> {
    out.push_all(b" NZVC=")?;
    for flag in flags {
        out.push(if *flag { b'1' } else { b'0' })?;
    }
    Ok(())
}

fn tell_register(name: &str, value: u16, out: &mut Text) -> Result<(), Memory> {
    out.push(b' ')?;
    out.push_all(name.as_bytes())?;
    out.push(b'=')?;
    tell_octal(value, out)
}

fn tell_cell(bus: &mut FlatBus, at: u16, out: &mut Text) -> Result<(), Memory> {
    out.push(b' ')?;
    tell_octal(at, out)?;
    out.push(b'=')?;
    match bus.read_word(at) {
        Ok(word) => tell_octal(word, out),
        Err(_) => out.push_all(b"refused"),
    }
}
