//! The state before an instruction.

use crate::flat::{ALL, CLEAR};
use crate::numbers::octal;
use pdp_core::{Bus, FlatBus, Protection, Regs};
use rt_words::Memory;
use std::alloc::Global;

/// Code to 77, data to 177, a block from 200 and a brick from 220 to 300, an odd end.
const OWN: Protection = Protection {
    code_end: 0o100,
    data_end: 0o200,
    block: 0o200,
    brick: 0o220,
    brick_end: 0o301,
};

/// The names of the registers.
pub const REGISTERS: [&str; 8] = ["R0", "R1", "R2", "R3", "R4", "R5", "SP", "PC"];

/// The registers, and the word of the data that is looked at, with its address.
#[derive(Clone, Copy)]
pub struct Setting {
    pub regs: Regs,
    pub cell: Option<(u16, u16)>,
}

/// The setting of the numbers that are named. None where a name or a number is none.
pub fn read_setting(text: &str) -> Option<Setting> {
    let mut setting = Setting {
        regs: CLEAR,
        cell: None,
    };
    for part in text.split_ascii_whitespace() {
        let (name, digits) = part.split_once('=')?;
        set(&mut setting, name, octal(digits)?)?;
    }
    Some(setting)
}

fn set(setting: &mut Setting, name: &str, value: u16) -> Option<()> {
    match number_of(name) {
        Some(number) => *setting.regs.r.get_mut(number)? = value,
        None if name == "NZVC" => set_flags(&mut setting.regs, value),
        None => setting.cell = Some((octal(name)?, value)),
    }
    Some(())
}

fn number_of(name: &str) -> Option<usize> {
    for (number, own) in REGISTERS.iter().enumerate() {
        if *own == name {
            return Some(number);
        }
    }
    None
}

/// Sets the flags N, Z, V and C by four octal digits.
pub fn set_flags(regs: &mut Regs, nzvc: u16) {
    regs.n = nzvc / 0o1000 % 8 == 1;
    regs.z = nzvc / 0o100 % 8 == 1;
    regs.v = nzvc / 0o10 % 8 == 1;
    regs.c = nzvc % 8 == 1;
}

/// A memory with these words of code from an address on, and a word of data, as the task may use it. None where a word
/// is no number or doesn't stand in the memory.
pub fn memory_of(
    alloc: Global,
    code: &str,
    at: u16,
    cell: Option<(u16, u16)>,
) -> Result<Option<FlatBus>, Memory> {
    let mut bus = FlatBus::new(alloc, ALL)?;
    if put_code(&mut bus, code, at).is_none() || put_cell(&mut bus, cell).is_none() {
        return Ok(None);
    }
    bus.protection = OWN;
    Ok(Some(bus))
}

fn put_code(bus: &mut FlatBus, code: &str, at: u16) -> Option<()> {
    let mut to = at & 0o177776;
    for digits in code.split_ascii_whitespace() {
        bus.write_word(to, octal(digits)?).ok()?;
        to = to.wrapping_add(2);
    }
    Some(())
}

fn put_cell(bus: &mut FlatBus, cell: Option<(u16, u16)>) -> Option<()> {
    match cell {
        Some((at, word)) => bus.write_word(at, word).ok(),
        None => Some(()),
    }
}
