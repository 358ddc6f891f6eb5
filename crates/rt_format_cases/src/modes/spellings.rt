//! Modes that are read, written and spelled.

use crate::modes::decimals::{decimals, repeated, tell_decimals};
use crate::told::{empty, tell_count};
use rt_modes::{Mode, ModeFault, ModeTable, read_mode, same_full_mode, spell_mode, write_mode};
use rt_words::{Memory, Text};
use std::alloc::Global;

/// The mode at a place of some bytes.
pub fn describe_mode(
    alloc: Global,
    text: &str,
    table: &ModeTable,
    out: &mut Text,
) -> Result<(), Memory> {
    let Some((place, bytes)) = text.split_once(':') else {
        return out.push_all(b"no : behind the place");
    };
    let Ok(at) = place.trim().parse::<usize>() else {
        return out.push_all(b"no place");
    };
    match decimals(alloc, bytes)? {
        Some(bytes) => tell_read(alloc, bytes.as_slice(), at, table, out),
        None => out.push_all(b"no bytes"),
    }
}

fn tell_read(
    alloc: Global,
    bytes: &[u8],
    at: usize,
    table: &ModeTable,
    out: &mut Text,
) -> Result<(), Memory> {
    if at > bytes.len() {
        return out.push_all(b"past the end");
    }
    match read_mode(alloc, bytes, at, count_of(table)) {
        Ok((mode, behind)) => tell_mode(alloc, table, &mode, behind, out),
        Err(fault) => tell_fault(&fault, out),
    }
}

fn count_of(table: &ModeTable) -> u16 {
    u16::try_from(table.records.len()).unwrap_or(u16::MAX)
}

fn tell_fault(fault: &ModeFault, out: &mut Text) -> Result<(), Memory> {
    match fault {
        ModeFault::BadMode { at } => tell_count("refused at ", *at as u64, out),
        ModeFault::Memory => Err(Memory),
    }
}

fn tell_mode(
    alloc: Global,
    table: &ModeTable,
    mode: &Mode,
    behind: usize,
    out: &mut Text,
) -> Result<(), Memory> {
    write_mode(alloc, table, mode, out)?;
    tell_count(" to ", behind as u64, out)?;
    out.push(b':')?;
    tell_spelling(alloc, mode, out)?;
    if !same_full_mode(alloc, table, mode, table, mode)? {
        out.push_all(b", which isn't itself")?;
    }
    Ok(())
}

fn tell_spelling(alloc: Global, mode: &Mode, out: &mut Text) -> Result<(), Memory> {
    let mut spelling = empty(alloc);
    spell_mode(alloc, mode, &mut spelling)?;
    tell_decimals(spelling.as_slice(), out)
}

/// The place behind a mode whose spelling has parts that stand many times.
pub fn describe_deep(
    alloc: Global,
    text: &str,
    table: &ModeTable,
    out: &mut Text,
) -> Result<(), Memory> {
    match repeated(alloc, text)? {
        Some(bytes) => tell_behind(alloc, bytes.as_slice(), table, out),
        None => out.push_all(b"no bytes"),
    }
}

fn tell_behind(
    alloc: Global,
    bytes: &[u8],
    table: &ModeTable,
    out: &mut Text,
) -> Result<(), Memory> {
    match read_mode(alloc, bytes, 0, count_of(table)) {
        Ok((_mode, behind)) => tell_count("to ", behind as u64, out),
        Err(fault) => tell_fault(&fault, out),
    }
}
