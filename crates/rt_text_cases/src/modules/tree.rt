//! Typed modules as texts.

use crate::expansion::write_bytes;
use crate::modules::starts::show_starts;
use crate::modules::statements::show_body;
use crate::stop::Stop;
use rt_modes::{Field, Mode, ModeTable, RecordDef, write_data_mode, write_mode};
use rt_tree::{Brick, BrickSort, ProcBody, TypedModule};
use rt_words::{Bytes, Text};
use std::alloc::Global;
use std::fmt::Write;

/// Writes a module: the title, the records, the bricks and the strings.
pub fn show_module(alloc: Global, module: &TypedModule, out: &mut String) -> Result<(), Stop> {
    out.push(' ')?;
    write_bytes(out, module.title().as_slice())?;
    for record in module.modes().records.as_slice() {
        show_record(alloc, module.modes(), record, out)?;
    }
    for brick in module.bricks().as_slice() {
        show_brick(alloc, module.modes(), brick, out)?;
    }
    for string in module.strings().as_slice() {
        show_string(string, out)?;
    }
    Ok(())
}

fn show_record(
    alloc: Global,
    modes: &ModeTable,
    record: &RecordDef,
    out: &mut String,
) -> Result<(), Stop> {
    out.push_str(" | MODE ")?;
    write_bytes(out, record.name.as_slice())?;
    show_fields(alloc, modes, record.fields.as_slice(), out)
}

fn show_string(string: &Bytes, out: &mut String) -> Result<(), Stop> {
    out.push_str(" | <")?;
    write_bytes(out, string.as_slice())?;
    Ok(out.push('>')?)
}

fn show_brick(
    alloc: Global,
    modes: &ModeTable,
    brick: &Brick,
    out: &mut String,
) -> Result<(), Stop> {
    let kind = brick.kind;
    write!(out, " | {kind:?} ")?;
    write_bytes(out, brick.name.as_slice())?;
    if let BrickSort::Proc(mode, Some(body)) = &brick.sort {
        show_mode(alloc, modes, mode, out)?;
        show_sizes(body, out)?;
    }
    show_inside(alloc, modes, &brick.sort, out)
}

fn show_sizes(body: &ProcBody, out: &mut String) -> Result<(), Stop> {
    let (locals, labels, items) = (body.locals.len(), body.labels, body.items);
    Ok(write!(out, " {locals} locals {labels} labels {items} items:")?)
}

/// Writes what the last brick of a module is.
pub fn show_last(alloc: Global, module: &TypedModule, out: &mut String) -> Result<(), Stop> {
    match module.bricks().as_slice() {
        [.., last] => show_inside(alloc, module.modes(), &last.sort, out),
        [] => Ok(()),
    }
}

// What a brick is: of an own procedure what it does, of data the modes and starts of its items.
fn show_inside(
    alloc: Global,
    modes: &ModeTable,
    sort: &BrickSort,
    out: &mut String,
) -> Result<(), Stop> {
    match sort {
        BrickSort::Proc(_, Some(body)) => show_body(out, &body.body),
        BrickSort::Proc(mode, None) => show_mode(alloc, modes, mode, out),
        BrickSort::Data(fields, starts) => {
            show_fields(alloc, modes, fields.as_slice(), out)?;
            show_starts(out, starts.as_slice())
        }
        BrickSort::Stack(words) => Ok(write!(out, " STACK {words}")?),
    }
}

fn show_mode(alloc: Global, modes: &ModeTable, mode: &Mode, out: &mut String) -> Result<(), Stop> {
    let mut text = Text::from_vec(Vec::new(alloc));
    write_mode(alloc, modes, mode, &mut text)?;
    show_written(text.as_slice(), out)
}

fn show_fields(
    alloc: Global,
    modes: &ModeTable,
    fields: &[Field],
    out: &mut String,
) -> Result<(), Stop> {
    let mut text = Text::from_vec(Vec::new(alloc));
    write_data_mode(alloc, modes, fields, &mut text)?;
    show_written(text.as_slice(), out)
}

fn show_written(bytes: &[u8], out: &mut String) -> Result<(), Stop> {
    out.push(' ')?;
    write_bytes(out, bytes)
}
