//! Full modes over two tables.

use crate::modes::records::{Tables, mode_of};
use rt_modes::{Field, Mode, same_data_mode, same_full_mode, write_data_mode};
use rt_words::{Memory, Text};
use std::alloc::Global;

/// Whether a mode over the table and one over the other have the same full mode.
pub fn describe_same(
    alloc: Global,
    text: &str,
    tables: &Tables,
    out: &mut Text,
) -> Result<(), Memory> {
    let Some((left, right)) = text.split_once(':') else {
        return out.push_all(b"no : between the modes");
    };
    match mode_of(alloc, left)? {
        Some(mode) => tell_same_as(alloc, &mode, right, tables, out),
        None => out.push_all(b"no mode"),
    }
}

fn tell_same_as(
    alloc: Global,
    left: &Mode,
    text: &str,
    tables: &Tables,
    out: &mut Text,
) -> Result<(), Memory> {
    match mode_of(alloc, text)? {
        Some(right) => tell_same(alloc, left, &right, tables, out),
        None => out.push_all(b"no mode"),
    }
}

fn tell_same(
    alloc: Global,
    left: &Mode,
    right: &Mode,
    tables: &Tables,
    out: &mut Text,
) -> Result<(), Memory> {
    let same = same_full_mode(alloc, &tables.own, left, &tables.other, right)?;
    out.push_all(text_of(same).as_bytes())
}

fn text_of(same: bool) -> &'static str {
    if same { "the same" } else { "not the same" }
}

/// The full mode of a data brick with the fields of a record of the other table.
pub fn describe_data(
    alloc: Global,
    text: &str,
    tables: &Tables,
    out: &mut Text,
) -> Result<(), Memory> {
    let Ok(number) = text.parse::<usize>() else {
        return out.push_all(b"no number");
    };
    match tables.other.records.get(number) {
        Some(record) => tell_data(alloc, record.fields.as_slice(), tables, out),
        None => out.push_all(b"no such record"),
    }
}

fn tell_data(
    alloc: Global,
    fields: &[Field],
    tables: &Tables,
    out: &mut Text,
) -> Result<(), Memory> {
    write_data_mode(alloc, &tables.own, fields, out)?;
    let same = same_data_mode(alloc, &tables.own, fields, &tables.other, fields)?;
    out.push_all(b", ")?;
    out.push_all(text_of(same).as_bytes())?;
    out.push_all(b" over both")
}
