//! The sizes of records, and where their fields lie.

use crate::told::{tell_count, tell_number};
use rt_modes::{Field, ModeTable, RecordDef};
use rt_sizes::{Size, contains_itself, data_size, field_offset, passing_field, record_sizes};
use rt_words::{List, Memory, Text};
use std::alloc::Global;

/// The size of each record.
pub fn describe_sizes(alloc: Global, table: &ModeTable, out: &mut Text) -> Result<(), Memory> {
    let records = table.records.as_slice();
    let sizes = sizes_of(alloc, records)?;
    tell_sizes(alloc, records, sizes.as_slice(), out)
}

fn sizes_of(alloc: Global, records: &[RecordDef]) -> Result<List<Option<Size>>, Memory> {
    let known = vec![in alloc; true; records.len()]?;
    record_sizes(alloc, records, known.as_slice())
}

fn tell_sizes(
    alloc: Global,
    records: &[RecordDef],
    sizes: &[Option<Size>],
    out: &mut Text,
) -> Result<(), Memory> {
    for (number, record) in records.iter().enumerate() {
        if number > 0 {
            out.push_all(b"; ")?;
        }
        out.push_all(record.name.as_slice())?;
        out.push(b' ')?;
        if contains_itself(alloc, records, sizes, number)? {
            out.push_all(b"contains itself")?;
        } else {
            tell_size(sizes.get(number).copied().flatten(), out)?;
        }
    }
    Ok(())
}

fn tell_size(size: Option<Size>, out: &mut Text) -> Result<(), Memory> {
    match size {
        Some(Size::Bytes(bytes)) => tell_number(u64::from(bytes), out),
        Some(Size::TooLarge) => out.push_all(b"too large"),
        None => out.push_all(b"no size"),
    }
}

/// Where the fields of a record lie, where they end, and with which they pass the largest size.
pub fn describe_layout(
    alloc: Global,
    text: &str,
    table: &ModeTable,
    out: &mut Text,
) -> Result<(), Memory> {
    let Ok(number) = text.parse::<usize>() else {
        return out.push_all(b"no number");
    };
    let Some(record) = table.records.get(number) else {
        return out.push_all(b"no such record");
    };
    let sizes = sizes_of(alloc, table.records.as_slice())?;
    tell_layout(sizes.as_slice(), record.fields.as_slice(), out)
}

fn tell_layout(sizes: &[Option<Size>], fields: &[Field], out: &mut Text) -> Result<(), Memory> {
    for (number, field) in fields.iter().enumerate() {
        out.push_all(field.name.as_slice())?;
        out.push_all(b" at ")?;
        tell_size(field_offset(sizes, fields, number), out)?;
        out.push_all(b"; ")?;
    }
    tell_size(data_size(sizes, fields), out)?;
    match passing_field(sizes, fields) {
        Some(number) => tell_count(" with field ", number as u64, out),
        None => Ok(()),
    }
}
