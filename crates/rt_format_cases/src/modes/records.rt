//! The records that the modes of the cases are over.

use crate::modes::decimals::decimals;
use crate::told::tell_count;
use rt_modes::{Field, Mode, ModeFault, ModeTable, RecordDef, read_mode};
use rt_words::{List, Memory, Name, Text};
use std::alloc::Global;

/// The table of records, and the other one that it is compared with.
#[derive(Drop)]
pub struct Tables {
    pub own: ModeTable,
    pub other: ModeTable,
}

impl Tables {
    /// Two tables without records.
    pub fn new(alloc: Global) -> Tables {
        Tables {
            own: no_records(alloc),
            other: no_records(alloc),
        }
    }
}

fn no_records(alloc: Global) -> ModeTable {
    ModeTable {
        records: List::from_vec(Vec::new(alloc)),
    }
}

/// Adds a record to a table, and tells its number.
pub fn describe_record(
    alloc: Global,
    text: &str,
    table: &mut ModeTable,
    out: &mut Text,
) -> Result<(), Memory> {
    let number = table.records.len();
    if !add_record(alloc, text, table)? {
        return out.push_all(b"no record");
    }
    tell_count("record ", number as u64, out)
}

fn add_record(alloc: Global, text: &str, table: &mut ModeTable) -> Result<bool, Memory> {
    let (title, parts) = text.split_once('/').unwrap_or((text, ""));
    match Name::new(alloc, title.trim().as_bytes())? {
        Some(name) => add_named(alloc, name, parts, table),
        None => Ok(false),
    }
}

fn add_named(
    alloc: Global,
    name: Name,
    parts: &str,
    table: &mut ModeTable,
) -> Result<bool, Memory> {
    match fields_of(alloc, parts)? {
        Some(fields) => {
            table.records.push(RecordDef { name, fields })?;
            Ok(true)
        }
        None => Ok(false),
    }
}

fn fields_of(alloc: Global, text: &str) -> Result<Option<List<Field>>, Memory> {
    let mut fields = List::from_vec(Vec::new(alloc));
    let is_read = add_fields(alloc, text, &mut fields)?;
    Ok(is_read.then_some(fields))
}

fn add_fields(alloc: Global, text: &str, fields: &mut List<Field>) -> Result<bool, Memory> {
    for part in text.split('/') {
        if !part.is_empty() && !add_field(alloc, part, fields)? {
            return Ok(false);
        }
    }
    Ok(true)
}

fn add_field(alloc: Global, part: &str, fields: &mut List<Field>) -> Result<bool, Memory> {
    let Some((title, bytes)) = part.split_once('=') else {
        return Ok(false);
    };
    match Name::new(alloc, title.trim().as_bytes())? {
        Some(name) => add_field_named(alloc, name, bytes, fields),
        None => Ok(false),
    }
}

fn add_field_named(
    alloc: Global,
    name: Name,
    bytes: &str,
    fields: &mut List<Field>,
) -> Result<bool, Memory> {
    match mode_of(alloc, bytes)? {
        Some(mode) => {
            fields.push(Field { name, mode })?;
            Ok(true)
        }
        None => Ok(false),
    }
}

/// The mode that these bytes spell, over any records.
pub fn mode_of(alloc: Global, text: &str) -> Result<Option<Mode>, Memory> {
    match decimals(alloc, text)? {
        Some(bytes) => match read_mode(alloc, bytes.as_slice(), 0, u16::MAX) {
            Ok((mode, _behind)) => Ok(Some(mode)),
            Err(ModeFault::BadMode { .. }) => Ok(None),
            Err(ModeFault::Memory) => Err(Memory),
        },
        None => Ok(None),
    }
}
