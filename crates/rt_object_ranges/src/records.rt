//! Whether the records of an object keep their ranges.

ghost use Rattle.std.specs.Prelude.{◌↔◌, ℕ, ◌<◌, All, IfOk, IsTrue, length};
ghost use Rattle.rt_object.specs.Ranges.{HasRecordRanges, HaveRecordRanges, IsBadRecord};

use crate::fields::are_fields;
use crate::names::records_differ;
use crate::small::{COUNTED, name_is_short};
use rt_modes::RecordDef;
use rt_object::first_bad;
use rt_words::Memory;
use std::alloc::Global;

pub fn are_records(alloc: Global, records: &[RecordDef]) -> Result<bool, Memory>
    ensures { IfOk result (λ b. IsTrue b ↔ HaveRecordRanges records.now) }
{
    if records.len() > COUNTED || !is_each_record(alloc, records)? {
        return Ok(false);
    }
    if !records_differ(alloc, records)? {
        return Ok(false);
    }
    none_is_bad(alloc, records)
}

/// Whether no record contains itself other than through REF or PROC, or is too large.
fn none_is_bad(alloc: Global, records: &[RecordDef]) -> Result<bool, Memory>
    ensures { IfOk result (λ b. IsTrue b ↔ ((k : ℕ) → k < length records.now → IsBadRecord records.now k → ⊥)) }
{
    match first_bad(alloc, records)? {
        Some(_) => Ok(false),
        None => Ok(true),
    }
}

fn is_each_record(alloc: Global, records: &[RecordDef]) -> Result<bool, Memory>
    ensures { IfOk result (λ b. IsTrue b ↔ All (HasRecordRanges (length records.now)) records.now) }
{
    for definition in records {
        if !is_record(alloc, records.len(), definition)? {
            return Ok(false);
        }
    }
    Ok(true)
}

fn is_record(alloc: Global, records: usize, definition: &RecordDef) -> Result<bool, Memory>
    ensures { IfOk result (λ b. IsTrue b ↔ HasRecordRanges records definition.now) }
{
    name_is_short(&definition.name);
    are_fields(alloc, records, false, definition.fields.as_slice())
}
