//! Whether the names of a list differ.

ghost use Rattle.std.specs.Prelude.{◌↔◌, IfOk, IsTrue};
ghost use Rattle.rt_object.specs.Ranges.{AreDifferent, brick_names, field_names, record_names};

use rt_modes::{Field, RecordDef};
use rt_object::{Brick, note};
use rt_words::Memory;
use std::alloc::Global;
use std::collections::BTreeSet;

/// Whether no two fields have one name.
pub fn fields_differ(alloc: Global, fields: &[Field]) -> Result<bool, Memory>
    ensures { IfOk result (λ b. IsTrue b ↔ AreDifferent (field_names fields.now)) }
{
    let mut names = BTreeSet::new(alloc);
    for field in fields {
        if !note(alloc, &mut names, field.name.as_slice())? {
            return Ok(false);
        }
    }
    Ok(true)
}

/// Whether no two records have one name.
pub fn records_differ(alloc: Global, records: &[RecordDef]) -> Result<bool, Memory>
    ensures { IfOk result (λ b. IsTrue b ↔ AreDifferent (record_names records.now)) }
{
    let mut names = BTreeSet::new(alloc);
    for definition in records {
        if !note(alloc, &mut names, definition.name.as_slice())? {
            return Ok(false);
        }
    }
    Ok(true)
}

/// Whether no two bricks have one name.
pub fn bricks_differ(alloc: Global, bricks: &[Brick]) -> Result<bool, Memory>
    ensures { IfOk result (λ b. IsTrue b ↔ AreDifferent (brick_names bricks.now)) }
{
    let mut names = BTreeSet::new(alloc);
    for brick in bricks {
        if !note(alloc, &mut names, brick.name.as_slice())? {
            return Ok(false);
        }
    }
    Ok(true)
}
