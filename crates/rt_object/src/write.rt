//! An object, written as its bytes.

ghost use Rattle.std.specs.Prelude.{◌≡◌, ◌++◌, IfOk, OnOk};
ghost use Rattle.rt_words.specs.Spelling.{spell_all};
ghost use Rattle.rt_object.specs.Grammar.{IsObject};
ghost use Rattle.rt_object.specs.Spelling.{block_spelling, count_spelling, counted_spelling, field_spelling, fields_spelling, lists_spelling, object_spelling, record_spelling};

use crate::object::{Object, ObjectParts};
use crate::write_bricks::put_bricks;
use rt_modes::{Field, RecordDef, spell_mode};
use rt_words::{Bytes, Memory, Text, put_name, put_word, put_words};
use std::alloc::Global;

/// The one spelling of an object.
pub fn write_object(alloc: Global, object: &Object) -> Result<Bytes, Memory>
    ensures { IfOk result (λ b. IsObject b object.now) }
{
    let mut out = Text::new(alloc, 0)?;
    put_object(alloc, object.parts(), &mut out)?;
    Ok(out.into_list())
}

fn put_object(alloc: Global, parts: &ObjectParts, out: &mut Text) -> Result<(), Memory>
    ensures { OnOk result (out.new.items ≡ out.old.items ++ object_spelling parts.now) }
{
    out.push_all(b"RTO\x01")?;
    put_name(&parts.title, out)?;
    put_lists(alloc, parts, out)
}

/// What stands behind the title.
fn put_lists(alloc: Global, parts: &ObjectParts, out: &mut Text) -> Result<(), Memory>
    ensures { OnOk result (out.new.items ≡ out.old.items ++ lists_spelling parts.now) }
{
    put_records(alloc, parts.records.records.as_slice(), out)?;
    put_strings(parts.strings.as_slice(), out)?;
    put_bricks(alloc, parts.bricks.as_slice(), out)?;
    put_count(parts.taken.len(), out)?;
    put_words(parts.taken.as_slice(), out)
}

/// A number of elements, as a word.
pub fn put_count(count: usize, out: &mut Text) -> Result<(), Memory>
    ensures { OnOk result (out.new.items ≡ out.old.items ++ count_spelling count) }
{
    put_word((count % 65536) as u16, out)
}

fn put_records(alloc: Global, records: &[RecordDef], out: &mut Text) -> Result<(), Memory>
    ensures { OnOk result (out.new.items ≡ out.old.items ++ counted_spelling record_spelling records.now) }
{
    put_count(records.len(), out)?;
    put_each_record(alloc, records, out)
}

fn put_each_record(alloc: Global, records: &[RecordDef], out: &mut Text) -> Result<(), Memory>
    ensures { OnOk result (out.new.items ≡ out.old.items ++ spell_all record_spelling records.now) }
{
    for definition in records {
        put_record(alloc, definition, out)?;
    }
    Ok(())
}

fn put_record(alloc: Global, definition: &RecordDef, out: &mut Text) -> Result<(), Memory>
    ensures { OnOk result (out.new.items ≡ out.old.items ++ record_spelling definition.now) }
{
    put_name(&definition.name, out)?;
    put_fields(alloc, definition.fields.as_slice(), out)
}

/// Fields behind their number.
pub fn put_fields(alloc: Global, fields: &[Field], out: &mut Text) -> Result<(), Memory>
    ensures { OnOk result (out.new.items ≡ out.old.items ++ fields_spelling fields.now) }
{
    put_count(fields.len(), out)?;
    put_each_field(alloc, fields, out)
}

fn put_each_field(alloc: Global, fields: &[Field], out: &mut Text) -> Result<(), Memory>
    ensures { OnOk result (out.new.items ≡ out.old.items ++ spell_all field_spelling fields.now) }
{
    for field in fields {
        put_field(alloc, field, out)?;
    }
    Ok(())
}

fn put_field(alloc: Global, field: &Field, out: &mut Text) -> Result<(), Memory>
    ensures { OnOk result (out.new.items ≡ out.old.items ++ field_spelling field.now) }
{
    put_name(&field.name, out)?;
    spell_mode(alloc, &field.mode, out)
}

fn put_strings(strings: &[Bytes], out: &mut Text) -> Result<(), Memory>
    ensures { OnOk result (out.new.items ≡ out.old.items ++ counted_spelling block_spelling strings.now) }
{
    put_count(strings.len(), out)?;
    put_each_string(strings, out)
}

fn put_each_string(strings: &[Bytes], out: &mut Text) -> Result<(), Memory>
    ensures { OnOk result (out.new.items ≡ out.old.items ++ spell_all block_spelling strings.now) }
{
    for string in strings {
        put_block(string.as_slice(), out)?;
    }
    Ok(())
}

/// Bytes behind their number.
pub fn put_block(bytes: &[u8], out: &mut Text) -> Result<(), Memory>
    ensures { OnOk result (out.new.items ≡ out.old.items ++ block_spelling bytes.now) }
{
    put_count(bytes.len(), out)?;
    out.push_all(bytes)
}
