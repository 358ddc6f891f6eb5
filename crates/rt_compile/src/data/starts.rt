//! Values by their starts.

ghost use Rattle.std.specs.Prelude.{◌≡◌, map, slice_get, IfOk, OnOk};
ghost use Rattle.rt_modes.specs.declared.mode.Mode.{out-Mode};
ghost use Rattle.rt_tree_nodes.specs.Code as seen;
ghost use Rattle.rt_compile.specs.Data as bytes;

use crate::data::offset::offset_of;
use crate::data::written::Data;
use rt_lower::Layouts;
use rt_modes::{Field, Mode};
use rt_object::Relocated;
use rt_tree::{DataStart, Scope};
use rt_words::Memory;
use std::alloc::Global;

/// The bytes of a data brick of these items with these starts, and the words in them that become addresses. It recurses as deep as
/// records and arrays stand in one another.
///
/// # Errors
///
/// Want of memory; also where a place or an offset has more than 16 bits, which is so in no data brick of at most 57,344 bytes, and
/// where a path leads through an array of arrays, which no typed module has.
pub fn data_of(
    alloc: Global,
    layouts: &Layouts,
    scope: &Scope<'_>,
    fields: &[Field],
    starts: &[DataStart],
) -> Result<Data, Memory>
    ensures { IfOk result (λ d. d ≡ bytes.data_of layouts.now (seen.scope scope.now) fields.now starts.now) }
{
    let mut out = Data::nothing(alloc);
    put_fields(layouts, scope, starts, fields, &mut out)?;
    out.put_even()?;
    Ok(out)
}

/// Appends a value of a mode.
#[cycle(starts)]
fn put(
    layouts: &Layouts,
    scope: &Scope<'_>,
    start: &DataStart,
    mode: &Mode,
    out: &mut Data,
) -> Result<(), Memory>
    ensures { OnOk result (out.new ≡ bytes.starts layouts.now (seen.scope scope.now) start.now mode.now out.old) }
{
    match start {
        DataStart::Number(n) => put_number(*n, mode, out),
        DataStart::Text(s) => out.put_address(Relocated::String(*s), 0),
        DataStart::Proc(b) => out.put_address(Relocated::Brick(*b), 0),
        DataStart::Place(b, j, path) => {
            let offset = offset_of(layouts, scope, *b, *j, path.as_slice())?;
            out.put_address(Relocated::Brick(*b), offset)
        }
        DataStart::List(starts) => match mode {
            Mode::Array(length, element) => {
                out.put_word(*length)?;
                put_elements(layouts, scope, starts.as_slice(), element.get(), out)?;
                out.put_even()
            }
            Mode::Record(r) => {
                out.put_even()?;
                put_record(layouts, scope, starts.as_slice(), *r, out)?;
                out.put_even()
            }
            _ => Ok(()),
        },
    }
}

fn put_number(n: u16, mode: &Mode, out: &mut Data) -> Result<(), Memory>
    ensures { OnOk result (out.new ≡ bytes.number n (out-Mode mode.now) out.old) }
{
    match mode {
        Mode::Byte => out.put_byte((n % 256) as u8),
        _ => out.put_word(n),
    }
}

#[cycle(starts)]
fn put_elements(
    layouts: &Layouts,
    scope: &Scope<'_>,
    starts: &[DataStart],
    mode: &Mode,
    out: &mut Data,
) -> Result<(), Memory>
    ensures { OnOk result (out.new ≡ bytes.elements (map (bytes.starts layouts.now (seen.scope scope.now)) starts.now) mode.now out.old) }
{
    for start in starts {
        put(layouts, scope, start, mode, out)?;
    }
    Ok(())
}

#[cycle(starts)]
fn put_record(
    layouts: &Layouts,
    scope: &Scope<'_>,
    starts: &[DataStart],
    number: u16,
    out: &mut Data,
) -> Result<(), Memory>
    ensures { OnOk result (out.new ≡ bytes.record_fields (map (bytes.starts layouts.now (seen.scope scope.now)) starts.now) (slice_get scope.now.records.now number) out.old) }
{
    match scope.record(number) {
        None => Ok(()),
        Some(record) => put_fields(layouts, scope, starts, record.fields.as_slice(), out),
    }
}

/// Appends the fields of a record, or the items of a data brick.
#[cycle(starts)]
fn put_fields(
    layouts: &Layouts,
    scope: &Scope<'_>,
    starts: &[DataStart],
    fields: &[Field],
    out: &mut Data,
) -> Result<(), Memory>
    ensures { OnOk result (out.new ≡ bytes.fields (map (bytes.starts layouts.now (seen.scope scope.now)) starts.now) fields.now out.old) }
{
    let mut left = fields;
    for start in starts {
        match left {
            [field, rest @ ..] => {
                put(layouts, scope, start, &field.mode, out)?;
                left = rest;
            }
            [] => return Ok(()),
        }
    }
    Ok(())
}
