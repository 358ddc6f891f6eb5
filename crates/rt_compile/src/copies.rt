//! Copies of what an object has of its module.

ghost use Rattle.std.specs.Prelude.{◌≡◌, map, IfOk};
ghost use Rattle.rt_compile.specs.Objects.{call_of, target_of};

use rt_frames::CallPoint;
use rt_modes::{Field, ModeTable, RecordDef};
use rt_object::{Call, Target};
use rt_tree::copy_mode;
use rt_words::{Bytes, List, Memory};
use std::alloc::Global;

/// Fields with the same names and modes.
pub(crate) fn copy_fields(alloc: Global, fields: &[Field]) -> Result<List<Field>, Memory>
    ensures { IfOk result (λ copy. copy ≡ fields.now) }
{
    let mut copy = List::new(alloc, fields.len())?;
    for field in fields {
        copy.push(copy_field(alloc, field)?)?;
    }
    Ok(copy)
}

fn copy_field(alloc: Global, field: &Field) -> Result<Field, Memory>
    ensures { IfOk result (λ copy. copy ≡ field.now) }
{
    let name = field.name.copy(alloc)?;
    let mode = copy_mode(alloc, &field.mode)?;
    Ok(Field { name, mode })
}

/// The same records.
pub(crate) fn copy_table(alloc: Global, table: &ModeTable) -> Result<ModeTable, Memory>
    ensures { IfOk result (λ copy. copy ≡ table.now) }
{
    let records = copy_records(alloc, table.records.as_slice())?;
    Ok(ModeTable { records })
}

fn copy_records(alloc: Global, records: &[RecordDef]) -> Result<List<RecordDef>, Memory>
    ensures { IfOk result (λ copy. copy ≡ records.now) }
{
    let mut copy = List::new(alloc, records.len())?;
    for record in records {
        copy.push(copy_record(alloc, record)?)?;
    }
    Ok(copy)
}

fn copy_record(alloc: Global, record: &RecordDef) -> Result<RecordDef, Memory>
    ensures { IfOk result (λ copy. copy ≡ «record».now) }
{
    let name = record.name.copy(alloc)?;
    let fields = copy_fields(alloc, record.fields.as_slice())?;
    Ok(RecordDef { name, fields })
}

/// The same strings.
pub(crate) fn copy_strings(alloc: Global, strings: &[Bytes]) -> Result<List<Bytes>, Memory>
    ensures { IfOk result (λ copy. copy ≡ strings.now) }
{
    let mut copy = List::new(alloc, strings.len())?;
    for string in strings {
        copy.push(string.copy(alloc)?)?;
    }
    Ok(copy)
}

/// The points of a frame, as they stand in an object.
pub(crate) fn calls_of(alloc: Global, points: List<CallPoint>) -> Result<List<Call>, Memory>
    ensures { IfOk result (λ calls. calls ≡ map call_of points) }
{
    let mut calls = List::new(alloc, points.len())?;
    for point in points.into_vec() {
        calls.push(call_of(point))?;
    }
    Ok(calls)
}

fn call_of(point: CallPoint) -> Call
    ensures { result ≡ call_of point }
{
    let CallPoint {
        depth,
        args,
        target,
    } = point;
    Call {
        depth,
        args,
        target: target_of(target),
    }
}

fn target_of(target: rt_frames::Target) -> Target
    ensures { result ≡ target_of target }
{
    match target {
        rt_frames::Target::Brick(number) => Target::Brick(number),
        rt_frames::Target::Variable(mode) => Target::Mode(mode),
        rt_frames::Target::Error => Target::Error,
    }
}
