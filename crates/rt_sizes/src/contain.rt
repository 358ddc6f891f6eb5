//! Records that contain records, other than through REF or PROC.

ghost use Rattle.std.specs.Prelude.{◌≡◌, List, Bool, false, length, replicate, slice_get, Some, true, IfOk, OnOk, IsTrue, ◌↔◌};
ghost use Rattle.rt_sizes.specs.Capped.{AreSizes, table};
ghost use Rattle.rt_sizes.specs.Containing.{Contains};
ghost use Rattle.rt_sizes.specs.Containing as spec;
ghost use Rattle.rt_sizes.specs.Reaching.{mark, reach, visit};

use crate::size::Size;
use crate::value::size_in;
use rt_modes::{Field, Mode, RecordDef};
use rt_words::{List, Memory};
use std::alloc::Global;

/// Whether a record contains itself. The sizes are those of the records, whether or not all their fields are known: a record
/// that has a size doesn't contain itself.
pub fn contains_itself(
    alloc: Global,
    records: &[RecordDef],
    sizes: &[Option<Size>],
    number: usize,
) -> Result<bool, Memory>
    ensures { (known : List Bool) → AreSizes (table records.now known) sizes.now → IfOk result (λ b. IsTrue b ↔ Contains records.now number number) }
{
    match size_in(sizes, number) {
        Some(_) => Ok(false),
        None => has_way_back(alloc, records, number),
    }
}

fn has_way_back(alloc: Global, records: &[RecordDef], number: usize) -> Result<bool, Memory>
    ensures { IfOk result (λ b. IsTrue b ↔ Contains records.now number number) }
{
    let mut marks = unmarked(alloc, records.len())?;
    mark_contained(alloc, records, number, marks.as_mut_slice())?;
    Ok(is_marked(marks.as_slice(), number))
}

/// Marks all records that a record contains.
fn mark_contained(
    alloc: Global,
    records: &[RecordDef],
    number: usize,
    marks: &mut [bool],
) -> Result<(), Memory>
    requires { marks.old ≡ replicate (length records.now) false }
    ensures { OnOk result (slice_get marks.new number ≡ Some true ↔ Contains records.now number number) }
{
    let mut waiting = List::new(alloc, 0)?;
    visit_fields(marks, &mut waiting, fields_of(records, number))?;
    while let Some(next) = waiting.pop() {
        visit_fields(marks, &mut waiting, fields_of(records, next))?;
    }
    Ok(())
}

fn unmarked(alloc: Global, count: usize) -> Result<Vec<bool>, Memory>
    ensures { IfOk result (λ marks. marks.items ≡ replicate count false) }
{
    Ok(vec![in alloc; false; count]?)
}

pub fn is_marked(marks: &[bool], number: usize) -> bool
    ensures { IsTrue result ↔ slice_get marks.now number ≡ Some true }
{
    match marks.get(number) {
        Some(mark) => *mark,
        None => false,
    }
}

/// The fields of a record; of a number that the table lacks none.
fn fields_of(records: &[RecordDef], number: usize) -> &[Field]
    ensures { result.now ≡ spec.fields_of records.now number }
{
    match records.get(number) {
        Some(record) => record.fields.as_slice(),
        None => &[],
    }
}

/// Marks the records that fields have.
fn visit_fields(
    marks: &mut [bool],
    waiting: &mut List<usize>,
    fields: &[Field],
) -> Result<(), Memory>
    ensures { OnOk result (reach marks.new waiting.new ≡ visit fields.now (reach marks.old waiting.old)) }
{
    for field in fields {
        if let Some(number) = held(&field.mode) {
            mark_record(marks, waiting, number)?;
        }
    }
    Ok(())
}

/// Marks a record that isn't marked, and lets it wait.
fn mark_record(marks: &mut [bool], waiting: &mut List<usize>, number: usize) -> Result<(), Memory>
    ensures { OnOk result (reach marks.new waiting.new ≡ mark (Some number) (reach marks.old waiting.old)) }
{
    match marks.get(number) {
        Some(false) => {
            marks[number] = true;
            waiting.push(number)
        }
        _ => Ok(()),
    }
}

/// The record that a value of a mode is, or that its elements are.
pub fn held(mode: &Mode) -> Option<usize>
    ensures { result ≡ spec.held mode.now }
{
    match mode {
        Mode::Array(_, of) => held(of.get()),
        Mode::Record(number) => Some(usize::from(*number)),
        Mode::Byte | Mode::Int | Mode::Frac | Mode::Label => None,
        Mode::Ref(_) | Mode::RefArray(_) | Mode::Proc(_, _) => None,
    }
}
