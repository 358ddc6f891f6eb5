//! An order of records in which each stands behind those that it contains, where there is one.
//!
//! What is found of records one by one is found in any order: this one lets it be found in one walk over the fields.

use crate::contain::held;
use rt_modes::{Mode, RecordDef};
use rt_words::{List, Memory};
use std::alloc::Global;

/// A record on the way, and the number of its next field.
#[derive(Clone, Copy)]
struct Visit {
    record: usize,
    field: usize,
}

/// All records, each behind those that it contains, where no record contains itself. No clause promises it: the order is for those who are
/// right in any.
pub fn inner_first(alloc: Global, records: &[RecordDef]) -> Result<List<usize>, Memory> {
    let mut order = List::new(alloc, 0)?;
    let mut path = List::new(alloc, 0)?;
    let mut seen = vec![in alloc; false; records.len()]?;
    for record in 0..records.len() {
        enter(record, seen.as_mut_slice(), &mut path)?;
        walk(records, seen.as_mut_slice(), &mut path, &mut order)?;
    }
    Ok(order)
}

/// Goes the way to its end.
fn walk(
    records: &[RecordDef],
    seen: &mut [bool],
    path: &mut List<Visit>,
    order: &mut List<usize>,
) -> Result<(), Memory> {
    for _ in 0..u64::MAX {
        match path.pop() {
            Some(visit) => step(records, visit, seen, path, order)?,
            None => return Ok(()),
        }
    }
    Ok(())
}

/// Goes on to the next field, or behind the record where it has no further field.
fn step(
    records: &[RecordDef],
    visit: Visit,
    seen: &mut [bool],
    path: &mut List<Visit>,
    order: &mut List<usize>,
) -> Result<(), Memory> {
    let Visit { record, field } = visit;
    match mode_of(records, visit) {
        Some(mode) => {
            let field = field.saturating_add(1);
            path.push(Visit { record, field })?;
            match held(mode) {
                Some(inner) => enter(inner, seen, path),
                None => Ok(()),
            }
        }
        None => order.push(record),
    }
}

/// The mode of the next field.
fn mode_of(records: &[RecordDef], visit: Visit) -> Option<&Mode> {
    match records.get(visit.record) {
        Some(record) => match record.fields.get(visit.field) {
            Some(field) => Some(&field.mode),
            None => None,
        },
        None => None,
    }
}

/// Begins with a record that wasn't seen yet.
fn enter(record: usize, seen: &mut [bool], path: &mut List<Visit>) -> Result<(), Memory> {
    match seen.get(record) {
        Some(false) => {
            seen[record] = true;
            path.push(Visit { record, field: 0 })
        }
        _ => Ok(()),
    }
}
