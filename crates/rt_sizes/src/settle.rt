//! The sizes of all records.

ghost use Rattle.std.specs.Prelude.{◌≡◌, ℕ, ◌+◌, ◌<◌, None, false, length, replicate, IfOk};
ghost use Rattle.std.specs.Option.{option_copied};
ghost use Rattle.rt_sizes.specs.Capped.{AreRight, AreAll, AreSizes, IsSettled, missing, one_if, table};
ghost use Rattle.rt_sizes.specs.Capped as spec;
ghost use Rattle.rt_sizes.specs.Sizes as layout;

use crate::order::inner_first;
use crate::size::Size;
use crate::value::{fields_end, size_in};
use rt_modes::{Field, RecordDef};
use rt_words::{List, Memory};
use std::alloc::Global;

/// The size of each record; `known` says of each whether all its fields are known. A record has no size where it contains
/// itself, or a record whose fields aren't all known, other than through REF or PROC.
pub fn record_sizes(
    alloc: Global,
    records: &[RecordDef],
    known: &[bool],
) -> Result<List<Option<Size>>, Memory>
    ensures { IfOk result (λ s. AreSizes (table records.now known.now) s) }
{
    let mut sizes = unknown(alloc, records.len())?;
    let order = inner_first(alloc, records)?;
    find_in_order(records, known, order.as_slice(), sizes.as_mut_slice());
    settle(records, known, sizes.as_mut_slice());
    Ok(List::from_vec(sizes))
}

fn unknown(alloc: Global, count: usize) -> Result<Vec<Option<Size>>, Memory>
    ensures { IfOk result (λ s. s.items ≡ replicate count None) }
{
    Ok(vec![in alloc; None; count]?)
}

/// Finds the sizes of records in an order, where those found before tell them.
fn find_in_order(records: &[RecordDef], known: &[bool], order: &[usize], sizes: &mut [Option<Size>])
    requires { AreRight (table records.now known.now) sizes.old }
    ensures { AreRight (table records.now known.now) sizes.new }
{
    for number in order {
        if *number < sizes.len() {
            find(records, known, sizes, *number);
        }
    }
}

/// Finds all sizes that the sizes found so far tell, until they tell no more.
fn settle(records: &[RecordDef], known: &[bool], sizes: &mut [Option<Size>])
    requires right { AreRight (table records.now known.now) sizes.old }
    requires length { length sizes.old ≡ length records.now }
    ensures { AreSizes (table records.now known.now) sizes.new }
{
    let mut is_changed = true;
    while is_changed {
        is_changed = find_all(records, known, sizes) > 0;
    }
}

/// Finds the size of each record that the sizes found so far tell, and gives how many were found.
fn find_all(records: &[RecordDef], known: &[bool], sizes: &mut [Option<Size>]) -> usize
    requires right { AreRight (table records.now known.now) sizes.old }
    ensures right { AreRight (table records.now known.now) sizes.new }
    ensures missing { missing sizes.new + result ≡ missing sizes.old }
    ensures all { result ≡ 0 → (k : ℕ) → k < length sizes.new → IsSettled (table records.now known.now) sizes.new k }
{
    let mut found = 0;
    for number in 0..sizes.len() {
        if find(records, known, sizes, number) {
            found += 1;
        }
    }
    found
}

/// Finds the size of a record, where the sizes found so far tell it and it isn't found yet.
fn find(records: &[RecordDef], known: &[bool], sizes: &mut [Option<Size>], number: usize) -> bool
    requires right { AreRight (table records.now known.now) sizes.old }
    requires within { number < length sizes.old }
    ensures right { AreRight (table records.now known.now) sizes.new }
    ensures missing { missing sizes.new + one_if result ≡ missing sizes.old }
    ensures kept { result ≡ false → sizes.new ≡ sizes.old }
    ensures settled { result ≡ false → IsSettled (table records.now known.now) sizes.old number }
{
    match size_in(sizes, number) {
        Some(_) => false,
        None => match record_size(records, known, sizes, number) {
            Some(size) => {
                sizes[number] = Some(size);
                true
            }
            None => false,
        },
    }
}

/// The size of a record, where those of the records in it are found.
fn record_size(
    records: &[RecordDef],
    known: &[bool],
    sizes: &[Option<Size>],
    number: usize,
) -> Option<Size>
    ensures { result ≡ spec.record_layer sizes.now (layout.fields_of (table records.now known.now) number) }
{
    let fields = fields_of(records, known, number)?;
    let end = fields_end(sizes, fields, Size::Bytes(0))?;
    Some(end.rounded())
}

/// The fields of a record, where all are known.
fn fields_of<'r>(records: &'r [RecordDef], known: &[bool], number: usize) -> Option<&'r [Field]>
    ensures { option_copied result ≡ layout.fields_of (table records.now known.now) number }
{
    match known.get(number) {
        Some(true) => match records.get(number) {
            Some(record) => Some(record.fields.as_slice()),
            None => None,
        },
        _ => None,
    }
}
