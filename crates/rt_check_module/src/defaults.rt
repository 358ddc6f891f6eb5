//! Whether an item for which nothing is written has a start.

ghost use Rattle.std.specs.Prelude.{◌≡◌, ℕ, ◌+◌, ◌<◌, true, false, replicate, length, slice_get, IfOk};
ghost use Rattle.rt_modes.specs.declared.mode.Mode.{out-Mode};
ghost use Rattle.rt_check_module.specs.Defaults as spec;
ghost use Rattle.rt_check_module.specs.Defaults.{AreDefaults, listed};
ghost use Rattle.rt_check_module.specs.Doubts.{AreKept, IsSettled, one_if, still};

use rt_modes::{Field, Mode, ModeTable, RecordDef};
use rt_sizes::inner_first;
use rt_words::{List, Memory};
use std::alloc::Global;

/// Whether an item of a mode has a start though nothing is written for it: all have but a REF, a PROC, and what holds one.
/// `known` says it of each record.
pub fn has_default(known: &[bool], mode: &Mode) -> bool
    ensures { result ≡ spec.has (listed known.now) (out-Mode mode.now) }
{
    match mode {
        Mode::Array(_, of) => element_has(known, of.get()),
        _ => element_has(known, mode),
    }
}

fn element_has(known: &[bool], mode: &Mode) -> bool
    ensures { result ≡ spec.element_has (listed known.now) (out-Mode mode.now) }
{
    match mode {
        Mode::Byte | Mode::Int | Mode::Frac | Mode::Label => true,
        Mode::Record(number) => is_listed(known, usize::from(*number)),
        _ => false,
    }
}

fn is_listed(known: &[bool], number: usize) -> bool
    ensures { result ≡ listed known.now number }
{
    match known.get(number) {
        Some(known) => *known,
        None => false,
    }
}

/// Of each record whether an item of it has a start though nothing is written for it. Each is judged by those that it holds, these first:
/// the time this takes goes by the number of records and fields. A record that is too large, or contains itself, may hold any number of others.
pub fn records_with_default(alloc: Global, modes: &ModeTable) -> Result<List<bool>, Memory>
    ensures { IfOk result (AreDefaults modes.now.records) }
{
    let records = modes.records.as_slice();
    let order = inner_first(alloc, records)?;
    let mut known = all_records(alloc, records.len())?;
    judge_in_order(records, order.as_slice(), known.as_mut_slice());
    settle(records, known.as_mut_slice());
    Ok(List::from_vec(known))
}

/// That each record has one, where none that it holds is looked at.
fn all_records(alloc: Global, count: usize) -> Result<Vec<bool>, Memory>
    ensures { IfOk result (λ known. known.items ≡ replicate count true) }
{
    Ok(vec![in alloc; true; count]?)
}

/// Judges records in an order.
fn judge_in_order(records: &[RecordDef], order: &[usize], known: &mut [bool])
    requires { AreKept records.now known.old }
    ensures { AreKept records.now known.new }
{
    for number in order {
        if *number < known.len() {
            judge(records, known, *number);
        }
    }
}

/// Judges all records until none is found any more that has no start.
fn settle(records: &[RecordDef], known: &mut [bool])
    requires { AreKept records.now known.old }
    ensures { AreDefaults records.now known.new }
{
    let mut is_changed = true;
    while is_changed {
        is_changed = judge_all(records, known) > 0;
    }
}

/// Judges each record, and gives how many were found that have no start.
fn judge_all(records: &[RecordDef], known: &mut [bool]) -> usize
    requires kept { AreKept records.now known.old }
    ensures kept { AreKept records.now known.new }
    ensures still { still known.new + result ≡ still known.old }
    ensures all { result ≡ 0 → (k : ℕ) → k < length known.new → IsSettled records.now known.new k }
{
    let mut found = 0;
    for number in 0..known.len() {
        if judge(records, known, number) {
            found += 1;
        }
    }
    found
}

/// Judges a record by what is known of those that it holds; gives whether it is found that it has no start.
fn judge(records: &[RecordDef], known: &mut [bool], number: usize) -> bool
    requires kept { AreKept records.now known.old }
    requires within { number < length known.old }
    ensures kept { AreKept records.now known.new }
    ensures still { still known.new + one_if result ≡ still known.old }
    ensures same { result ≡ false → known.new ≡ known.old }
    ensures settled { result ≡ false → IsSettled records.now known.old number }
{
    if is_listed(known, number) && !fields_have(records, known, number) {
        known[number] = false;
        true
    } else {
        false
    }
}

/// Whether each field of a record has a start.
fn fields_have(records: &[RecordDef], known: &[bool], number: usize) -> bool
    ensures { result ≡ spec.fields_have (listed known.now) (slice_get records.now number) }
{
    match records.get(number) {
        Some(record) => all_have(known, record.fields.as_slice()),
        None => false,
    }
}

fn all_have(known: &[bool], fields: &[Field]) -> bool
    ensures { result ≡ spec.all_have (listed known.now) fields.now }
{
    for field in fields {
        if !has_default(known, &field.mode) {
            return false;
        }
    }
    true
}
