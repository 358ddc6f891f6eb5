//! Records that contain themselves, or are too large.

ghost use Rattle.std.specs.Prelude.{◌≡◌, ◌↔◌, length, replicate, true, IfOk, IsTrue};
ghost use Rattle.rt_sizes.specs.Capped.{AreSizes, size_in};
ghost use Rattle.rt_sizes.specs.Rings.{IsFirstRing};
ghost use Rattle.rt_object.specs.Known.{IsFirst, is_at, is_found, is_too_large};
ghost use Rattle.rt_object.specs.Ranges.{table_of};

use rt_modes::RecordDef;
use rt_sizes::{Size, first_ring, record_sizes};
use rt_words::{List, Memory};
use std::alloc::Global;

/// The first record that contains itself other than through REF or PROC, or has more than 57,344 bytes.
pub fn first_bad(alloc: Global, records: &[RecordDef]) -> Result<Option<usize>, Memory>
    ensures { IfOk result (IsFirst records.now) }
{
    let sizes = sizes_of(alloc, records)?;
    let ring = first_ring(alloc, records)?;
    Ok(first_of(records, sizes.as_slice(), ring))
}

/// The first record that is too large, or the first that contains itself, where it stands before that.
fn first_of(records: &[RecordDef], sizes: &[Option<Size>], ring: Option<usize>) -> Option<usize>
    requires sizes { AreSizes (table_of records.now) sizes.now }
    requires ring { IsFirstRing records.now ring }
    ensures { IsFirst records.now result }
{
    for number in 0..records.len() {
        if is_found(sizes, ring, number) {
            return Some(number);
        }
    }
    None
}

fn is_found(sizes: &[Option<Size>], ring: Option<usize>, number: usize) -> bool
    ensures { result ≡ is_found sizes.now ring number }
{
    is_at(ring, number) || is_too_large(sizes, number)
}

fn is_at(ring: Option<usize>, number: usize) -> bool
    ensures { result ≡ is_at ring number }
{
    match ring {
        Some(first) => first == number,
        None => false,
    }
}

fn is_too_large(sizes: &[Option<Size>], number: usize) -> bool
    ensures { result ≡ is_too_large (size_in sizes.now number) }
{
    match sizes.get(number) {
        Some(Some(size)) => !size.is_within(),
        _ => false,
    }
}

/// The size of each record.
pub fn sizes_of(alloc: Global, records: &[RecordDef]) -> Result<List<Option<Size>>, Memory>
    ensures { IfOk result (λ s. AreSizes (table_of records.now) s) }
{
    let known = all_true(alloc, records.len())?;
    record_sizes(alloc, records, known.as_slice())
}

fn all_true(alloc: Global, count: usize) -> Result<Vec<bool>, Memory>
    ensures { IfOk result (λ known. known.items ≡ replicate count true) }
{
    Ok(vec![in alloc; true; count]?)
}
