//! How fields lie: the fields of a record, or the items of a data brick.

ghost use Rattle.std.specs.Prelude.{◌≡◌, ℕ, ◌≤◌, Some, option_map};
ghost use Rattle.rt_sizes.specs.Capped.{AreSizes, counted};
ghost use Rattle.rt_sizes.specs.Capped as spec;
ghost use Rattle.rt_sizes.specs.Sizes.{Table, End, PassWith, Begins};
ghost use Rattle.rt_sizes.specs.Sizes as layout;

use crate::size::Size;
use crate::value::{field_end, fields_end};
use rt_modes::Field;

/// Which field is the one with which fields pass 57,344 bytes, where it and all before it have a size.
pub fn passing_field(sizes: &[Option<Size>], fields: &[Field]) -> Option<usize>
    // It is one with which they pass.
    ensures passes { (t : Table) → AreSizes t sizes.now → (i : ℕ) → result ≡ Some i → PassWith t fields.now i }
    // One with which they pass is found.
    ensures only { (t : Table) → AreSizes t sizes.now → (i : ℕ) → PassWith t fields.now i → result ≡ Some i }
{
    passes_in(sizes, fields)
}

fn passes_in(sizes: &[Option<Size>], fields: &[Field]) -> Option<usize>
    ensures { result ≡ spec.passes_in sizes.now fields.now (Size.Bytes 0) 0 }
{
    let mut end = Size::Bytes(0);
    for number in 0..fields.len() {
        end = field_end(sizes, &fields[number], end)?;
        if !end.is_within() {
            return Some(number);
        }
    }
    None
}

/// How many bytes fields have, where all have a size.
pub fn data_size(sizes: &[Option<Size>], fields: &[Field]) -> Option<Size>
    // They end there.
    ensures size { (t : Table) → AreSizes t sizes.now → (s : Size) → result ≡ Some s → (n : ℕ) × End t fields.now n × (counted n ≡ s) }
    // Where they end is found.
    ensures only { (t : Table) → AreSizes t sizes.now → (n : ℕ) → End t fields.now n → result ≡ Some (counted n) }
{
    fields_end(sizes, fields, Size::Bytes(0))
}

/// Where a field begins, where all before it have a size.
pub fn field_offset(sizes: &[Option<Size>], fields: &[Field], index: usize) -> Option<Size>
    // It begins there.
    ensures place { (t : Table) → AreSizes t sizes.now → (s : Size) → result ≡ Some s → (n : ℕ) × Begins t fields.now index n × (counted n ≡ s) }
    // Where it begins is found.
    ensures only { (t : Table) → AreSizes t sizes.now → (n : ℕ) → Begins t fields.now index n → result ≡ Some (counted n) }
{
    offset(sizes, fields, index)
}

fn offset(sizes: &[Option<Size>], fields: &[Field], index: usize) -> Option<Size>
    ensures { result ≡ spec.offset sizes.now fields.now index }
{
    match fields.get(index) {
        Some(field) => {
            let end = fields_end(sizes, &fields[..index], Size::Bytes(0))?;
            Some(end.place(&field.mode))
        }
        None => None,
    }
}
