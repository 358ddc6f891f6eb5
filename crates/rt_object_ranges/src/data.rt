//! Whether what an object has of a data brick keeps its ranges.

ghost use Rattle.std.specs.Prelude.{◌↔◌, ℕ, IfOk, IsTrue};
ghost use Rattle.rt_object.specs.Ranges.{HasDataRanges, HaveBytes, HaveOutsideRanges, HaveSize, table_of};
ghost use Rattle.rt_object_ranges.specs.Parts.{MayBe};
ghost use Rattle.rt_sizes.specs.Capped.{AreSizes};

use crate::fields::are_fields;
use crate::relocations::are_relocations;
use crate::small::bytes_are_small;
use rt_modes::Field;
use rt_object::{DataContent, Known, even};
use rt_sizes::{Size, data_size};
use rt_words::Memory;
use std::alloc::Global;

pub fn is_data_content(
    alloc: Global,
    known: &Known<'_>,
    content: &DataContent,
) -> Result<bool, Memory>
    requires { AreSizes (table_of known.now.records.now) known.now.sizes.now }
    ensures { IfOk result (λ b. IsTrue b ↔ HasDataRanges known.now.records.now known.now.strings known.now.bricks content.now) }
{
    let fields = content.fields.as_slice();
    let bytes = content.bytes.as_slice();
    bytes_are_small(bytes);
    if !have_bytes(known, fields, bytes.len()) {
        return Ok(false);
    }
    if !are_relocations(known, 2, bytes.len(), content.relocations.as_slice()) {
        return Ok(false);
    }
    are_fields(alloc, known.records.len(), false, fields)
}

/// Whether fields of a data brick that isn't of this module keep their ranges; a label stands only where labels may.
pub fn are_outside(
    alloc: Global,
    known: &Known<'_>,
    labels: bool,
    fields: &[Field],
) -> Result<bool, Memory>
    requires { AreSizes (table_of known.now.records.now) known.now.sizes.now }
    ensures { IfOk result (λ b. IsTrue b ↔ HaveOutsideRanges known.now.records.now known.now.strings known.now.bricks (MayBe labels) fields.now) }
{
    if !have_some_size(known, fields) {
        return Ok(false);
    }
    are_fields(alloc, known.records.len(), labels, fields)
}

/// Whether fields take so many bytes.
fn have_bytes(known: &Known<'_>, fields: &[Field], bytes: usize) -> bool
    requires { AreSizes (table_of known.now.records.now) known.now.sizes.now }
    ensures { IsTrue result ↔ HaveBytes known.now.records.now fields.now bytes }
{
    match data_size(known.sizes, fields) {
        Some(Size::Bytes(end)) => even(end) == bytes,
        Some(Size::TooLarge) => false,
        None => false,
    }
}

/// Whether fields have as many bytes as a data brick may have.
fn have_some_size(known: &Known<'_>, fields: &[Field]) -> bool
    requires { AreSizes (table_of known.now.records.now) known.now.sizes.now }
    ensures { IsTrue result ↔ ((n : ℕ) × HaveSize known.now.records.now fields.now n) }
{
    match data_size(known.sizes, fields) {
        Some(Size::Bytes(_)) => true,
        Some(Size::TooLarge) => false,
        None => false,
    }
}
