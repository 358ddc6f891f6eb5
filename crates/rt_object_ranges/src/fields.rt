//! Whether fields keep their ranges.

ghost use Rattle.std.specs.Prelude.{◌↔◌, All, IfOk, IsTrue};
ghost use Rattle.rt_object.specs.Ranges.{HaveFieldRanges};
ghost use Rattle.rt_object_ranges.specs.Parts.{HasFieldRanges, MayBe};

use crate::modes::may_stand;
use crate::names::fields_differ;
use crate::small::{COUNTED, name_is_short};
use rt_modes::{Field, Mode};
use rt_object::is_no_label;
use rt_words::Memory;
use std::alloc::Global;

/// Whether fields keep their ranges, over so many records; a label stands only where labels may.
pub fn are_fields(
    alloc: Global,
    records: usize,
    labels: bool,
    fields: &[Field],
) -> Result<bool, Memory>
    ensures { IfOk result (λ b. IsTrue b ↔ HaveFieldRanges records (MayBe labels) fields.now) }
{
    if fields.len() > COUNTED || !is_each_field(records, labels, fields) {
        return Ok(false);
    }
    fields_differ(alloc, fields)
}

fn is_each_field(records: usize, labels: bool, fields: &[Field]) -> bool
    ensures { IsTrue result ↔ All (HasFieldRanges records labels) fields.now }
{
    for field in fields {
        if !is_field(records, labels, field) {
            return false;
        }
    }
    true
}

fn is_field(records: usize, labels: bool, field: &Field) -> bool
    ensures { IsTrue result ↔ HasFieldRanges records labels field.now }
{
    name_is_short(&field.name);
    may_stand(records, &field.mode) && may_be(labels, &field.mode)
}

fn may_be(labels: bool, mode: &Mode) -> bool
    ensures { IsTrue result ↔ MayBe labels mode.now }
{
    labels || is_no_label(mode)
}
