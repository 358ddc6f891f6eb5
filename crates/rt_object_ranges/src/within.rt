//! The object of parts that keep its ranges.

ghost use Rattle.std.specs.Prelude.{◌↔◌, IfOk, IsTrue};
ghost use Rattle.rt_object.specs.Ranges.{HasObjectRanges};
ghost use Rattle.rt_object_ranges.specs.Within.{IsWithin};

use crate::bricks::are_bricks;
use crate::records::are_records;
use crate::small::{COUNTED, name_is_short};
use crate::strings::are_strings;
use crate::taken::are_taken;
use rt_object::{Object, ObjectParts};
use rt_words::Memory;
use std::alloc::Global;

/// The object of these parts; none exactly where they don't keep the ranges of an object.
pub fn object_within(alloc: Global, parts: ObjectParts) -> Result<Option<Object>, Memory>
    ensures { IfOk result (IsWithin parts) }
{
    if are_within(alloc, &parts)? {
        Ok(Some(Object::new(parts)))
    } else {
        Ok(None)
    }
}

fn are_within(alloc: Global, parts: &ObjectParts) -> Result<bool, Memory>
    ensures { IfOk result (λ b. IsTrue b ↔ HasObjectRanges parts.now) }
{
    let records = parts.records.records.as_slice();
    let strings = parts.strings.as_slice();
    let bricks = parts.bricks.as_slice();
    let taken = parts.taken.as_slice();
    name_is_short(&parts.title);
    if bricks.len() > COUNTED || !are_strings(strings) || !are_taken(bricks, taken) {
        return Ok(false);
    }
    if !are_records(alloc, records)? {
        return Ok(false);
    }
    are_bricks(alloc, records, strings.len(), bricks)
}
