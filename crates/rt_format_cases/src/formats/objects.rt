//! Objects that are read and written again.

use crate::formats::tell_whether_same;
use crate::told::{tell_count, tell_number};
use rt_object::{Object, ObjectFault, ObjectParts, read_object, write_object};
use rt_words::{Memory, Text};
use std::alloc::Global;

/// The object that bytes are, or the place where they are refused, or the version that they name.
pub fn tell_object(alloc: Global, bytes: &[u8], out: &mut Text) -> Result<(), Memory> {
    match read_object(alloc, bytes) {
        Ok(object) => tell_read(alloc, &object, bytes, out),
        Err(ObjectFault::BadObject { at }) => tell_count("refused at ", at as u64, out),
        Err(ObjectFault::Version { found }) => tell_count("version ", u64::from(found), out),
        Err(ObjectFault::Memory) => Err(Memory),
    }
}

/// Where the front of an object is refused.
pub fn tell_object_front(alloc: Global, front: &[u8], out: &mut Text) -> Result<(), Memory> {
    match read_object(alloc, front) {
        Ok(_object) => out.push_all(b"an object"),
        Err(ObjectFault::BadObject { at }) => tell_number(at as u64, out),
        Err(ObjectFault::Version { found }) => tell_count("version ", u64::from(found), out),
        Err(ObjectFault::Memory) => Err(Memory),
    }
}

/// The parts of an object, and whether it is written as the bytes that it was read from.
fn tell_read(alloc: Global, object: &Object, bytes: &[u8], out: &mut Text) -> Result<(), Memory> {
    tell_parts(object.parts(), out)?;
    let again = write_object(alloc, object)?;
    tell_whether_same(again.as_slice(), bytes, out)
}

fn tell_parts(parts: &ObjectParts, out: &mut Text) -> Result<(), Memory> {
    out.push_all(parts.title.as_slice())?;
    tell_count(": records ", parts.records.records.len() as u64, out)?;
    tell_count(", strings ", parts.strings.len() as u64, out)?;
    tell_count(", bricks ", parts.bricks.len() as u64, out)?;
    tell_count(", taken ", parts.taken.len() as u64, out)
}
