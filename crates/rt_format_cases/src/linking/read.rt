//! Objects, as they are read from a line.

use crate::bytes::bytes_of;
use rt_object::{Object, ObjectFault, read_object};
use rt_words::{List, Memory};
use std::alloc::Global;

/// The objects of a text with `|` between them. None where one is no object.
pub fn read_objects(alloc: Global, text: &str) -> Result<Option<List<Object>>, Memory> {
    let mut objects = List::from_vec(Vec::new(alloc));
    let is_read = add_objects(alloc, text, &mut objects)?;
    Ok(is_read.then_some(objects))
}

fn add_objects(alloc: Global, text: &str, objects: &mut List<Object>) -> Result<bool, Memory> {
    for part in text.split('|') {
        if !add_object(alloc, part, objects)? {
            return Ok(false);
        }
    }
    Ok(true)
}

fn add_object(alloc: Global, text: &str, objects: &mut List<Object>) -> Result<bool, Memory> {
    match read_one(alloc, text)? {
        Some(object) => {
            objects.push(object)?;
            Ok(true)
        }
        None => Ok(false),
    }
}

/// The object of these bytes, where they are one.
pub fn read_one(alloc: Global, text: &str) -> Result<Option<Object>, Memory> {
    match bytes_of(alloc, text)? {
        Some(bytes) => object_of(alloc, bytes.as_slice()),
        None => Ok(None),
    }
}

fn object_of(alloc: Global, bytes: &[u8]) -> Result<Option<Object>, Memory> {
    match read_object(alloc, bytes) {
        Ok(object) => Ok(Some(object)),
        Err(ObjectFault::Memory) => Err(Memory),
        Err(ObjectFault::BadObject { .. } | ObjectFault::Version { .. }) => Ok(None),
    }
}
