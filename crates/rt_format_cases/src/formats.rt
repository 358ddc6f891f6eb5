//! What bytes are, images or objects, or where they are refused.
//!
//! - `image 52544901 ..`: the image that these bytes are, and whether it is written as the same bytes; or the place where
//!   they are refused.
//! - `image cuts 52544901 ..`: the places where the fronts of these bytes are refused, from no byte up to all but the last.
//! - `object 52544f01 ..`, `object cuts 52544f01 ..`: the same of objects; or the version that the bytes name, where it is
//!   another.

mod images;
mod objects;

use crate::bytes::bytes_of;
use images::{tell_image, tell_image_front};
use objects::{tell_object, tell_object_front};
use rt_words::{Memory, Text};
use std::alloc::Global;

/// What bytes are read as.
#[derive(Clone, Copy)]
enum Format {
    Image,
    Object,
}

/// Answers a case of this part; false where it is none.
pub fn answer(alloc: Global, kind: &str, rest: &str, out: &mut Text) -> Result<bool, Memory> {
    match kind {
        "image" => describe(alloc, Format::Image, rest, out)?,
        "object" => describe(alloc, Format::Object, rest, out)?,
        _ => return Ok(false),
    }
    Ok(true)
}

fn describe(alloc: Global, format: Format, rest: &str, out: &mut Text) -> Result<(), Memory> {
    match rest.strip_prefix("cuts ") {
        Some(text) => describe_fronts(alloc, format, text, out),
        None => describe_whole(alloc, format, rest, out),
    }
}

fn describe_whole(alloc: Global, format: Format, text: &str, out: &mut Text) -> Result<(), Memory> {
    match bytes_of(alloc, text)? {
        Some(bytes) => tell_whole(alloc, format, bytes.as_slice(), out),
        None => out.push_all(b"no bytes"),
    }
}

fn tell_whole(alloc: Global, format: Format, bytes: &[u8], out: &mut Text) -> Result<(), Memory> {
    match format {
        Format::Image => tell_image(alloc, bytes, out),
        Format::Object => tell_object(alloc, bytes, out),
    }
}

fn describe_fronts(
    alloc: Global,
    format: Format,
    text: &str,
    out: &mut Text,
) -> Result<(), Memory> {
    match bytes_of(alloc, text)? {
        Some(bytes) => tell_fronts(alloc, format, bytes.as_slice(), out),
        None => out.push_all(b"no bytes"),
    }
}

/// Where each front of the bytes is refused, from the empty one on.
fn tell_fronts(alloc: Global, format: Format, bytes: &[u8], out: &mut Text) -> Result<(), Memory> {
    for size in 0..bytes.len() {
        if size > 0 {
            out.push(b' ')?;
        }
        tell_front(alloc, format, &bytes[..size], out)?;
    }
    Ok(())
}

fn tell_front(alloc: Global, format: Format, front: &[u8], out: &mut Text) -> Result<(), Memory> {
    match format {
        Format::Image => tell_image_front(alloc, front, out),
        Format::Object => tell_object_front(alloc, front, out),
    }
}

/// Whether what was written again is the bytes that were read.
fn tell_whether_same(again: &[u8], bytes: &[u8], out: &mut Text) -> Result<(), Memory> {
    if again == bytes {
        out.push_all(b"; written again the same")
    } else {
        out.push_all(b"; written again other bytes")
    }
}
