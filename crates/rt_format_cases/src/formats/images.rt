//! Images that are read and written again.

use crate::formats::tell_whether_same;
use crate::told::{tell_count, tell_number};
use rt_image::{Image, ImageFault, ImageParts, ImageTask, read_image, write_image};
use rt_words::{Memory, Text};
use std::alloc::Global;

/// The image that bytes are, or the place where they are refused.
pub fn tell_image(alloc: Global, bytes: &[u8], out: &mut Text) -> Result<(), Memory> {
    match read_image(alloc, bytes) {
        Ok(image) => tell_read(alloc, &image, bytes, out),
        Err(ImageFault::BadImage { at }) => tell_count("refused at ", at as u64, out),
        Err(ImageFault::Memory) => Err(Memory),
    }
}

/// Where the front of an image is refused.
pub fn tell_image_front(alloc: Global, front: &[u8], out: &mut Text) -> Result<(), Memory> {
    match read_image(alloc, front) {
        Ok(_image) => out.push_all(b"an image"),
        Err(ImageFault::BadImage { at }) => tell_number(at as u64, out),
        Err(ImageFault::Memory) => Err(Memory),
    }
}

/// The parts of an image, and whether it is written as the bytes that it was read from.
fn tell_read(alloc: Global, image: &Image, bytes: &[u8], out: &mut Text) -> Result<(), Memory> {
    tell_parts(image.parts(), out)?;
    let again = write_image(alloc, image)?;
    tell_whether_same(again.as_slice(), bytes, out)
}

fn tell_parts(parts: &ImageParts, out: &mut Text) -> Result<(), Memory> {
    tell_count("code ", parts.code.len() as u64, out)?;
    tell_count(", data ", parts.bytes.len() as u64, out)?;
    for task in parts.tasks.as_slice() {
        tell_task(task, out)?;
    }
    Ok(())
}

fn tell_task(task: &ImageTask, out: &mut Text) -> Result<(), Memory> {
    out.push_all(b", ")?;
    out.push_all(task.name.as_slice())?;
    tell_count(" priority ", u64::from(task.priority), out)?;
    tell_count(" entry ", u64::from(task.entry), out)?;
    tell_count(" stack ", u64::from(task.stack), out)
}
