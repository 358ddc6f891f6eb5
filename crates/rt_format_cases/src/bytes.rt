//! The bytes of images and objects, as a line has them.

use crate::told::empty;
use rt_words::{Memory, Text};
use std::alloc::Global;

/// The bytes of a text of parts. None where it has other than pairs of hexadecimal digits, names, blanks, `/` between parts and
/// a number and `*` before one.
pub fn bytes_of(alloc: Global, text: &str) -> Result<Option<Text>, Memory> {
    let mut bytes = empty(alloc);
    let is_read = add_parts(alloc, text, &mut bytes)?;
    Ok(is_read.then_some(bytes))
}

fn add_parts(alloc: Global, text: &str, bytes: &mut Text) -> Result<bool, Memory> {
    for part in text.split('/') {
        if !add_part(alloc, part, bytes)? {
            return Ok(false);
        }
    }
    Ok(true)
}

fn add_part(alloc: Global, part: &str, bytes: &mut Text) -> Result<bool, Memory> {
    match part.split_once('*') {
        Some((times, words)) => add_repeated(alloc, times.trim(), words, bytes),
        None => add_words(alloc, part, bytes),
    }
}

fn add_repeated(alloc: Global, times: &str, words: &str, bytes: &mut Text) -> Result<bool, Memory> {
    let Ok(times) = times.parse::<u32>() else {
        return Ok(false);
    };
    let mut once = empty(alloc);
    if add_words(alloc, words, &mut once)? {
        add_times(times, once.as_slice(), bytes)
    } else {
        Ok(false)
    }
}

fn add_times(times: u32, once: &[u8], bytes: &mut Text) -> Result<bool, Memory> {
    for _turn in 0..times {
        bytes.push_all(once)?;
    }
    Ok(true)
}

fn add_words(alloc: Global, words: &str, bytes: &mut Text) -> Result<bool, Memory> {
    for word in words.split_ascii_whitespace() {
        if !add_word(alloc, word, bytes)? {
            return Ok(false);
        }
    }
    Ok(true)
}

fn add_word(alloc: Global, word: &str, bytes: &mut Text) -> Result<bool, Memory> {
    match word.strip_prefix("'") {
        Some(name) => add_name(name.as_bytes(), bytes),
        None => add_digits(alloc, word, bytes),
    }
}

/// Appends a name behind its length; false where it is too long for a byte.
fn add_name(name: &[u8], bytes: &mut Text) -> Result<bool, Memory> {
    let Ok(length) = u8::try_from(name.len()) else {
        return Ok(false);
    };
    bytes.push(length)?;
    bytes.push_all(name)?;
    Ok(true)
}

fn add_digits(alloc: Global, digits: &str, bytes: &mut Text) -> Result<bool, Memory> {
    let Ok(some) = hex::decode(alloc, digits) else {
        return Ok(false);
    };
    bytes.push_all(some.as_slice())?;
    Ok(true)
}
