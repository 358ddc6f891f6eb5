//! Bytes that stand one by one as decimal numbers.

use crate::told::{empty, tell_count};
use rt_words::{Memory, Text};
use std::alloc::Global;

/// The bytes of a text. None where one is no byte.
pub fn decimals(alloc: Global, text: &str) -> Result<Option<Text>, Memory> {
    let mut bytes = empty(alloc);
    let is_read = add_decimals(text, &mut bytes)?;
    Ok(is_read.then_some(bytes))
}

fn add_decimals(text: &str, bytes: &mut Text) -> Result<bool, Memory> {
    for digits in text.split_ascii_whitespace() {
        let Ok(byte) = digits.parse::<u8>() else {
            return Ok(false);
        };
        bytes.push(byte)?;
    }
    Ok(true)
}

/// The bytes of a text of parts with `/` between, each behind the number that tells how many times they stand.
pub fn repeated(alloc: Global, text: &str) -> Result<Option<Text>, Memory> {
    let mut bytes = empty(alloc);
    let is_read = add_parts(text, &mut bytes)?;
    Ok(is_read.then_some(bytes))
}

fn add_parts(text: &str, bytes: &mut Text) -> Result<bool, Memory> {
    for part in text.split('/') {
        if !add_part(part.trim(), bytes)? {
            return Ok(false);
        }
    }
    Ok(true)
}

fn add_part(part: &str, bytes: &mut Text) -> Result<bool, Memory> {
    let Some((times, once)) = part.split_once(' ') else {
        return Ok(false);
    };
    let Ok(times) = times.parse::<u16>() else {
        return Ok(false);
    };
    for _turn in 0..times {
        if !add_decimals(once, bytes)? {
            return Ok(false);
        }
    }
    Ok(true)
}

/// Appends bytes as decimal numbers, with a space before each.
pub fn tell_decimals(bytes: &[u8], out: &mut Text) -> Result<(), Memory> {
    for byte in bytes {
        tell_count(" ", u64::from(*byte), out)?;
    }
    Ok(())
}
