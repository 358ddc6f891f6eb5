//! Numbers, as they are told.

use itoa::Buffer;
use rt_words::{Memory, Text};
use std::alloc::Global;

/// A text without bytes.
pub fn empty(alloc: Global) -> Text {
    Text::from_vec(Vec::new(alloc))
}

/// Appends a number in decimal digits.
pub fn tell_number(number: u64, out: &mut Text) -> Result<(), Memory> {
    let mut digits = Buffer::new();
    out.push_all(digits.format(number).as_bytes())
}

/// Appends a word in front of a number.
pub fn tell_count(what: &str, number: u64, out: &mut Text) -> Result<(), Memory> {
    out.push_all(what.as_bytes())?;
    tell_number(number, out)
}
