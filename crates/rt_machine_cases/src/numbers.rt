//! Words and numbers, as they are read and told.

use itoa::Buffer;
use rt_words::{Memory, Text, octal6};

/// The first word of a text, and what stands behind it.
pub fn first(text: &str) -> (&str, &str) {
    let text = text.trim();
    text.split_once(' ').unwrap_or((text, ""))
}

/// A word in octal digits.
pub fn octal(digits: &str) -> Option<u16> {
    u16::from_str_radix(digits, 8).ok()
}

/// A number of words as a word; all of them are few.
pub fn word(number: usize) -> u16 {
    u16::try_from(number).unwrap_or(u16::MAX)
}

/// Appends the six octal digits of a word.
pub fn tell_octal(word: u16, out: &mut Text) -> Result<(), Memory> {
    out.push_all(&octal6(word))
}

/// Appends a text, and a number in decimal digits.
pub fn tell_number(before: &str, number: u64, out: &mut Text) -> Result<(), Memory> {
    let mut buffer = Buffer::new();
    out.push_all(before.as_bytes())?;
    out.push_all(buffer.format(number).as_bytes())
}
