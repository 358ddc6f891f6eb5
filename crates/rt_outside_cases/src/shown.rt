//! Texts and numbers, as the answers have them.

use itoa::Buffer;
use rt_words::{Memory, Text, octal6};

/// Appends a number in decimal digits.
pub fn show_number(number: u64, out: &mut Text) -> Result<(), Memory> {
    let mut buffer = Buffer::new();
    out.push_all(buffer.format(number).as_bytes())
}

/// Appends a text and a number.
pub fn show_count(what: &str, number: u64, out: &mut Text) -> Result<(), Memory> {
    out.push_all(what.as_bytes())?;
    show_number(number, out)
}

/// Appends bytes between quotation marks, or their number where they are many.
pub fn show_text(bytes: &[u8], out: &mut Text) -> Result<(), Memory> {
    if bytes.len() > 1000 {
        return show_count("bytes ", bytes.len() as u64, out);
    }
    out.push(b'"')?;
    for byte in bytes {
        show_byte(*byte, out)?;
    }
    out.push(b'"')
}

fn show_byte(byte: u8, out: &mut Text) -> Result<(), Memory> {
    match byte {
        b'\n' => out.push_all(b"\\n"),
        b' '..=b'~' => out.push(byte),
        _ => {
            let digits = octal6(u16::from(byte));
            out.push(b'\\')?;
            out.push_all(&digits[3..])
        }
    }
}

/// Appends bytes as hexadecimal digits; where they are many their number, and a sum that tells them from others.
pub fn show_bytes(bytes: &[u8], out: &mut Text) -> Result<(), Memory> {
    if bytes.len() > 200 {
        show_count("bytes ", bytes.len() as u64, out)?;
        return show_count(", sum ", u64::from(sum_of(bytes)), out);
    }
    for byte in bytes {
        out.push(digit(*byte / 16))?;
        out.push(digit(*byte % 16))?;
    }
    Ok(())
}

fn sum_of(bytes: &[u8]) -> u32 {
    let mut sum: u32 = 0;
    for byte in bytes {
        sum = sum.wrapping_mul(31).wrapping_add(u32::from(*byte));
    }
    sum
}

fn digit(value: u8) -> u8 {
    match value {
        0..=9 => b'0' + value,
        10..=15 => b'A' + (value - 10),
        _ => b'?',
    }
}
