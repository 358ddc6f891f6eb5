//! Lines of cases as they are written: `~` ends a line of the text, `{PIECE^COUNT}` is a piece so many times, in which `?` is
//! the number of the turn, from 1, and `{CODE}` is the character of this code.

use crate::stop::Stop;
use std::fmt::Write;

/// Appends what is written.
pub fn expand(out: &mut String, written: &str) -> Result<(), Stop> {
    for part in written.split('{') {
        match part.split_once('}') {
            Some((inside, rest)) => {
                braced(out, inside)?;
                plain(out, rest, 0)?;
            }
            None => plain(out, part, 0)?,
        }
    }
    Ok(())
}

fn plain(out: &mut String, piece: &str, turn: u32) -> Result<(), Stop> {
    for c in piece.chars() {
        match c {
            '~' => out.push('\n')?,
            '?' => write!(out, "{turn}")?,
            _ => out.push(c)?,
        }
    }
    Ok(())
}

fn braced(out: &mut String, inside: &str) -> Result<(), Stop> {
    match inside.split_once('^') {
        Some((piece, count)) => repeated(out, piece, number(count)?),
        None => match inside.parse::<u8>() {
            Ok(code) => Ok(out.push(char::from(code))?),
            Err(_) => Err(Stop::Line),
        },
    }
}

fn repeated(out: &mut String, piece: &str, count: u32) -> Result<(), Stop> {
    for turn in 0..count {
        plain(out, piece, turn + 1)?;
    }
    Ok(())
}

/// The number that is written, in decimal digits.
pub fn number(written: &str) -> Result<u32, Stop> {
    match written.parse::<u32>() {
        Ok(n) => Ok(n),
        Err(_) => Err(Stop::Line),
    }
}

/// Appends bytes: what is printed in ASCII as it is, and other bytes as `{CODE}`.
pub fn write_bytes(out: &mut String, bytes: &[u8]) -> Result<(), Stop> {
    for byte in bytes {
        write_byte(out, *byte)?;
    }
    Ok(())
}

fn write_byte(out: &mut String, byte: u8) -> Result<(), Stop> {
    if (32..127).contains(&byte) {
        Ok(out.push(char::from(byte))?)
    } else {
        Ok(write!(out, "{{{byte}}}")?)
    }
}
