//! Texts, as a line has them, and the systems of such texts.

use crate::told::{empty, tell_count, tell_number};
use rt_system::{LineFault, System, read_system};
use rt_words::{Memory, Text};
use std::alloc::Global;

/// The most bytes that a text may have.
pub const MOST_BYTES: usize = 4_194_304;

/// The system of a text. None where there is none, and then it is told why.
pub fn system_of(
    alloc: Global,
    written: &str,
    objects: bool,
    out: &mut Text,
) -> Result<Option<System>, Memory> {
    let mut text = empty(alloc);
    push_written(written, &mut text)?;
    read_text(alloc, text.as_slice(), objects, out)
}

fn read_text(
    alloc: Global,
    text: &[u8],
    objects: bool,
    out: &mut Text,
) -> Result<Option<System>, Memory> {
    if text.len() > MOST_BYTES {
        out.push_all(b"too long")?;
        return Ok(None);
    }
    match read_system(alloc, text, objects) {
        Ok(system) => Ok(Some(system)),
        Err(fault) => {
            tell_fault(fault, out)?;
            Ok(None)
        }
    }
}

/// Tells why a text is refused.
pub fn tell_fault(fault: LineFault, out: &mut Text) -> Result<(), Memory> {
    match fault {
        LineFault::Memory => Err(Memory),
        LineFault::BadLine { line } => tell_count("refused at line ", u64::from(line), out),
        LineFault::ObjectLine { line } => tell_count("an object at line ", u64::from(line), out),
    }
}

/// Appends the text that a case writes so.
pub fn push_written(written: &str, text: &mut Text) -> Result<(), Memory> {
    for piece in written.split('{') {
        match piece.split_once('}') {
            Some((group, after)) => push_group(group, after, text)?,
            None => push_piece(piece, 0, text)?,
        }
    }
    Ok(())
}

/// A number and a piece that stands so many times, and the piece behind them.
fn push_group(group: &str, after: &str, text: &mut Text) -> Result<(), Memory> {
    let (digits, piece) = group.split_once(' ').unwrap_or((group, ""));
    let times = digits.parse::<u32>().unwrap_or(0);
    for turn in 0..times {
        push_piece(piece, u64::from(turn) + 1, text)?;
    }
    push_piece(after, 0, text)
}

/// A piece in the turn with this number.
fn push_piece(piece: &str, turn: u64, text: &mut Text) -> Result<(), Memory> {
    let mut is_escaped = false;
    for byte in piece.as_bytes() {
        if is_escaped {
            push_escaped(*byte, turn, text)?;
            is_escaped = false;
        } else if *byte == b'\\' {
            is_escaped = true;
        } else {
            text.push(*byte)?;
        }
    }
    Ok(())
}

fn push_escaped(byte: u8, turn: u64, text: &mut Text) -> Result<(), Memory> {
    match byte {
        b'n' => text.push(b'\n'),
        b'r' => text.push(b'\r'),
        b't' => text.push(b'\t'),
        b's' => text.push(b' '),
        b'd' => text.push(127),
        b'0' => text.push(0),
        b'e' => Ok(()),
        b'#' => tell_number(turn, text),
        _ => text.push(byte),
    }
}
