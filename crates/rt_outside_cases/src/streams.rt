//! Sources and sinks in memory.

use crate::shown::{show_count, show_number, show_text};
use crate::texts::{bytes_of, numbers_of};
use rt_outside::{MemSink, MemSource, Next, Sink, Source, SureSource};
use rt_words::{Bytes, List, Memory, Text};
use std::alloc::Global;

/// What calls of a source give, and what is left then.
pub fn describe_source(alloc: Global, text: &str, out: &mut Text) -> Result<(), Memory> {
    let Some((bytes, fails, calls)) = parts_of(text) else {
        return out.push_all(b"no text, numbers and calls");
    };
    match (bytes_of(alloc, bytes)?, calls.parse::<u32>()) {
        (Some(bytes), Ok(calls)) => show_source(alloc, bytes, fails, calls, out),
        _ => out.push_all(b"no text or no calls"),
    }
}

// Three parts with colons between.
fn parts_of(text: &str) -> Option<(&str, &str, &str)> {
    let (first, rest) = text.split_once(':')?;
    let (second, third) = rest.split_once(':')?;
    Some((first.trim(), second.trim(), third.trim()))
}

fn show_source(
    alloc: Global,
    bytes: Bytes,
    fails: &str,
    calls: u32,
    out: &mut Text,
) -> Result<(), Memory> {
    match numbers_of(alloc, fails)? {
        Some(fails) => {
            let mut source = MemSource::new(alloc, bytes, fails)?;
            show_calls(&mut source, calls, out)?;
            show_left(source.left(), out)?;
            show_count(", calls ", source.calls(), out)?;
            show_count(", faults ", source.faults(), out)
        }
        None => out.push_all(b"no numbers of calls"),
    }
}

fn show_calls<S: Source>(source: &mut S, calls: u32, out: &mut Text) -> Result<(), Memory> {
    for _ in 0..calls {
        show_next(source.next(), out)?;
    }
    Ok(())
}

fn show_next(next: Next, out: &mut Text) -> Result<(), Memory> {
    match next {
        Next::Byte(byte) => {
            show_text(&[byte], out)?;
            out.push(b' ')
        }
        Next::End => out.push_all(b"end "),
        Next::Failed => out.push_all(b"failed "),
    }
}

fn show_left(left: &[u8], out: &mut Text) -> Result<(), Memory> {
    out.push_all(b"and ")?;
    show_text(left, out)?;
    out.push_all(b" left")
}

/// What calls of a source give that never fails, and what is left then.
pub fn describe_sure(alloc: Global, text: &str, out: &mut Text) -> Result<(), Memory> {
    let (bytes, calls) = text.split_once(':').unwrap_or((text, ""));
    match (bytes_of(alloc, bytes.trim())?, calls.trim().parse::<u32>()) {
        (Some(bytes), Ok(calls)) => show_sure(alloc, bytes, calls, out),
        _ => out.push_all(b"no text or no calls"),
    }
}

fn show_sure(alloc: Global, bytes: Bytes, calls: u32, out: &mut Text) -> Result<(), Memory> {
    let mut source = SureSource::new(alloc, bytes)?;
    show_calls(&mut source, calls, out)?;
    show_left(source.left(), out)
}

/// What puts of a sink come to, and what it has then.
pub fn describe_sink(alloc: Global, text: &str, out: &mut Text) -> Result<(), Memory> {
    let Some((room, fails, bytes)) = parts_of(text) else {
        return out.push_all(b"no room, numbers and bytes");
    };
    let Ok(room) = room.parse::<usize>() else {
        return out.push_all(b"no room");
    };
    match numbers_of(alloc, fails)? {
        Some(fails) => show_sink(MemSink::new(alloc, room, fails)?, bytes, out),
        None => out.push_all(b"no numbers of puts"),
    }
}

fn show_sink(mut sink: MemSink, bytes: &str, out: &mut Text) -> Result<(), Memory> {
    show_puts(&mut sink, bytes, out)?;
    show_numbers(sink.written(), out)?;
    show_count("room ", sink.room() as u64, out)?;
    show_count(", calls ", sink.calls(), out)?;
    show_count(", faults ", sink.faults(), out)
}

fn show_puts<S: Sink>(sink: &mut S, bytes: &str, out: &mut Text) -> Result<(), Memory> {
    for digits in bytes.split_ascii_whitespace() {
        let text = match digits.parse::<u8>() {
            Ok(byte) if sink.put(byte).is_ok() => "put ",
            Ok(_) => "failed ",
            Err(_) => "no byte ",
        };
        out.push_all(text.as_bytes())?;
    }
    Ok(())
}

fn show_numbers(bytes: &[u8], out: &mut Text) -> Result<(), Memory> {
    out.push(b'[')?;
    for byte in bytes {
        out.push(b' ')?;
        show_number(u64::from(*byte), out)?;
    }
    out.push_all(b" ], ")
}
