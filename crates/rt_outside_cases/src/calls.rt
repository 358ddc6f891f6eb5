//! Whole calls of the program.

use crate::shown::{show_bytes, show_count, show_text};
use crate::state::Files;
use crate::stores::{show_file, store_of};
use crate::texts::{numbers_of, word_of};
use rt_outside::{MemSink, MemSource, MemStore};
use rt_top::top;
use rt_words::{Bytes, Memory, Text};
use std::alloc::Global;

/// The room for what is written to the store.
const STORE_ROOM: usize = 20000;

/// The room for what is put.
const OUTPUT_ROOM: usize = 1000;

/// Calls the program over a store of the files, and shows what stands then.
pub fn describe_top(
    alloc: Global,
    text: &str,
    files: &Files,
    out: &mut Text,
) -> Result<(), Memory> {
    let Some((store_fails, rest)) = text.split_once(':') else {
        return out.push_all(b"no calls that fail");
    };
    match store_of(alloc, files, STORE_ROOM, store_fails)? {
        Some(mut store) => call_over(alloc, rest, &mut store, out),
        None => out.push_all(b"no numbers of calls"),
    }
}

fn call_over(
    alloc: Global,
    text: &str,
    store: &mut MemStore,
    out: &mut Text,
) -> Result<(), Memory> {
    let Some((put_fails, words)) = text.split_once(':') else {
        return out.push_all(b"no puts that fail");
    };
    match numbers_of(alloc, put_fails)? {
        Some(fails) => {
            let mut output = MemSink::new(alloc, OUTPUT_ROOM, fails)?;
            call_with(alloc, words, store, &mut output, out)
        }
        None => out.push_all(b"no numbers of puts"),
    }
}

fn call_with(
    alloc: Global,
    text: &str,
    store: &mut MemStore,
    output: &mut MemSink,
    out: &mut Text,
) -> Result<(), Memory> {
    let (input_fails, words) = text.split_once(':').unwrap_or(("-", text));
    match numbers_of(alloc, input_fails)? {
        Some(fails) => {
            let typed = Bytes::from_slice(alloc, b"typed")?;
            let mut input = MemSource::new(alloc, typed, fails)?;
            call(alloc, words, store, &mut input, output, out)
        }
        None => out.push_all(b"no reads that fail"),
    }
}

fn call(
    alloc: Global,
    text: &str,
    store: &mut MemStore,
    input: &mut MemSource,
    output: &mut MemSink,
    out: &mut Text,
) -> Result<(), Memory> {
    let words = words_of(alloc, text)?;
    let status = top(alloc, words.as_slice(), store, input, output);
    drop(words);
    show_count("status ", u64::from(status), out)?;
    show_count(", calls of the store ", store.calls(), out)?;
    show_count(", of the input ", input.calls(), out)?;
    show_after(store, output, out)
}

fn words_of(alloc: Global, text: &str) -> Result<Vec<String>, Memory> {
    let mut words = Vec::new(alloc);
    for word in text.split_ascii_whitespace() {
        add_word(alloc, word_of(word), &mut words)?;
    }
    Ok(words)
}

fn add_word(alloc: Global, word: &str, words: &mut Vec<String>) -> Result<(), Memory> {
    let word = String::from_str(alloc, word)?;
    match words.push(word) {
        Ok(()) => Ok(()),
        Err(_) => Err(Memory),
    }
}

fn show_after(store: &MemStore, output: &MemSink, out: &mut Text) -> Result<(), Memory> {
    out.push_all(b"\n= output ")?;
    show_text(output.written(), out)?;
    out.push_all(b"\n= report ")?;
    show_file(store, "OUT.RPT", out)?;
    out.push_all(b"\n= image ")?;
    match store.file("OUT.IMG") {
        Some(bytes) => show_bytes(bytes, out),
        None => out.push_all(b"none"),
    }
}
