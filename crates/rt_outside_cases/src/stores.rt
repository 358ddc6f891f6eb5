//! Stores in memory.

use crate::shown::{show_count, show_text};
use crate::state::{Files, State};
use crate::texts::{bytes_of, name_of, named, numbers_of, word_of};
use rt_outside::{Failed, MemStore, Store, StoreError};
use rt_words::{Bytes, List, Memory, Name, Text};
use std::alloc::Global;

/// Adds a file.
pub fn describe_file(
    alloc: Global,
    text: &str,
    files: &mut Files,
    out: &mut Text,
) -> Result<(), Memory> {
    let (name, text) = named(text);
    match bytes_of(alloc, text)? {
        Some(bytes) => add_file(alloc, name, bytes, files, out),
        None => out.push_all(b"no text"),
    }
}

/// Adds a file of bytes in hexadecimal digits.
pub fn describe_bytes(
    alloc: Global,
    text: &str,
    files: &mut Files,
    out: &mut Text,
) -> Result<(), Memory> {
    let (name, digits) = named(text);
    match hex::decode(alloc, digits) {
        Ok(bytes) => add_file(alloc, name, List::from_vec(bytes), files, out),
        Err(_) => out.push_all(b"no digits"),
    }
}

fn add_file(
    alloc: Global,
    name: &str,
    bytes: Bytes,
    files: &mut Files,
    out: &mut Text,
) -> Result<(), Memory> {
    show_count("length ", bytes.len() as u64, out)?;
    match name_of(alloc, name)? {
        Some(name) => files.push((name, bytes)),
        None => out.push_all(b" without a name"),
    }
}

/// The same files anew.
pub fn copied(alloc: Global, files: &Files) -> Result<Files, Memory> {
    let mut copies = List::new(alloc, 0)?;
    for (name, bytes) in files.as_slice() {
        add_copy(alloc, name, bytes, &mut copies)?;
    }
    Ok(copies)
}

fn add_copy(alloc: Global, name: &Name, bytes: &Bytes, copies: &mut Files) -> Result<(), Memory> {
    let bytes = bytes.copy(alloc)?;
    let name = name.copy(alloc)?;
    copies.push((name, bytes))
}

/// Makes a store of the files.
pub fn describe_store(
    alloc: Global,
    text: &str,
    state: &mut State,
    out: &mut Text,
) -> Result<(), Memory> {
    let (room, fails) = text.split_once(':').unwrap_or((text, ""));
    let Ok(room) = room.trim().parse::<usize>() else {
        return out.push_all(b"no room");
    };
    match store_of(alloc, &state.files, room, fails)? {
        Some(store) => {
            state.store = Some(store);
            show_count("files ", state.files.len() as u64, out)
        }
        None => out.push_all(b"no numbers of calls"),
    }
}

/// A store of these files with so much room, whose calls of these numbers fail. None where they are no numbers.
pub fn store_of(
    alloc: Global,
    files: &Files,
    room: usize,
    fails: &str,
) -> Result<Option<MemStore>, Memory> {
    match numbers_of(alloc, fails)? {
        Some(fails) => {
            let copies = copied(alloc, files)?;
            Ok(Some(MemStore::new(alloc, copies, room, fails)?))
        }
        None => Ok(None),
    }
}

/// Reads a file of the store.
pub fn describe_read(
    alloc: Global,
    text: &str,
    store: &mut Option<MemStore>,
    out: &mut Text,
) -> Result<(), Memory> {
    match store {
        Some(store) => show_read(alloc, store, word_of(text), out),
        None => out.push_all(b"no store"),
    }
}

fn show_read<S: Store>(
    alloc: Global,
    store: &mut S,
    name: &str,
    out: &mut Text,
) -> Result<(), Memory> {
    match store.read(alloc, name) {
        Ok(bytes) => show_text(bytes.as_slice(), out),
        Err(StoreError::Missing) => out.push_all(b"missing"),
        Err(StoreError::Failed) => out.push_all(b"failed"),
        Err(StoreError::TooLong) => out.push_all(b"too long"),
        Err(StoreError::Memory) => Err(Memory),
    }
}

/// Writes a file of the store.
pub fn describe_write(
    alloc: Global,
    text: &str,
    store: &mut Option<MemStore>,
    out: &mut Text,
) -> Result<(), Memory> {
    let (name, text) = named(text);
    match (store, bytes_of(alloc, text)?) {
        (Some(store), Some(bytes)) => show_write(store, name, bytes.as_slice(), out),
        _ => out.push_all(b"no store or no text"),
    }
}

fn show_write<S: Store>(
    store: &mut S,
    name: &str,
    bytes: &[u8],
    out: &mut Text,
) -> Result<(), Memory> {
    match store.write(name, bytes) {
        Ok(()) => out.push_all(b"written"),
        Err(Failed) => out.push_all(b"failed"),
    }
}

/// Looks at a file of the store, which is no call.
pub fn describe_kept(text: &str, store: &Option<MemStore>, out: &mut Text) -> Result<(), Memory> {
    match store {
        Some(store) => show_file(store, word_of(text), out),
        None => out.push_all(b"no store"),
    }
}

/// Appends the text of a file.
pub fn show_file(store: &MemStore, name: &str, out: &mut Text) -> Result<(), Memory> {
    match store.file(name) {
        Some(bytes) => show_text(bytes, out),
        None => out.push_all(b"none"),
    }
}

/// Looks at the room, the calls and the faults of the store.
pub fn describe_held(store: &Option<MemStore>, out: &mut Text) -> Result<(), Memory> {
    match store {
        Some(store) => {
            show_count("room ", store.room() as u64, out)?;
            show_count(", calls ", store.calls(), out)?;
            show_count(", faults ", store.faults(), out)
        }
        None => out.push_all(b"no store"),
    }
}
