//! Texts, names and numbers, as the lines have them.

use rt_words::{Bytes, List, Memory, Name, Text};
use std::alloc::Global;

/// The bytes that a text stands for. None where a `{` has no times or no end.
pub fn bytes_of(alloc: Global, text: &str) -> Result<Option<Bytes>, Memory> {
    let mut all = Text::from_vec(Vec::new(alloc));
    if add_text(alloc, text, &mut all)? {
        Ok(Some(all.into_list()))
    } else {
        Ok(None)
    }
}

fn add_text(alloc: Global, text: &str, all: &mut Text) -> Result<bool, Memory> {
    match text.split_once('{') {
        Some((first, rest)) => {
            add_plain(first, all)?;
            add_repeats(alloc, rest, all)
        }
        None => {
            add_plain(text, all)?;
            Ok(true)
        }
    }
}

// The texts behind each opening brace.
fn add_repeats(alloc: Global, text: &str, all: &mut Text) -> Result<bool, Memory> {
    for part in text.split('{') {
        match repeat_of(part) {
            Some((times, repeated, rest)) => {
                add_times(alloc, times, repeated, all)?;
                add_plain(rest, all)?;
            }
            None => return Ok(false),
        }
    }
    Ok(true)
}

// How often a text is repeated, the text, and what stands behind it.
fn repeat_of(part: &str) -> Option<(u32, &str, &str)> {
    let (repeat, rest) = part.split_once('}')?;
    let (times, repeated) = repeat.split_once('*')?;
    Some((times.parse::<u32>().ok()?, repeated, rest))
}

fn add_times(alloc: Global, times: u32, text: &str, all: &mut Text) -> Result<(), Memory> {
    let mut once = Text::from_vec(Vec::new(alloc));
    add_plain(text, &mut once)?;
    for _ in 0..times {
        all.push_all(once.as_slice())?;
    }
    Ok(())
}

// A text without braces.
fn add_plain(text: &str, all: &mut Text) -> Result<(), Memory> {
    match text.split_once('\\') {
        Some((first, rest)) => {
            all.push_all(first.as_bytes())?;
            add_escapes(rest, all)
        }
        None => all.push_all(text.as_bytes()),
    }
}

// The texts behind each backslash.
fn add_escapes(text: &str, all: &mut Text) -> Result<(), Memory> {
    for part in text.split('\\') {
        match part.as_bytes() {
            [letter, rest @ ..] => {
                all.push(control(*letter))?;
                all.push_all(rest)?;
            }
            [] => all.push(b'\\')?,
        }
    }
    Ok(())
}

fn control(letter: u8) -> u8 {
    match letter {
        b'n' => b'\n',
        b'r' => b'\r',
        b't' => b'\t',
        b's' => b' ',
        _ => letter,
    }
}

/// A word of the line, where `-` is the empty one.
pub fn word_of(word: &str) -> &str {
    if word == "-" { "" } else { word }
}

/// The name of a file that begins a text, and the text behind it.
pub fn named(text: &str) -> (&str, &str) {
    let (name, rest) = text.split_once(' ').unwrap_or((text, ""));
    (word_of(name), rest)
}

/// A name of the language's length.
pub fn name_of(alloc: Global, name: &str) -> Result<Option<Name>, Memory> {
    Name::new(alloc, name.as_bytes())
}

/// Numbers with spaces between, where `-` is none. None where a word is no number.
pub fn numbers_of(alloc: Global, text: &str) -> Result<Option<List<u64>>, Memory> {
    let mut numbers = List::new(alloc, 0)?;
    for word in text.split_ascii_whitespace() {
        match word.parse::<u64>() {
            Ok(number) => numbers.push(number)?,
            Err(_) if word == "-" => {}
            Err(_) => return Ok(None),
        }
    }
    Ok(Some(numbers))
}
