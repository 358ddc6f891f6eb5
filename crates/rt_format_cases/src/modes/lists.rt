//! Lists and names.

use crate::told::{tell_count, tell_number};
use rt_words::{List, ListBuilder, Memory, Name, Text};
use std::alloc::Global;

/// What steps on a list of words give, and how many are left.
pub fn describe_list(alloc: Global, text: &str, out: &mut Text) -> Result<(), Memory> {
    let mut list = List::from_vec(Vec::new(alloc));
    do_steps(alloc, text, &mut list, out)
}

fn do_steps(alloc: Global, text: &str, list: &mut List<u16>, out: &mut Text) -> Result<(), Memory> {
    for step in text.split(';') {
        do_step(alloc, step.trim(), list, out)?;
    }
    tell_number(list.len() as u64, out)?;
    out.push_all(b" left")
}

fn do_step(alloc: Global, step: &str, list: &mut List<u16>, out: &mut Text) -> Result<(), Memory> {
    match step {
        "copy" => tell_list(list.copy(alloc)?.as_slice(), out),
        "take" => tell_list(list.take().as_slice(), out),
        "pop" => tell_popped(list.pop(), out),
        _ => do_change(step, list, out),
    }
}

fn tell_list(list: &[u16], out: &mut Text) -> Result<(), Memory> {
    out.push(b'[')?;
    for word in list {
        tell_count(" ", u64::from(*word), out)?;
    }
    out.push_all(b" ] ")
}

fn tell_popped(popped: Option<u16>, out: &mut Text) -> Result<(), Memory> {
    match popped {
        Some(word) => {
            tell_number(u64::from(word), out)?;
            out.push(b' ')
        }
        None => out.push_all(b"none "),
    }
}

fn do_change(step: &str, list: &mut List<u16>, out: &mut Text) -> Result<(), Memory> {
    match change_of(step) {
        Some(("push", _, word)) => list.push(word),
        Some(("build", _, word)) => build(list, word),
        Some(("set", at, word)) if at < list.len() => {
            list.set(at, word);
            Ok(())
        }
        _ => out.push_all(b"no step "),
    }
}

// The step, the place where it has one, and the word.
fn change_of(step: &str) -> Option<(&str, usize, u16)> {
    let (kind, rest) = step.split_once(' ')?;
    match rest.split_once(' ') {
        Some((at, word)) => Some((kind, at.parse::<usize>().ok()?, word.parse::<u16>().ok()?)),
        None => Some((kind, 0, rest.parse::<u16>().ok()?)),
    }
}

// Pushes a word where the list is under construction.
fn build(list: &mut List<u16>, word: u16) -> Result<(), Memory> {
    let mut builder = ListBuilder::from_vec(list.take().into_vec());
    builder.push(word)?;
    *list = builder.into_list();
    Ok(())
}

/// The name of some bytes, copied.
pub fn describe_name(alloc: Global, text: &str, out: &mut Text) -> Result<(), Memory> {
    match Name::new(alloc, text.as_bytes())? {
        Some(name) => tell_name(name.copy(alloc)?.as_slice(), out),
        None => out.push_all(b"no name"),
    }
}

fn tell_name(name: &[u8], out: &mut Text) -> Result<(), Memory> {
    out.push_all(name)?;
    tell_count(" of ", name.len() as u64, out)
}
