//! Statements that no text has: `ERL := label`, which a text can't use, a reference of a local, and a byte that is read right
//! behind a string.

use crate::expansion::number;
use crate::stop::Stop;
use rt_tree::{Body, Branch, Callee, Labelled, Place, Rel, Stat, Test, Value};
use rt_words::{Boxed, List};
use std::alloc::Global;

/// The statement that is written. Numbers of locals, labels, bricks, items and strings are those of the module.
pub fn made(alloc: Global, written: &str) -> Result<Labelled, Stop> {
    let (word, rest) = written.split_once(' ').unwrap_or((written, ""));
    match word {
        "RECOVER" => Ok(recover(alloc, label(rest)?)),
        "BLOCK" => in_marked_block(alloc, label(rest)?),
        "TWICE" => twice(alloc),
        "LOOP" => in_a_loop(alloc),
        "REFERENCE" => reference(alloc, rest),
        "BYTE" => byte_of_string(alloc),
        _ => Err(Stop::Line),
    }
}

fn label(written: &str) -> Result<u16, Stop> {
    match u16::try_from(number(written)?) {
        Ok(label) => Ok(label),
        Err(_) => Err(Stop::Line),
    }
}

fn line(alloc: Global, stat: Stat) -> Labelled {
    Labelled {
        labels: List::from_vec(Vec::new(alloc)),
        stat: Some(stat),
    }
}

fn block(alloc: Global, statements: List<Labelled>) -> Labelled {
    let locals = List::from_vec(Vec::new(alloc));
    line(alloc, Stat::Block(Body { locals, statements }))
}

// A list of this item alone.
fn only<T: Drop>(alloc: Global, item: T) -> Result<List<T>, Stop> {
    let mut items = List::from_vec(Vec::new(alloc));
    items.push(item)?;
    Ok(items)
}

// A list of these two, where the second was made.
fn pair<T: Drop>(alloc: Global, first: T, second: Result<T, Stop>) -> Result<List<T>, Stop> {
    let mut items = only(alloc, first)?;
    items.push(second?)?;
    Ok(items)
}

// Both of these, where both were made.
fn both<S: Drop, T: Drop>(first: Result<S, Stop>, second: Result<T, Stop>) -> Result<(S, T), Stop> {
    let first = first?;
    let second = second?;
    Ok((first, second))
}

fn boxed<T: Drop>(alloc: Global, item: T) -> Result<Boxed<T>, Stop> {
    Ok(Boxed::new(alloc, item)?)
}

/// `ERL := label`.
fn recover(alloc: Global, label: u16) -> Labelled {
    line(alloc, Stat::Recover(label))
}

/// `BLOCK B: ERL := label ENDBLOCK`, where B is label 2.
fn in_marked_block(alloc: Global, label: u16) -> Result<Labelled, Stop> {
    let labels = List::from_slice(alloc, &[2])?;
    let stat = Some(Stat::Recover(label));
    let statements = only(alloc, Labelled { labels, stat })?;
    Ok(block(alloc, statements))
}

/// `I = 0`, of the first local.
fn is_0(alloc: Global) -> Result<Test, Stop> {
    let local = boxed(alloc, Place::Local(0))?;
    Ok(Test::Compare(Rel::Equal, Value::Read(local), Value::Number(0)))
}

/// `IF I = 0 THEN ERL := L END`, of the first local and label.
fn recovers_at_0(alloc: Global) -> Result<Labelled, Stop> {
    let (test, taken) = both(is_0(alloc), only(alloc, recover(alloc, 0)))?;
    let branches = only(alloc, Branch { test, taken })?;
    Ok(line(alloc, Stat::If(branches, None)))
}

/// `BLOCK ERL := L; IF I = 0 THEN ERL := L END ENDBLOCK`, of the first local and label.
fn twice(alloc: Global) -> Result<Labelled, Stop> {
    let statements = pair(alloc, recover(alloc, 0), recovers_at_0(alloc))?;
    Ok(block(alloc, statements))
}

/// `TO 2 DO BLOCK ERL := L ENDBLOCK REP`, of the first loop and label.
fn in_a_loop(alloc: Global) -> Result<Labelled, Stop> {
    let inner = only(alloc, recover(alloc, 0))?;
    let repeated = only(alloc, block(alloc, inner))?;
    Ok(line(alloc, Stat::To(0, Value::Number(2), repeated)))
}

/// Item 1 of brick 0 becomes the reference of its item 0, or of local 0.
fn reference(alloc: Global, of: &str) -> Result<Labelled, Stop> {
    match of {
        "ITEM" => reference_of(alloc, Place::Item(0, 0)),
        "LOCAL" => reference_of(alloc, Place::Local(0)),
        _ => Err(Stop::Line),
    }
}

fn reference_of(alloc: Global, place: Place) -> Result<Labelled, Stop> {
    let place = boxed(alloc, place)?;
    Ok(line(
        alloc,
        Stat::Assign(Place::Item(0, 1), Value::Reference(place)),
    ))
}

/// The bytes of string 0.
fn string_bytes(alloc: Global) -> Result<Boxed<Place>, Stop> {
    let string = boxed(alloc, Value::Text(0))?;
    boxed(alloc, Place::Through(string))
}

/// Byte 2 of string 0.
fn second_byte(alloc: Global) -> Result<Value, Stop> {
    let (bytes, subscript) = both(string_bytes(alloc), boxed(alloc, Value::Number(2)))?;
    let byte = boxed(alloc, Place::Element(bytes, subscript))?;
    Ok(Value::Read(byte))
}

/// A call of brick 0 with byte 2 of string 0.
fn byte_of_string(alloc: Global) -> Result<Labelled, Stop> {
    let arguments = only(alloc, second_byte(alloc)?)?;
    Ok(line(alloc, Stat::Call(Value::Call(Callee::Brick(0), arguments))))
}
