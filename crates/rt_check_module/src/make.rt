//! The start that is made of what is written, where it starts an item.

ghost use Rattle.std.specs.Prelude.{◌≡◌, ◌≤◌, map, IfOk, OnErr, position, ◌==◌};
ghost use Rattle.rt_modes.specs.declared.mode.Mode.{out-Mode};
ghost use Rattle.rt_check_module.specs.Starts as spec;
ghost use Rattle.rt_check_module.specs.Starts.{written_in};

use crate::judge::is_negative;
use crate::parts::{Wanted, copies, next_fields, want};
use crate::places::{find_place, make_place};
use rt_bricks::{Sign, Start};
use rt_exprs::{Scope, small_number};
use rt_modes::{Field, Mode};
use rt_tree_nodes::DataStart;
use rt_words::{List, Memory, wrap_sub};
use std::alloc::Global;

/// What a start is where it starts an item of a mode. As many elements are made as the mode has, where the start fits; so it is
/// called of starts that fit, and of modes whose size is known to be within 57,344 bytes.
#[cycle(make)]
pub fn make_start(
    alloc: Global,
    scope: &Scope<'_>,
    start: &Start,
    mode: &Mode,
) -> Result<DataStart, Memory>
    ensures { IfOk result (λ s. s ≡ (written_in scope.now start.now).made mode.now) }
{
    match start {
        Start::Number(sign, number, _, _) => Ok(DataStart::Number(word(*sign, *number))),
        Start::Text(bytes, at) => {
            let number = number_of(scope, at.item)?;
            make_text(alloc, bytes.as_slice(), number, mode)
        }
        Start::Place(name, selectors) => {
            let found = find_place(scope, name, selectors.as_slice());
            make_place(alloc, scope.modes(), selectors.as_slice(), found)
        }
        Start::List(parts, _, _) => match want(scope.table(), parts.as_slice(), mode) {
            Wanted::Elements(of) => {
                let made = make_each(alloc, scope, parts.as_slice(), of)?;
                Ok(DataStart::List(made))
            }
            Wanted::Fields(fields) => {
                let made = make_fields(alloc, scope, parts.as_slice(), fields)?;
                Ok(DataStart::List(made))
            }
            Wanted::Nothing => {
                let made = List::new(alloc, 0)?;
                Ok(DataStart::List(made))
            }
        },
    }
}

/// Elements, each part as often as it is written.
#[cycle(make)]
fn make_each(
    alloc: Global,
    scope: &Scope<'_>,
    parts: &[Start],
    mode: &Mode,
) -> Result<List<DataStart>, Memory>
    ensures { IfOk result (λ ss. ss ≡ spec.each_made (map (written_in scope.now) parts.now) mode.now) }
{
    let mut made = List::new(alloc, parts.len())?;
    for part in parts {
        for _copy in 0..copies(part) {
            made.push(make_start(alloc, scope, part, mode)?)?;
        }
    }
    Ok(made)
}

/// Fields, each part for as many as it is written.
#[cycle(make)]
fn make_fields(
    alloc: Global,
    scope: &Scope<'_>,
    parts: &[Start],
    fields: &[Field],
) -> Result<List<DataStart>, Memory>
    ensures { IfOk result (λ ss. ss ≡ spec.fields_made (map (written_in scope.now) parts.now) fields.now) }
{
    let mut made = List::new(alloc, fields.len())?;
    let mut left = fields;
    for part in parts {
        let (these, rest) = next_fields(part, left);
        for field in these {
            made.push(make_start(alloc, scope, part, &field.mode)?)?;
        }
        left = rest;
    }
    Ok(made)
}

/// A number as 16 bits, negated where minus stands.
fn word(sign: Option<Sign>, number: u16) -> u16
    ensures { result ≡ spec.word sign number }
{
    if is_negative(sign) {
        wrap_sub(0, number)
    } else {
        number
    }
}

/// The number of the string of the module that begins at an item.
fn number_of(scope: &Scope<'_>, item: u16) -> Result<u16, Memory>
    ensures number { IfOk result (λ n. n ≡ spec.number_of scope.now.strings item) }
    ensures large { OnErr result (65536 ≤ spec.number_of scope.now.strings item) }
{
    match scope.string_at(item) {
        Some(number) => small_number(number),
        None => Ok(0),
    }
}

/// The bytes of an ARRAY BYTE, or a string of the module.
fn make_text(alloc: Global, bytes: &[u8], number: u16, mode: &Mode) -> Result<DataStart, Memory>
    ensures { IfOk result (λ s. s ≡ spec.text_made bytes.now number (out-Mode mode.now)) }
{
    match mode {
        Mode::Array(_, _) => Ok(DataStart::List(make_bytes(alloc, bytes)?)),
        _ => Ok(DataStart::Text(number)),
    }
}

fn make_bytes(alloc: Global, bytes: &[u8]) -> Result<List<DataStart>, Memory>
    ensures { IfOk result (λ ss. ss ≡ map (λ b. DataStart.Number b) bytes.now) }
{
    let mut made = List::new(alloc, bytes.len())?;
    for byte in bytes {
        made.push(DataStart::Number(u16::from(*byte)))?;
    }
    Ok(made)
}
