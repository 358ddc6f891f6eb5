//! Strings and their inserts.

ghost use Rattle.std.specs.Prelude.{◌≡◌, ◌+◌, ◌<◌, ◌≤◌, ◌^◌, not, ◌==◌, length, take_while, None};
ghost use Rattle.std.specs.List.{list_all};
ghost use Rattle.std.specs.Option.{option_map};
ghost use Rattle.rt_pieces.specs.Bytes as bytes_of;
ghost use Rattle.rt_items.specs.Texts as spec;
ghost use Rattle.rt_items.specs.Texts.{Gives, with_bytes};
ghost use Rattle.rt_items.specs.Reading.{Answers};
ghost use Rattle.rt_items.specs.Table.{lets_of};

use crate::table::{LetTable, one_number, text_of};
use rt_pieces::{TextFault, is_blank, is_capital, is_digit, is_printable, string_len, value_of};
use rt_words::{Bytes, Text};
use std::alloc::Global;

fn printable_len(bytes: &[u8]) -> usize
    ensures { result ≡ length (take_while bytes_of.is_printable bytes.now) }
{
    bytes.iter().take_while(|b| is_printable(**b)).count()
}

fn blank_len(bytes: &[u8]) -> usize
    ensures { result ≡ length (take_while bytes_of.is_blank bytes.now) }
{
    bytes.iter().take_while(|b| is_blank(**b)).count()
}

fn characters(out: &mut Text, line: u32, part: &[u8]) -> Result<(), TextFault>
    ensures { Gives (with_bytes out.old.items (spec.characters line part.now)) out.new.items result }
{
    let len = printable_len(part);
    out.push_all(&part[..len])?;
    if len == part.len() {
        Ok(())
    } else {
        Err(TextFault::BadCharacter(line))
    }
}

fn past_blanks(bytes: &[u8]) -> &[u8]
    ensures { result.now ≡ spec.past_blanks bytes.entry.now }
{
    let len = blank_len(bytes);
    &bytes[len..]
}

/// The fault of a byte that has no place in an insert.
fn strange(line: u32, b: u8) -> TextFault
    ensures { result ≡ spec.strange line b }
{
    if is_printable(b) {
        TextFault::BadInsert(line)
    } else {
        TextFault::BadCharacter(line)
    }
}

/// The fault of an insert that ends where a value or a `#` must come.
fn unfinished(line: u32, closed: bool) -> TextFault
    ensures { result ≡ spec.unfinished line closed }
{
    if closed {
        TextFault::BadInsert(line)
    } else {
        TextFault::OpenString(line)
    }
}

fn nothing_more(out: &mut Text, line: u32, bytes: &[u8]) -> Result<(), TextFault>
    ensures { Gives (with_bytes out.old.items (spec.nothing_more line bytes.now)) out.new.items result }
{
    match bytes {
        [] => Ok(()),
        [b, ..] => Err(strange(line, *b)),
    }
}

fn small(value: u32) -> Option<u8>
    ensures { result ≡ spec.small value }
{
    if value <= 255 {
        Some(value as u8)
    } else {
        None
    }
}

/// The number up to 255 that the text of a LET name is, where it is exactly one.
fn byte_named(table: &LetTable, name: &[u8]) -> Option<u8>
    ensures { result ≡ spec.one_number (lets_of table.now name.now) }
{
    let text = text_of(table, name)?;
    let value = one_number(table, text)?;
    small(u32::from(value))
}

fn all_digits(run: &[u8]) -> bool
    ensures { result ≡ list_all bytes_of.is_digit run.now }
{
    run.iter().all(|b| is_digit(*b))
}

/// A decimal number, or the name of a LET that stands for one, up to 255.
fn byte_of(table: &LetTable, run: &[u8]) -> Option<u8>
    ensures { result ≡ spec.byte_of (lets_of table.now) run.now }
{
    if all_digits(run) {
        return small(value_of(10, run));
    }
    byte_named(table, run)
}

fn in_value(b: u8) -> bool
    ensures { result ≡ spec.in_value b }
{
    is_capital(b) || is_digit(b)
}

fn value_len(bytes: &[u8]) -> usize
    ensures { result ≡ length (take_while spec.in_value bytes.now) }
{
    bytes.iter().take_while(|b| in_value(**b)).count()
}

fn value_in(
    table: &LetTable,
    out: &mut Text,
    line: u32,
    closed: bool,
    field: &[u8],
) -> Result<(), TextFault>
    ensures { Gives (with_bytes out.old.items (spec.value_in (lets_of table.now) line closed field.now)) out.new.items result }
{
    let [b, ..] = field else {
        return Err(unfinished(line, closed));
    };
    if !in_value(*b) {
        return Err(strange(line, *b));
    }
    let len = value_len(field);
    match byte_of(table, &field[..len]) {
        None => Err(TextFault::BadInsert(line)),
        Some(value) => {
            out.push(value)?;
            nothing_more(out, line, past_blanks(&field[len..]))
        }
    }
}

/// One value of an insert, with layout around it.
fn value(
    table: &LetTable,
    out: &mut Text,
    line: u32,
    closed: bool,
    field: &[u8],
) -> Result<(), TextFault>
    ensures { Gives (with_bytes out.old.items (spec.value (lets_of table.now) line closed field.now)) out.new.items result }
{
    value_in(table, out, line, closed, past_blanks(field))
}

fn part_len(separator: u8, bytes: &[u8]) -> usize
    ensures within { result ≤ length bytes.now }
    ensures part { result ≡ length (take_while (λ b. not (b == separator)) bytes.now) }
{
    bytes.iter().take_while(|b| **b != separator).count()
}

/// The values of an insert, which are closed by a `#` or by a quotation mark, or left open.
fn values(
    table: &LetTable,
    out: &mut Text,
    line: u32,
    closed: bool,
    inside: &[u8],
) -> Result<(), TextFault>
    ensures { Gives (with_bytes out.old.items (spec.values (lets_of table.now) line closed (spec.parts 44 inside.now))) out.new.items result }
{
    let mut rest = inside;
    loop {
        let len = part_len(b',', rest);
        if len == rest.len() {
            return value(table, out, line, closed, rest);
        }
        match value(table, out, line, true, &rest[..len]) {
            Err(fault) => return Err(fault),
            Ok(()) => rest = &rest[len + 1..],
        }
    }
}

/// The characters and the insert that a string goes on with, and the rest; nothing where the string ends with them.
fn one_pair<'a>(
    table: &LetTable,
    out: &mut Text,
    line: u32,
    closed: bool,
    bytes: &'a [u8],
) -> Result<Option<&'a [u8]>, TextFault>
    ensures { spec.PairGives (lets_of table.now) line closed bytes.entry.now out.old.items out.new.items (spec.result_map (option_map (λ x. x.now)) result) }
{
    let len = part_len(b'#', bytes);
    if len == bytes.len() {
        return ended(last_characters(out, line, closed, bytes));
    }
    match characters(out, line, &bytes[..len]) {
        Err(fault) => Err(fault),
        Ok(()) => one_insert(table, out, line, closed, &bytes[len + 1..]),
    }
}

fn ended<'a>(done: Result<(), TextFault>) -> Result<Option<&'a [u8]>, TextFault>
    ensures { spec.result_map (option_map (λ x. x.now)) result ≡ spec.result_map (λ u. None) done }
{
    match done {
        Err(fault) => Err(fault),
        Ok(()) => Ok(None),
    }
}

fn one_insert<'a>(
    table: &LetTable,
    out: &mut Text,
    line: u32,
    closed: bool,
    bytes: &'a [u8],
) -> Result<Option<&'a [u8]>, TextFault>
    ensures { spec.InsertGives (lets_of table.now) line closed bytes.entry.now out.old.items out.new.items (spec.result_map (option_map (λ x. x.now)) result) }
{
    let len = part_len(b'#', bytes);
    if len == bytes.len() {
        return ended(open_insert(table, out, line, closed, bytes));
    }
    match values(table, out, line, true, &bytes[..len]) {
        Err(fault) => Err(fault),
        Ok(()) => Ok(Some(&bytes[len + 1..])),
    }
}

/// What stands behind the quotation mark of a string.
fn in_turn(
    table: &LetTable,
    out: &mut Text,
    line: u32,
    closed: bool,
    body: &[u8],
) -> Result<(), TextFault>
    ensures { Gives (with_bytes out.old.items (spec.in_turn (lets_of table.now) line closed (spec.parts 35 body.now))) out.new.items result }
{
    let mut rest = body;
    loop {
        match one_pair(table, out, line, closed, rest) {
            Err(fault) => return Err(fault),
            Ok(None) => return Ok(()),
            Ok(Some(more)) => rest = more,
        }
    }
}

fn last_characters(out: &mut Text, line: u32, closed: bool, part: &[u8]) -> Result<(), TextFault>
    ensures { Gives (with_bytes out.old.items (spec.followed (spec.characters line part.now) (spec.closing line closed))) out.new.items result }
{
    match characters(out, line, part) {
        Err(fault) => Err(fault),
        Ok(()) => {
            if closed {
                Ok(())
            } else {
                Err(TextFault::OpenString(line))
            }
        }
    }
}

fn open_insert(
    table: &LetTable,
    out: &mut Text,
    line: u32,
    closed: bool,
    inside: &[u8],
) -> Result<(), TextFault>
    ensures { Gives (with_bytes out.old.items (spec.followed (spec.values (lets_of table.now) line closed (spec.parts 44 inside.now)) (spec.failing (spec.unfinished line closed)))) out.new.items result }
{
    match values(table, out, line, closed, inside) {
        Err(fault) => Err(fault),
        Ok(()) => Err(unfinished(line, closed)),
    }
}

/// The bytes of a string, by what stands behind its quotation mark.
pub fn string_of(
    alloc: Global,
    table: &LetTable,
    line: u32,
    bytes: &[u8],
) -> Result<Bytes, TextFault>
    ensures { Answers (spec.string_of (lets_of table.now) line bytes.now) result }
{
    let len = string_len(bytes);
    let mut out = Text::new(alloc, len)?;
    let done = in_turn(table, &mut out, line, len < bytes.len(), &bytes[..len]);
    limited(done, out, line)
}

/// A string has at most 8,191 bytes; the next is a fault that goes before a later one.
fn limited(done: Result<(), TextFault>, out: Text, line: u32) -> Result<Bytes, TextFault>
    ensures { (given : spec.Given) → Gives given out.items done → Answers (spec.limited line given) result }
{
    if let Err(TextFault::Memory) = done {
        return Err(TextFault::Memory);
    }
    if out.len() > 8191 {
        return Err(TextFault::BadInsert(line));
    }
    match done {
        Err(fault) => Err(fault),
        Ok(()) => Ok(out.into_list()),
    }
}
