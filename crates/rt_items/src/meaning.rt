//! What a piece means: an item, or its fault.

ghost use Rattle.std.specs.Prelude.{◌≡◌, ◌≤◌, ◌<◌, length, map, IfOk};
ghost use Rattle.std.specs.List.{list_all};
ghost use Rattle.rt_pieces.specs.Bytes as bytes_of;
ghost use Rattle.rt_items.specs.Meaning as spec;
ghost use Rattle.rt_pieces.specs.Pieces as pieces;
ghost use Rattle.rt_items.specs.Texts as texts;
ghost use Rattle.rt_items.specs.Reading.{Answers};
ghost use Rattle.rt_items.specs.Table.{lets_of};

use crate::table::LetTable;
use crate::texts::string_of;
use rt_pieces::{
    Base, ItemKind, TextFault, Word, is_digit, is_digit_of, is_letter, mark_of, radix, upper,
    value_of, word_of,
};
use rt_words::Name;
use std::alloc::{AllocError, Global};

fn is_left_out(word: Word) -> bool
    ensures { result ≡ spec.is_left_out word }
{
    match word {
        Word::Real | Word::Code => true,
        _ => false,
    }
}

fn upper_case(alloc: Global, text: &[u8]) -> Result<Vec<u8>, AllocError>
    ensures { IfOk result (λ v. v.items ≡ map bytes_of.upper text.now) }
{
    text.iter().map(|b| upper(*b)).collect(alloc)
}

fn word_or_name(alloc: Global, line: u32, name: &[u8]) -> Result<ItemKind, TextFault>
    requires some { 1 ≤ length name.now }
    requires short { length name.now ≤ 32 }
    ensures { Answers (spec.word_or_name line name.now (pieces.word_of name.now)) result }
{
    if let Some(word) = word_of(name) {
        if is_left_out(word) {
            return Err(TextFault::LeftOutWord(line));
        }
        return Ok(ItemKind::Word(word));
    }
    match Name::new(alloc, name) {
        Ok(Some(name)) => Ok(ItemKind::Name(name)),
        Ok(None) => Err(TextFault::BadCharacter(line)),
        Err(_) => Err(TextFault::Memory),
    }
}

fn name_meant(alloc: Global, line: u32, text: &[u8]) -> Result<ItemKind, TextFault>
    requires { 1 ≤ length text.now }
    ensures { Answers (spec.name_meant line (map bytes_of.upper text.now)) result }
{
    if text.len() > 32 {
        return Err(TextFault::BadCharacter(line));
    }
    match upper_case(alloc, text) {
        Err(_) => Err(TextFault::Memory),
        Ok(name) => word_or_name(alloc, line, name.as_slice()),
    }
}

fn number_meant(line: u32, value: u32) -> Result<ItemKind, TextFault>
    ensures { Answers (spec.number_meant line value) result }
{
    if value > 65535 {
        return Err(TextFault::NumberTooLarge(line));
    }
    Ok(ItemKind::Number(value as u16))
}

fn all_digits_of(base: u32, text: &[u8]) -> bool
    ensures { result ≡ list_all (bytes_of.is_digit_of base) text.now }
{
    text.iter().all(|b| is_digit_of(base, *b))
}

fn digits_meant(line: u32, base: u32, text: &[u8]) -> Result<ItemKind, TextFault>
    requires low { 1 ≤ base }
    requires high { base ≤ 16 }
    ensures { Answers (spec.digits_meant line base text.now) result }
{
    if text.is_empty() || !all_digits_of(base, text) {
        return Err(TextFault::BadCharacter(line));
    }
    number_meant(line, value_of(base, text))
}

fn character_meant(line: u32, text: &[u8]) -> Result<ItemKind, TextFault>
    ensures { Answers (spec.character_meant line text.now) result }
{
    match text {
        [c, ..] => Ok(ItemKind::Number(u16::from(*c))),
        [] => Err(TextFault::BadCharacter(line)),
    }
}

fn string_meant(
    alloc: Global,
    table: &LetTable,
    line: u32,
    text: &[u8],
) -> Result<ItemKind, TextFault>
    ensures { Answers (spec.string_meant (texts.string_of (lets_of table.now) line text.now)) result }
{
    match string_of(alloc, table, line, text) {
        Ok(bytes) => Ok(ItemKind::Text(bytes)),
        Err(fault) => Err(fault),
    }
}

fn mark_meant(line: u32, text: &[u8]) -> Result<ItemKind, TextFault>
    ensures { Answers (spec.mark_meant line (pieces.mark_of text.now)) result }
{
    match mark_of(text) {
        Some(mark) => Ok(ItemKind::Mark(mark)),
        None => Err(TextFault::BadCharacter(line)),
    }
}

#[tactic(auto, unfolding(crate::specs::Meaning::text_meant))]
fn text_meant(
    alloc: Global,
    table: &LetTable,
    line: u32,
    text: &[u8],
) -> Result<ItemKind, TextFault>
    ensures { Answers (spec.text_meant (lets_of table.now) line text.now) result }
{
    match text {
        [] => Err(TextFault::BadCharacter(line)),
        [b, rest @ ..] => {
            if is_letter(*b) {
                name_meant(alloc, line, text)
            } else if is_digit(*b) {
                number_meant(line, value_of(10, text))
            } else if *b == 39 {
                character_meant(line, rest)
            } else if *b == 34 {
                string_meant(alloc, table, line, rest)
            } else {
                mark_meant(line, text)
            }
        }
    }
}

/// The item that a piece means, with the LET names of the table in force; the digits behind BIN, OCT or HEX have a base.
pub fn meaning(
    alloc: Global,
    table: &LetTable,
    line: u32,
    base: Option<Base>,
    text: &[u8],
) -> Result<ItemKind, TextFault>
    ensures { Answers (spec.meaning_by (lets_of table.now) line text.now base) result }
{
    match base {
        Some(base) => digits_meant(line, radix(base), text),
        None => text_meant(alloc, table, line, text),
    }
}
