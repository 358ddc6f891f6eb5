//! One item.

ghost use Rattle.std.specs.Prelude.{◌≡◌};
ghost use Rattle.rt_grammar.specs.Parts as parts;
ghost use Rattle.rt_grammar.specs.Parsing as parse;
ghost use Rattle.rt_grammar.specs.Parsing.{Gives};

use crate::at::{At, Ident};
use crate::next::Next;
use crate::stop::Stop;
use rt_pieces::{Item, ItemKind, Mark, Word};
use rt_words::{Bytes, Name};
use std::alloc::Global;

/// What comes first in the list.
pub fn next_of(items: &[Item]) -> Next
    ensures { result ≡ parts.next_of items.now }
{
    match items {
        [] => Next::End,
        [first, ..] => match &first.kind {
            ItemKind::Word(word) => Next::Word(*word),
            ItemKind::Name(_) => Next::Name,
            ItemKind::Number(_) => Next::Number,
            ItemKind::Text(_) => Next::Text,
            ItemKind::Mark(mark) => Next::Mark(*mark),
        },
    }
}

/// Where the first of these items stands, if they are the last ones of `total` in all.
pub fn at_of(total: usize, items: &[Item]) -> At
    ensures { result ≡ parts.at_of total items.now }
{
    let line = match items {
        [] => 0,
        [first, ..] => first.line,
    };
    At {
        item: total.saturating_sub(items.len()).min(65535) as u16,
        line,
    }
}

#[tactic(auto, unfolding(crate::specs::Parsing::same_mark))]
fn same_mark(a: Mark, b: Mark) -> bool
    ensures { result ≡ parse.same_mark a b }
{
    a == b
}

#[tactic(auto, unfolding(crate::specs::Parsing::same_word))]
fn same_word(a: Word, b: Word) -> bool
    ensures { result ≡ parse.same_word a b }
{
    a == b
}

fn is_mark(mark: Mark, kind: &ItemKind) -> bool
    ensures { parse.mark_in mark kind.now ≡ parse.some_if result }
{
    match kind {
        ItemKind::Mark(found) => same_mark(mark, *found),
        _ => false,
    }
}

fn is_word(word: Word, kind: &ItemKind) -> bool
    ensures { parse.word_in word kind.now ≡ parse.some_if result }
{
    match kind {
        ItemKind::Word(found) => same_word(word, *found),
        _ => false,
    }
}

/// Whether this mark comes next.
pub fn mark_comes(mark: Mark, items: &[Item]) -> bool
    ensures { result ≡ parse.is_mark mark (parts.next_of items.now) }
{
    match next_of(items) {
        Next::Mark(found) => same_mark(mark, found),
        _ => false,
    }
}

/// Whether this word comes next.
pub fn word_comes(word: Word, items: &[Item]) -> bool
    ensures { result ≡ parse.is_word word (parts.next_of items.now) }
{
    match next_of(items) {
        Next::Word(found) => same_word(word, found),
        _ => false,
    }
}

/// Whether a name comes next.
pub fn name_comes(items: &[Item]) -> bool
    ensures { result ≡ parse.is_name (parts.next_of items.now) }
{
    match next_of(items) {
        Next::Name => true,
        _ => false,
    }
}

/// Whether a name and a colon come next.
pub fn label_comes(items: &[Item]) -> bool
    ensures { result ≡ parse.label_comes items.now }
{
    match items {
        [] => false,
        [_, rest @ ..] => name_comes(items) && mark_comes(Mark::Colon, rest),
    }
}

/// The items after this mark.
#[tactic(auto, unfolding(crate::specs::Parsing::mark))]
pub fn after_mark(mark: Mark, items: &[Item]) -> Result<&[Item], Stop>
    ensures { Gives (λ r. (tt, r.now)) result (parse.mark mark items.now) }
{
    match items {
        [] => Err(Stop::Unfit(0)),
        [first, rest @ ..] => {
            if is_mark(mark, &first.kind) {
                Ok(rest)
            } else {
                Err(Stop::Unfit(items.len()))
            }
        }
    }
}

/// The items after this word.
#[tactic(auto, unfolding(crate::specs::Parsing::word))]
pub fn after_word(word: Word, items: &[Item]) -> Result<&[Item], Stop>
    ensures { Gives (λ r. (tt, r.now)) result (parse.word word items.now) }
{
    match items {
        [] => Err(Stop::Unfit(0)),
        [first, rest @ ..] => {
            if is_word(word, &first.kind) {
                Ok(rest)
            } else {
                Err(Stop::Unfit(items.len()))
            }
        }
    }
}

/// The items after the mark that opens one more of `levels` levels.
#[tactic(auto, unfolding(crate::specs::Parsing::within))]
pub fn open_mark(levels: usize, mark: Mark, items: &[Item]) -> Result<&[Item], Stop>
    ensures { Gives (λ r. (tt, r.now)) result (parse.within levels (parse.mark mark) items.now) }
{
    if levels == 0 {
        return Err(Stop::Unfit(items.len()));
    }
    after_mark(mark, items)
}

/// The items after the word that opens one more of `levels` levels.
#[tactic(auto, unfolding(crate::specs::Parsing::within))]
pub fn open_word(levels: usize, word: Word, items: &[Item]) -> Result<&[Item], Stop>
    ensures { Gives (λ r. (tt, r.now)) result (parse.within levels (parse.word word) items.now) }
{
    if levels == 0 {
        return Err(Stop::Unfit(items.len()));
    }
    after_word(word, items)
}

/// The first item, where it was found to mean something.
pub fn found_in<T: Drop>(found: Option<T>, items: &[Item]) -> Result<(T, &[Item]), Stop>
    ensures { Gives (λ x. (x.0, x.1.now)) result (parse.found_in found items.now) }
{
    match items {
        [] => Err(Stop::Unfit(0)),
        [_, rest @ ..] => match found {
            Some(meaning) => Ok((meaning, rest)),
            None => Err(Stop::Unfit(items.len())),
        },
    }
}

/// A name.
#[tactic(auto, unfolding(crate::specs::Parsing::name))]
pub fn name(alloc: Global, items: &[Item]) -> Result<(Name, &[Item]), Stop>
    ensures { Gives (λ x. (x.0, x.1.now)) result (parse.name items.now) }
{
    match items {
        [] => Err(Stop::Unfit(0)),
        [first, rest @ ..] => match &first.kind {
            ItemKind::Name(name) => Ok((name.copy(alloc)?, rest)),
            _ => Err(Stop::Unfit(items.len())),
        },
    }
}

/// A name and where it stands.
#[tactic(auto, unfolding(crate::specs::Parsing::ident))]
pub fn ident(alloc: Global, total: usize, items: &[Item]) -> Result<(Ident, &[Item]), Stop>
    ensures { Gives (λ x. (x.0, x.1.now)) result (parse.ident total items.now) }
{
    let at = at_of(total, items);
    let (name, rest) = name(alloc, items)?;
    Ok((Ident { name, at }, rest))
}

/// A number.
#[tactic(auto, unfolding(crate::specs::Parsing::number))]
pub fn number(items: &[Item]) -> Result<(u16, &[Item]), Stop>
    ensures { Gives (λ x. (x.0, x.1.now)) result (parse.number items.now) }
{
    match items {
        [] => Err(Stop::Unfit(0)),
        [first, rest @ ..] => match &first.kind {
            ItemKind::Number(n) => Ok((*n, rest)),
            _ => Err(Stop::Unfit(items.len())),
        },
    }
}

/// A string's bytes.
#[tactic(auto, unfolding(crate::specs::Parsing::text))]
pub fn text(alloc: Global, items: &[Item]) -> Result<(Bytes, &[Item]), Stop>
    ensures { Gives (λ x. (x.0, x.1.now)) result (parse.text items.now) }
{
    match items {
        [] => Err(Stop::Unfit(0)),
        [first, rest @ ..] => match &first.kind {
            ItemKind::Text(bytes) => Ok((bytes.copy(alloc)?, rest)),
            _ => Err(Stop::Unfit(items.len())),
        },
    }
}

/// A name and a colon.
#[tactic(auto, unfolding(crate::specs::Parsing::label))]
pub fn label(alloc: Global, total: usize, items: &[Item]) -> Result<(Ident, &[Item]), Stop>
    ensures { Gives (λ x. (x.0, x.1.now)) result (parse.label total items.now) }
{
    let (label, rest) = ident(alloc, total, items)?;
    let rest = after_mark(Mark::Colon, rest)?;
    Ok((label, rest))
}
