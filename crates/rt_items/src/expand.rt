//! LETs are taken out, and their names are replaced.

ghost use Rattle.std.specs.Prelude.{◌≡◌, ◌++◌, [], length};
ghost use Rattle.rt_items.specs.Lets as spec;
ghost use Rattle.rt_pieces.specs.Cutting.{Clean};
ghost use Rattle.rt_items.specs.Reading as turns;
ghost use Rattle.rt_items.specs.Reading.{Turns, end_of, state_of};
ghost use Rattle.std.specs.Option.{option_map};
ghost use Rattle.rt_items.specs.Ropes.{text_at};
ghost use Rattle.rt_items.specs.Table.{lets_of, IsNamed, SameLets};

use crate::table::{
    LetTable, add_own, add_use, begin, open_len, put, text_len, text_of, write_text,
};
use rt_pieces::{Item, ItemKind, Mark, Span, TextFault, Word};
use rt_words::{List, Name};
use std::alloc::Global;

/// Outside a LET, behind LET, behind its name, and in its text (which the table has), with the line of LET.
#[derive(Drop)]
pub enum State {
    Plain,
    Behind(u32),
    Named(u32, Name),
    Within(u32, Name),
}

/// The text that an item is replaced by, where it is a LET name.
fn use_of(table: &LetTable, kind: &ItemKind) -> Option<Option<usize>>
    ensures text { spec.or_itself kind.now (option_map (text_at table.now.texts) result) ≡ spec.replaced (lets_of table.now) kind.now }
    ensures root { IsNamed table.now.texts result }
{
    match kind {
        ItemKind::Name(name) => text_of(table, name.as_slice()),
        _ => None,
    }
}

fn is_let(kind: &ItemKind) -> bool
    ensures { result ≡ spec.is_let kind.now }
{
    match kind {
        ItemKind::Word(Word::Let) => true,
        _ => false,
    }
}

fn is_equal(kind: &ItemKind) -> bool
    ensures { result ≡ spec.is_equal kind.now }
{
    match kind {
        ItemKind::Mark(Mark::Equal) => true,
        _ => false,
    }
}

fn is_semicolon(kind: &ItemKind) -> bool
    ensures { result ≡ spec.is_semicolon kind.now }
{
    match kind {
        ItemKind::Mark(Mark::Semicolon) => true,
        _ => false,
    }
}

/// An item outside a LET goes into the list.
fn add_item(
    alloc: Global,
    table: &LetTable,
    out: &mut List<Item>,
    kind: ItemKind,
    span: Span,
) -> Result<(), TextFault>
    ensures { spec.Adds (spec.replaced (lets_of table.now) kind) (length out.old) span.line (out.new ≡ out.old ++ spec.items_at span.line span.from span.to (spec.replaced (lets_of table.now) kind)) result }
{
    let count = out.len();
    match use_of(table, &kind) {
        Some(text) => {
            if count.saturating_add(text_len(table, text)) > 65535 {
                return Err(TextFault::TooManyItems(span.line));
            }
            write_text(alloc, table, text, span, out)?;
            Ok(())
        }
        None => {
            if count >= 65535 {
                return Err(TextFault::TooManyItems(span.line));
            }
            out.push(Item {
                kind,
                line: span.line,
                from: span.from,
                to: span.to,
            })?;
            Ok(())
        }
    }
}

/// An item inside a LET goes into its text.
fn add_to_text(
    alloc: Global,
    table: &mut LetTable,
    kind: ItemKind,
    line: u32,
) -> Result<(), TextFault>
    ensures adds { spec.Adds (spec.replaced (lets_of table.old) kind) (length table.old.text) line (table.new.text ≡ table.old.text ++ spec.replaced (lets_of table.old) kind) result }
    ensures same { SameLets table.old table.new }
{
    let count = open_len(table);
    match use_of(table, &kind) {
        Some(more) => {
            if count.saturating_add(text_len(table, more)) > 65535 {
                return Err(TextFault::TooManyItems(line));
            }
            add_use(alloc, table, more)?;
            Ok(())
        }
        None => {
            if count >= 65535 {
                return Err(TextFault::TooManyItems(line));
            }
            add_own(table, kind)?;
            Ok(())
        }
    }
}

fn plain(
    alloc: Global,
    table: &LetTable,
    out: &mut List<Item>,
    kind: ItemKind,
    span: Span,
) -> Result<State, TextFault>
    ensures { Turns (turns.plain (lets_of table.now) (length out.old) span.line span.from span.to kind) out.old table.now out.new result }
{
    if is_let(&kind) {
        return Ok(State::Behind(span.line));
    }
    match add_item(alloc, table, out, kind, span) {
        Err(fault) => Err(fault),
        Ok(()) => Ok(State::Plain),
    }
}

fn behind(table: &LetTable, line: u32, kind: ItemKind) -> Result<State, TextFault>
    ensures { Turns (turns.behind (lets_of table.now) line (spec.name_of kind)) [] table.now [] result }
{
    match kind {
        ItemKind::Name(name) => Ok(State::Named(line, name)),
        _ => Err(TextFault::BadLet(line)),
    }
}

fn named(
    alloc: Global,
    table: &mut LetTable,
    line: u32,
    name: Name,
    kind: &ItemKind,
) -> Result<State, TextFault>
    ensures { Turns (turns.named (lets_of table.old) line name kind.now) [] table.new [] result }
{
    if is_equal(kind) {
        begin(alloc, table);
        return Ok(State::Within(line, name));
    }
    Err(TextFault::BadLet(line))
}

fn within(
    alloc: Global,
    table: &mut LetTable,
    let_line: u32,
    name: Name,
    kind: ItemKind,
    line: u32,
) -> Result<State, TextFault>
    ensures { Turns (turns.within (lets_of table.old) line let_line name table.old.text kind) [] table.new [] result }
{
    if is_semicolon(&kind) {
        put(alloc, table, &name)?;
        return Ok(State::Plain);
    }
    match add_to_text(alloc, table, kind, line) {
        Err(fault) => Err(fault),
        Ok(()) => Ok(State::Within(let_line, name)),
    }
}

/// One item more.
pub fn turn(
    alloc: Global,
    state: State,
    table: &mut LetTable,
    out: &mut List<Item>,
    kind: ItemKind,
    span: Span,
) -> Result<State, TextFault>
    ensures { Turns (turns.turn (state_of table.old.text state) (lets_of table.old) (length out.old) span.line span.from span.to kind) out.old table.new out.new result }
{
    match state {
        State::Plain => plain(alloc, table, out, kind, span),
        State::Behind(line) => behind(table, line, kind),
        State::Named(line, name) => named(alloc, table, line, name, &kind),
        State::Within(line, name) => within(alloc, table, line, name, kind, span.line),
    }
}

/// How the list ends where the text does.
pub fn finish(state: State, out: List<Item>) -> Result<List<Item>, TextFault>
    ensures { result ≡ spec.with_items out (end_of (state_of [] state) Clean) }
{
    match state {
        State::Plain => Ok(out),
        State::Behind(line) => Err(TextFault::BadLet(line)),
        State::Named(line, _) => Err(TextFault::BadLet(line)),
        State::Within(line, _) => Err(TextFault::BadLet(line)),
    }
}
