//! The strings of starts that are strings of the module.

ghost use Rattle.std.specs.Prelude.{◌≡◌, ◌++◌, map, None, [], IfOk, OnOk};
ghost use Rattle.rt_modes.specs.declared.mode.Mode.{out-Mode};
ghost use Rattle.rt_check_module.specs.Starts as starts;
ghost use Rattle.rt_check_module.specs.Starts.{written};
ghost use Rattle.rt_check_module.specs.Strings as spec;
ghost use Rattle.rt_check_module.specs.Strings.{HasSame, HasOneMore};
ghost use Rattle.rt_syntax.specs.Strings.{text_of};

use crate::items::{behind, first};
use crate::parts::{Wanted, next_fields, want};
use indexmap::IndexSet;
use rt_bricks::{DataItem, DataLine, Start};
use rt_check_declared::{Given, Part};
use rt_modes::{Field, Mode, ModeTable};
use rt_syntax::Text;
use rt_words::{List, Memory};
use std::alloc::Global;

/// Adds the items of the strings in a start that are strings of the module where this mode is wanted.
#[cycle(used)]
fn add_used(
    used: &mut List<u16>,
    modes: &ModeTable,
    start: &Start,
    mode: &Mode,
) -> Result<(), Memory>
    ensures { OnOk result (used.new ≡ used.old ++ spec.used modes.now.records start.now mode.now) }
{
    match start {
        Start::Text(_, at) => match mode {
            Mode::RefArray(_) => used.push(at.item),
            _ => Ok(()),
        },
        Start::List(parts, _, _) => match want(modes, parts.as_slice(), mode) {
            Wanted::Elements(of) => used_in_each(used, modes, parts.as_slice(), of),
            Wanted::Fields(fields) => used_in_fields(used, modes, parts.as_slice(), fields),
            Wanted::Nothing => Ok(()),
        },
        _ => Ok(()),
    }
}

#[cycle(used)]
fn used_in_each(
    used: &mut List<u16>,
    modes: &ModeTable,
    parts: &[Start],
    mode: &Mode,
) -> Result<(), Memory>
    ensures { OnOk result (used.new ≡ used.old ++ starts.in_each (λ w. w.used) (map (written modes.now.records (λ n. None) []) parts.now) mode.now) }
{
    for part in parts {
        add_used(used, modes, part, mode)?;
    }
    Ok(())
}

#[cycle(used)]
fn used_in_fields(
    used: &mut List<u16>,
    modes: &ModeTable,
    parts: &[Start],
    fields: &[Field],
) -> Result<(), Memory>
    ensures { OnOk result (used.new ≡ used.old ++ starts.in_fields (λ w. w.used) (map (written modes.now.records (λ n. None) []) parts.now) fields.now) }
{
    let mut left = fields;
    for part in parts {
        let (these, rest) = next_fields(part, left);
        for field in these {
            add_used(used, modes, part, &field.mode)?;
        }
        left = rest;
    }
    Ok(())
}

/// These items as a set.
fn to_set(alloc: Global, items: &[u16]) -> Result<IndexSet<u16>, Memory>
    ensures { IfOk result (λ s. HasSame s.keys items.now) }
{
    let mut set = IndexSet::new(alloc);
    for item in items {
        insert(&mut set, *item)?;
    }
    Ok(set)
}

fn insert(set: &mut IndexSet<u16>, item: u16) -> Result<(), Memory>
    ensures { OnOk result (HasOneMore set.new.keys set.old.keys item) }
{
    match set.insert(item) {
        Ok(_) => Ok(()),
        Err(_) => Err(Memory),
    }
}

fn is_in(items: &IndexSet<u16>, item: u16) -> bool
    ensures { result ≡ spec.is_in items.now.keys item }
{
    items.contains(&item)
}

/// Adds the strings in a start that begin at some items.
#[cycle(texts)]
fn add_texts<'a>(
    found: &mut List<Text<'a>>,
    items: &IndexSet<u16>,
    start: &'a Start,
) -> Result<(), Memory>
    ensures { OnOk result (map text_of found.new ≡ map text_of found.old ++ spec.texts items.now.keys start.now) }
{
    match start {
        Start::Text(bytes, at) => {
            if is_in(items, at.item) {
                found.push(Text {
                    item: at.item,
                    bytes,
                })
            } else {
                Ok(())
            }
        }
        Start::List(parts, _, _) => add_all_texts(found, items, parts.as_slice()),
        _ => Ok(()),
    }
}

#[cycle(texts)]
fn add_all_texts<'a>(
    found: &mut List<Text<'a>>,
    items: &IndexSet<u16>,
    parts: &'a [Start],
) -> Result<(), Memory>
    ensures { OnOk result (map text_of found.new ≡ map text_of found.old ++ spec.all (map (spec.texts items.now.keys) parts.now)) }
{
    for part in parts {
        add_texts(found, items, part)?;
    }
    Ok(())
}

/// The same of an item.
fn add_start_texts<'a>(
    alloc: Global,
    found: &mut List<Text<'a>>,
    modes: &ModeTable,
    start: &'a Option<Start>,
    given: &Given,
) -> Result<(), Memory>
    ensures { OnOk result (map text_of found.new ≡ map text_of found.old ++ spec.start_texts modes.now.records start.now given.now) }
{
    match start {
        None => Ok(()),
        Some(start) => match given {
            Given::Unknown => Ok(()),
            Given::Mode(mode) => {
                let mut used = List::new(alloc, 0)?;
                add_used(&mut used, modes, start, mode)?;
                let items = to_set(alloc, used.as_slice())?;
                add_texts(found, &items, start)
            }
        },
    }
}

/// The same of the items of a line.
fn add_items_texts<'a>(
    alloc: Global,
    found: &mut List<Text<'a>>,
    modes: &ModeTable,
    items: &'a [DataItem],
    parts: &[Part],
) -> Result<(), Memory>
    ensures { OnOk result (map text_of found.new ≡ map text_of found.old ++ spec.items_texts modes.now.records items.now parts.now) }
{
    let mut left = parts;
    for item in items {
        match first(left) {
            Some((part, rest)) => {
                add_start_texts(alloc, found, modes, &item.start, &part.has)?;
                left = rest;
            }
            None => return Ok(()),
        }
    }
    Ok(())
}

/// Appends the strings of a data brick's starts that are strings of the module, in the order of their items: all that don't start
/// an ARRAY BYTE. `parts` has what each item is declared with.
pub fn add_brick_strings<'a>(
    alloc: Global,
    found: &mut List<Text<'a>>,
    modes: &ModeTable,
    lines: &'a [DataLine],
    parts: &[Part],
) -> Result<(), Memory>
    ensures { OnOk result (map text_of found.new ≡ map text_of found.old ++ spec.brick_texts modes.now.records lines.now parts.now) }
{
    let mut left = parts;
    for line in lines {
        let items = line.items.as_slice();
        add_items_texts(alloc, found, modes, items, left)?;
        left = behind(left, items);
    }
    Ok(())
}
