//! Typed trees that no text gives: the tree of one text with a part of that of another, with a statement that no text has, or
//! without one of its records.

use crate::case::{Case, text_with};
use crate::modules::frames::show_last_frame;
use crate::modules::made::made;
use crate::stop::Stop;
use crate::systems::trace_modules;
use rt_bricks::{Module, parse_module};
use rt_check::read_module;
use rt_items::{Item, items};
use rt_tree::{Brick, BrickSort, Labelled, ModuleParts, TypedModule};
use rt_words::List;
use std::alloc::Global;
use std::{mem, slice};

/// What takes the place of the last part of its kind.
#[derive(Clone, Copy)]
pub enum Graft {
    /// The last brick of another text.
    Brick,
    /// The last statement of another text.
    Line,
    /// A statement that no text has.
    Made,
}

/// Whether the text of the case fits with this part; and where that is a statement that no text has, the frame of its last brick,
/// and what its tasks do.
pub fn ask_graft(
    alloc: Global,
    case: &Case,
    graft: Graft,
    rest: &str,
    out: &mut String,
) -> Result<(), Stop> {
    let mut parts = parts_of(alloc, case.frame(), "")?;
    put(alloc, graft, rest, &mut parts)?;
    match graft {
        Graft::Made => tell_made(alloc, case, parts, out),
        _ => tell_fit(parts, out),
    }
}

/// Whether the text of the case with this piece fits without the last of its records.
pub fn cut(alloc: Global, case: &Case, piece: &str, out: &mut String) -> Result<(), Stop> {
    let mut parts = parts_of(alloc, case.frame(), piece)?;
    drop_record(&mut parts);
    tell_fit(parts, out)
}

fn drop_record(parts: &mut ModuleParts) {
    let _ = parts.modes.records.pop();
}

fn tell_fit(parts: ModuleParts, out: &mut String) -> Result<(), Stop> {
    let fits = TypedModule::new(parts).is_some();
    Ok(out.push_str(if fits { " fits" } else { " unfit" })?)
}

fn tell_made(alloc: Global, case: &Case, parts: ModuleParts, out: &mut String) -> Result<(), Stop> {
    match TypedModule::new(parts) {
        Some(module) => show_made(alloc, case, &module, out),
        None => Ok(out.push_str(" unfit")?),
    }
}

fn show_made(
    alloc: Global,
    case: &Case,
    module: &TypedModule,
    out: &mut String,
) -> Result<(), Stop> {
    out.push_str(" fits")?;
    show_last_frame(alloc, module, out)?;
    if case.tasks.as_slice().is_empty() {
        return Ok(());
    }
    trace_modules(alloc, slice::from_ref(module), case.tasks.as_slice(), out)
}

// The parts of the typed tree of a text with this piece.
fn parts_of(alloc: Global, frame: &str, piece: &str) -> Result<ModuleParts, Stop> {
    let text = text_with(alloc, frame, piece)?;
    parts_in(alloc, text.as_str())
}

fn parts_in(alloc: Global, text: &str) -> Result<ModuleParts, Stop> {
    if text.len() > 4194304 {
        return Err(Stop::Line);
    }
    match items(alloc, text.as_bytes()) {
        Ok(all) => parts_among(alloc, all.as_slice()),
        Err(_) => Err(Stop::Line),
    }
}

fn parts_among(alloc: Global, all: &[Item]) -> Result<ModuleParts, Stop> {
    match parse_module(alloc, all) {
        Ok(source) => parts_from(alloc, &source),
        Err(_) => Err(Stop::Line),
    }
}

fn parts_from(alloc: Global, source: &Module) -> Result<ModuleParts, Stop> {
    read_module(alloc, source).ok().ok_or(Stop::Line)
}

fn put(alloc: Global, graft: Graft, rest: &str, parts: &mut ModuleParts) -> Result<(), Stop> {
    match graft {
        Graft::Brick => put_brick(alloc, rest, parts),
        Graft::Line => put_line(line_of(alloc, rest), parts),
        Graft::Made => put_line(made(alloc, rest), parts),
    }
}

fn put_brick(alloc: Global, text: &str, parts: &mut ModuleParts) -> Result<(), Stop> {
    let mut brick = brick_of(alloc, text)?;
    swap_last(&mut parts.bricks, &mut brick);
    Ok(())
}

// Puts a statement in the place of the last one of the last brick, where that is a procedure.
fn put_line(line: Result<Labelled, Stop>, parts: &mut ModuleParts) -> Result<(), Stop> {
    let mut line = line?;
    let mut bricks = parts.bricks.take().into_vec();
    if let Some(brick) = bricks.last_mut() {
        end_with(&mut brick.sort, &mut line);
    }
    parts.bricks = List::from_vec(bricks);
    Ok(())
}

fn end_with(sort: &mut BrickSort, line: &mut Labelled) {
    if let BrickSort::Proc(_, Some(procedure)) = sort {
        swap_last(&mut procedure.body.statements, line);
    }
}

// Swaps the last item of a list with this one.
fn swap_last<T: Drop>(list: &mut List<T>, item: &mut T) {
    let mut items = list.take().into_vec();
    if let Some(last) = items.last_mut() {
        mem::swap(last, item);
    }
    *list = List::from_vec(items);
}

// The last brick of a text.
fn brick_of(alloc: Global, text: &str) -> Result<Brick, Stop> {
    let mut parts = parts_of(alloc, "@", text)?;
    last_brick(&mut parts).ok_or(Stop::Line)
}

fn last_brick(parts: &mut ModuleParts) -> Option<Brick> {
    parts.bricks.pop()
}

// The last statement of a text.
fn line_of(alloc: Global, text: &str) -> Result<Labelled, Stop> {
    let mut brick = brick_of(alloc, text)?;
    last_line(&mut brick.sort).ok_or(Stop::Line)
}

fn last_line(sort: &mut BrickSort) -> Option<Labelled> {
    match sort {
        BrickSort::Proc(_, Some(procedure)) => procedure.body.statements.pop(),
        _ => None,
    }
}
