//! Names one by one, and what each is declared with.

ghost use Rattle.std.specs.Prelude.{◌≡◌, [], ◌∷◌, ◌++◌, None, false, map, IfOk, OnOk};
ghost use Rattle.rt_check_declared.specs.Names.{idents};
ghost use Rattle.rt_syntax_exprs.specs.declared.tree.WrittenMode.{out-WrittenMode};
ghost use Rattle.rt_check_declared.specs.Parts as spec;
ghost use Rattle.rt_exprs.specs.Names.{find_in};
ghost use Rattle.rt_check_declared.specs.Fields.{is_memory};
ghost use Rattle.rt_check_declared.specs.Verdicts.{with_faults};
ghost use Rattle.rt_check_declared.specs.Written.{written};

use crate::{Resolved, Site, note, resolve};
use rt_bricks::{DataItem, DataLine, Fields, Import};
use rt_check_faults::CheckFault;
use rt_exprs::Level;
use rt_grammar::{At, Ident};
use rt_modes::Mode;
use rt_syntax_exprs::{BasicMode, WrittenMode};
use rt_tree_nodes::copy_mode;
use rt_words::{List, Memory, Name};
use std::alloc::Global;

/// What a name is declared with.
#[derive(Drop)]
pub enum Given {
    Mode(Mode),
    /// A mode that can't be known, since what is written for it is unfit.
    Unknown,
}

/// A field, an item or a parameter.
#[derive(Drop)]
pub struct Part {
    pub name: Name,
    pub at: At,
    pub has: Given,
}

/// What stands before names.
#[derive(Drop)]
pub enum Line {
    Mode(Mode),
    /// An array whose length isn't 1 to 8,191: a fault of each name.
    BadLength,
    Unfit(CheckFault),
}

/// Parts that are read one after another.
#[derive(Drop)]
pub struct Parts {
    pub parts: List<Part>,
    /// The fault that counts of their modes.
    pub fault: Option<CheckFault>,
}

/// What is written before names.
pub fn read_line(
    alloc: Global,
    mode: &WrittenMode,
    site: Site,
    levels: &[Level<'_>],
) -> Result<Line, Memory>
    ensures { IfOk result (λ l. l ≡ spec.line_by (written (find_in levels.now) mode.now site)) }
{
    match resolve(alloc, mode, site, levels) {
        Ok(resolved) => match resolved {
            Resolved::Mode(mode) => Ok(Line::Mode(mode)),
            Resolved::BadLength => Ok(Line::BadLength),
        },
        Err(fault) => {
            let line = unfit_line(fault)?;
            Ok(line)
        }
    }
}

/// An unfit mode; want of memory is no fault of it.
fn unfit_line(fault: CheckFault) -> Result<Line, Memory>
    ensures line { IfOk result (λ l. l ≡ Line.Unfit fault) }
    ensures fault { OnOk result (is_memory fault ≡ false) }
{
    match fault {
        CheckFault::Memory => Err(Memory),
        _ => Ok(Line::Unfit(fault)),
    }
}

/// What a name is declared with.
pub fn declared_with(alloc: Global, line: &Line) -> Result<Given, Memory>
    ensures { IfOk result (λ g. g ≡ spec.given_by line.now) }
{
    match line {
        Line::Mode(mode) => Ok(Given::Mode(copy_mode(alloc, mode)?)),
        Line::BadLength | Line::Unfit(_) => Ok(Given::Unknown),
    }
}

/// Adds a name.
fn add_part(alloc: Global, line: &Line, name: &Ident, parts: &mut List<Part>) -> Result<(), Memory>
    ensures { OnOk result (parts.new ≡ parts.old ++ spec.part line.now name.now ∷ []) }
{
    let part = Part {
        name: name.name.copy(alloc)?,
        at: name.at,
        has: declared_with(alloc, line)?,
    };
    parts.push(part)
}

/// Adds names.
fn add_parts(
    alloc: Global,
    line: &Line,
    names: &[Ident],
    parts: &mut List<Part>,
) -> Result<(), Memory>
    ensures { OnOk result (parts.new ≡ parts.old ++ map (spec.part line.now) names.now) }
{
    for name in names {
        add_part(alloc, line, name, parts)?;
    }
    Ok(())
}

/// Adds the names of items with starts.
fn add_items(
    alloc: Global,
    line: &Line,
    items: &[DataItem],
    parts: &mut List<Part>,
) -> Result<(), Memory>
    ensures { OnOk result (parts.new ≡ parts.old ++ map (spec.part line.now) (idents items.now)) }
{
    for item in items {
        add_part(alloc, line, &item.name, parts)?;
    }
    Ok(())
}

/// Notes the fault of a line that has one.
#[tactic(auto, unfolding(crate::specs::Verdicts::with_faults))]
pub fn note_line(line: &Line, names: &[Ident], faults: &mut Option<CheckFault>)
    ensures { faults.new ≡ with_faults faults.old (spec.line_faults line.now names.now) }
{
    match line {
        Line::Mode(_) => {}
        Line::BadLength => note_lengths(names, faults),
        Line::Unfit(fault) => note(faults, *fault),
    }
}

#[tactic(auto, unfolding(crate::specs::Verdicts::with_faults))]
fn note_lengths(names: &[Ident], faults: &mut Option<CheckFault>)
    ensures { faults.new ≡ with_faults faults.old (spec.line_faults Line.BadLength names.now) }
{
    for name in names {
        note(faults, CheckFault::BadStart(name.at));
    }
}

/// The same of items with starts.
#[tactic(auto, unfolding(crate::specs::Verdicts::with_faults))]
fn note_items(line: &Line, items: &[DataItem], faults: &mut Option<CheckFault>)
    ensures { faults.new ≡ with_faults faults.old (spec.line_faults line.now (idents items.now)) }
{
    match line {
        Line::Mode(_) => {}
        Line::BadLength => note_item_lengths(items, faults),
        Line::Unfit(fault) => note(faults, *fault),
    }
}

#[tactic(auto, unfolding(crate::specs::Verdicts::with_faults))]
fn note_item_lengths(items: &[DataItem], faults: &mut Option<CheckFault>)
    ensures { faults.new ≡ with_faults faults.old (spec.line_faults Line.BadLength (idents items.now)) }
{
    for item in items {
        note(faults, CheckFault::BadStart(item.name.at));
    }
}

/// Whether LABEL is the mode of ERL in imported data: in the SVC data RRERR alone.
pub fn recovers(import: Import, name: &[u8]) -> bool
    ensures { result ≡ spec.recovers import name.now }
{
    match import {
        Import::Service => name == b"RRERR".as_slice(),
        Import::External => false,
    }
}

fn is_label(mode: &WrittenMode) -> bool
    ensures { result ≡ spec.is_label (out-WrittenMode mode.now) }
{
    match mode {
        WrittenMode::Basic(basic, _) => *basic == BasicMode::Label,
        _ => false,
    }
}

fn is_only(wanted: &[u8], names: &[Ident]) -> bool
    ensures { result ≡ spec.is_only wanted.now names.now }
{
    match names {
        [name] => name.name.as_slice() == wanted,
        _ => false,
    }
}

/// What is written before items of imported data, where LABEL may be the mode of ERL or not.
fn read_imported_line(
    alloc: Global,
    line: &Fields,
    recovers: bool,
    levels: &[Level<'_>],
) -> Result<Line, Memory>
    ensures { IfOk result (λ l. l ≡ spec.imported_line (find_in levels.now) recovers line.now) }
{
    if is_recovery(recovers, line) {
        return Ok(Line::Mode(Mode::Label));
    }
    let read = read_line(alloc, &line.mode, Site::Item, levels)?;
    Ok(read)
}

/// Whether a line declares the label for recovery.
fn is_recovery(recovers: bool, line: &Fields) -> bool
    ensures { result ≡ spec.is_recovery recovers line.now }
{
    recovers && is_label(&line.mode) && is_only(b"ERL", line.names.as_slice())
}

/// The items of an imported data brick.
#[tactic(auto, unfolding(crate::specs::Verdicts::with_faults))]
pub fn read_parts(
    alloc: Global,
    lines: &[Fields],
    recovers: bool,
    levels: &[Level<'_>],
) -> Result<Parts, Memory>
    ensures parts { IfOk result (λ p. p.parts ≡ spec.parts (find_in levels.now) recovers lines.now) }
    ensures fault { IfOk result (λ p. p.fault ≡ with_faults None (spec.parts_faults (find_in levels.now) recovers lines.now)) }
{
    let mut parts = List::new(alloc, 0)?;
    let mut fault = None;
    for line in lines {
        let mode = read_imported_line(alloc, line, recovers, levels)?;
        let names = line.names.as_slice();
        add_parts(alloc, &mode, names, &mut parts)?;
        note_line(&mode, names, &mut fault);
    }
    Ok(Parts { parts, fault })
}

/// The items of a data brick of the module.
#[tactic(auto, unfolding(crate::specs::Verdicts::with_faults))]
pub fn read_items(alloc: Global, lines: &[DataLine], levels: &[Level<'_>]) -> Result<Parts, Memory>
    ensures parts { IfOk result (λ p. p.parts ≡ spec.item_parts (find_in levels.now) lines.now) }
    ensures fault { IfOk result (λ p. p.fault ≡ with_faults None (spec.item_faults (find_in levels.now) lines.now)) }
{
    let mut parts = List::new(alloc, 0)?;
    let mut fault = None;
    for line in lines {
        let mode = read_line(alloc, &line.mode, Site::Item, levels)?;
        let items = line.items.as_slice();
        add_items(alloc, &mode, items, &mut parts)?;
        note_items(&mode, items, &mut fault);
    }
    Ok(Parts { parts, fault })
}
