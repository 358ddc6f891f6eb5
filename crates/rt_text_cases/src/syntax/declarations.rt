//! Modules of the grammar's trees as texts.

use crate::expansion::write_bytes;
use crate::stop::Stop;
use crate::syntax::bodies::show_body;
use crate::syntax::expressions::{close, dot, name, names, open};
use crate::syntax::modes::mode;
use rt_bricks::{
    DataBrick, DataLine, Declaration, Fields, Import, ImportedData, ImportedProcedures,
    ImportedStacks, Module, Parenthesized, ProcedureBrick, RecordMode, Selector, Sign, StackBrick,
    Start,
};
use rt_grammar::At;
use std::fmt::Write;

/// Writes a module.
pub fn show_module(module: &Module, out: &mut String) -> Result<(), Stop> {
    out.push(' ')?;
    write_bytes(out, module.title.as_slice())?;
    for one in module.declarations.as_slice() {
        declaration(out, one)?;
    }
    Ok(())
}

fn declaration(out: &mut String, declaration: &Declaration) -> Result<(), Stop> {
    match declaration {
        Declaration::Record(mode) => record(out, mode),
        Declaration::Data(brick) => data(out, brick),
        Declaration::Stack(brick) => stack(out, brick),
        Declaration::Procedure(brick) => procedure(out, brick),
        Declaration::ImportedProcedures(bricks) => imported_procedures(out, bricks),
        Declaration::ImportedData(brick) => imported_data(out, brick),
        Declaration::ImportedStacks(bricks) => imported_stacks(out, bricks),
    }
}

fn record(out: &mut String, record: &RecordMode) -> Result<(), Stop> {
    open(out, "MODE", record.at)?;
    name(out, record.name.name.as_slice(), record.name.at)?;
    fields(out, record.fields.as_slice())?;
    close(out)
}

// Opens the node of a brick of the module.
fn own(out: &mut String, entry: bool, kind: &str, at: At) -> Result<(), Stop> {
    let (entry, item) = (if entry { "ENT " } else { "" }, at.item);
    Ok(write!(out, " ({entry}{kind}@{item}")?)
}

fn data(out: &mut String, brick: &DataBrick) -> Result<(), Stop> {
    own(out, brick.entry, "DATA", brick.at)?;
    name(out, brick.name.name.as_slice(), brick.name.at)?;
    for line in brick.lines.as_slice() {
        data_line(out, line)?;
    }
    close(out)
}

fn data_line(out: &mut String, line: &DataLine) -> Result<(), Stop> {
    open(out, "line", line.at)?;
    mode(out, &line.mode)?;
    for item in line.items.as_slice() {
        name(out, item.name.name.as_slice(), item.name.at)?;
        if let Some(value) = &item.start {
            out.push_str(" :=")?;
            start(out, value)?;
        }
    }
    close(out)
}

fn stack(out: &mut String, brick: &StackBrick) -> Result<(), Stop> {
    own(out, brick.entry, "STACK", brick.at)?;
    name(out, brick.name.name.as_slice(), brick.name.at)?;
    let length = brick.length;
    Ok(write!(out, " {length})")?)
}

fn procedure(out: &mut String, brick: &ProcedureBrick) -> Result<(), Stop> {
    own(out, brick.entry, "brick", brick.at)?;
    let (opens, ends) = (brick.opens.item, brick.ends.item);
    write!(out, " PROC@{opens}")?;
    name(out, brick.name.name.as_slice(), brick.name.at)?;
    fields(out, brick.fields.as_slice())?;
    if let Some(result) = &brick.result {
        out.push_str(" =>")?;
        mode(out, result)?;
    }
    show_body(out, &brick.body)?;
    Ok(write!(out, " ENDPROC@{ends})")?)
}

// Opens the node of bricks of other modules.
fn imported(out: &mut String, import: Import, kind: &str, at: At) -> Result<(), Stop> {
    let item = at.item;
    Ok(write!(out, " ({import:?} {kind}@{item}")?)
}

fn imported_procedures(out: &mut String, bricks: &ImportedProcedures) -> Result<(), Stop> {
    imported(out, bricks.import, "PROC", bricks.at)?;
    mode(out, &bricks.mode)?;
    names(out, bricks.names.as_slice())?;
    close(out)
}

fn imported_data(out: &mut String, brick: &ImportedData) -> Result<(), Stop> {
    imported(out, brick.import, "DATA", brick.at)?;
    name(out, brick.name.name.as_slice(), brick.name.at)?;
    fields(out, brick.lines.as_slice())?;
    close(out)
}

fn imported_stacks(out: &mut String, bricks: &ImportedStacks) -> Result<(), Stop> {
    imported(out, Import::External, "STACK", bricks.at)?;
    names(out, bricks.names.as_slice())?;
    close(out)
}

fn fields(out: &mut String, groups: &[Fields]) -> Result<(), Stop> {
    for group in groups {
        open(out, "fields", group.at)?;
        mode(out, &group.mode)?;
        names(out, group.names.as_slice())?;
        close(out)?;
    }
    Ok(())
}

fn copies(out: &mut String, copies: Option<Parenthesized>) -> Result<(), Stop> {
    match copies {
        None => Ok(()),
        Some(Parenthesized { number, at }) => {
            let item = at.item;
            Ok(write!(out, "({number}@{item})")?)
        }
    }
}

#[cycle(starts)]
fn start(out: &mut String, value: &Start) -> Result<(), Stop> {
    match value {
        Start::List(all, times, at) => {
            open(out, "list", *at)?;
            starts(out, all.as_slice())?;
            close_list(out, *times)
        }
        _ => single(out, value),
    }
}

#[cycle(starts)]
fn starts(out: &mut String, all: &[Start]) -> Result<(), Stop> {
    for one in all {
        start(out, one)?;
    }
    Ok(())
}

fn close_list(out: &mut String, times: Option<Parenthesized>) -> Result<(), Stop> {
    close(out)?;
    copies(out, times)
}

// A start that holds no other.
fn single(out: &mut String, value: &Start) -> Result<(), Stop> {
    match value {
        Start::Number(sign, number, times, at) => {
            let (sign, item) = (sign_of(*sign), at.item);
            write!(out, " {sign}{number}@{item}")?;
            copies(out, *times)
        }
        Start::Text(bytes, at) => string(out, bytes.as_slice(), *at),
        Start::Place(ident, selectors) => {
            name(out, ident.name.as_slice(), ident.at)?;
            places(out, selectors.as_slice())
        }
        Start::List(..) => Ok(()),
    }
}

fn string(out: &mut String, bytes: &[u8], at: At) -> Result<(), Stop> {
    out.push_str(" <")?;
    write_bytes(out, bytes)?;
    let item = at.item;
    Ok(write!(out, ">@{item}")?)
}

fn sign_of(sign: Option<Sign>) -> &'static str {
    match sign {
        None => "",
        Some(Sign::Plus) => "+",
        Some(Sign::Minus) => "-",
    }
}

fn places(out: &mut String, selectors: &[Selector]) -> Result<(), Stop> {
    for selector in selectors {
        match selector {
            Selector::Dot(field, at) => dot(out, field, *at)?,
            Selector::Subscript(subscript) => copies(out, Some(*subscript))?,
        }
    }
    Ok(())
}
