//! Texts as the grammar has them: items, bodies and modules.

mod bodies;
mod counts;
mod declarations;
mod expressions;
mod kinds;
mod modes;

use crate::case::{Case, text_with};
use crate::stop::Stop;
use bodies::show_body;
use counts::{show_counts, show_sizes, show_strings};
use declarations::show_module;
use kinds::show_items;
use rt_bricks::{Module, parse_module};
use rt_items::{Item, items};
use rt_syntax::{Body, parse_body};
use std::alloc::Global;
use std::fmt::Write;

/// What is asked of the items of a text.
#[derive(Clone, Copy)]
pub enum Part {
    /// The items themselves.
    Items,
    /// How many there are.
    Count,
    /// The tree of the module.
    Module,
    /// How many declarations the module has, and how many bodies that end at the same item when they are read alone.
    Sizes,
    /// The tree of the body.
    Body,
    /// The strings of the body.
    Strings,
    /// How many declarations and statements the body at this item has, and the item behind it.
    BodyAt(u32),
}

/// Writes what is asked of the items of a text with this piece, or its fault.
pub fn ask_items(
    alloc: Global,
    case: &Case,
    part: Part,
    piece: &str,
    out: &mut String,
) -> Result<(), Stop> {
    let text = text_with(alloc, case.frame(), piece)?;
    read_text(alloc, text.as_str(), part, out)
}

fn read_text(alloc: Global, text: &str, part: Part, out: &mut String) -> Result<(), Stop> {
    if text.len() > 4194304 {
        return Err(Stop::Line);
    }
    match items(alloc, text.as_bytes()) {
        Ok(all) => read_items(alloc, all.as_slice(), part, out),
        Err(fault) => Ok(write!(out, " {fault}")?),
    }
}

fn read_items(alloc: Global, all: &[Item], part: Part, out: &mut String) -> Result<(), Stop> {
    match part {
        Part::Items => show_items(all, out),
        Part::Count => {
            let count = all.len();
            Ok(write!(out, " {count} items")?)
        }
        Part::Module | Part::Sizes => read_module(alloc, all, part, out),
        Part::Body | Part::Strings => read_body(alloc, all, 0, part, out),
        Part::BodyAt(at) => read_body(alloc, all, at as usize, part, out),
    }
}

fn read_module(alloc: Global, all: &[Item], part: Part, out: &mut String) -> Result<(), Stop> {
    match parse_module(alloc, all) {
        Ok(module) => tell_module(alloc, all, &module, part, out),
        Err(fault) => Ok(write!(out, " {fault}")?),
    }
}

fn tell_module(
    alloc: Global,
    all: &[Item],
    module: &Module,
    part: Part,
    out: &mut String,
) -> Result<(), Stop> {
    match part {
        Part::Sizes => show_sizes(alloc, all, module, out),
        _ => show_module(module, out),
    }
}

fn read_body(
    alloc: Global,
    all: &[Item],
    at: usize,
    part: Part,
    out: &mut String,
) -> Result<(), Stop> {
    if at > all.len() {
        return Err(Stop::Line);
    }
    match parse_body(alloc, all, at) {
        Ok((body, behind)) => tell_body(alloc, &body, behind, part, out),
        Err(fault) => Ok(write!(out, " {fault}")?),
    }
}

fn tell_body(
    alloc: Global,
    body: &Body,
    behind: usize,
    part: Part,
    out: &mut String,
) -> Result<(), Stop> {
    match part {
        Part::Strings => show_strings(alloc, body, out),
        Part::BodyAt(_) => show_counts(body, behind, out),
        _ => show_body(out, body),
    }
}
