//! What the lines ask.

use crate::case::Case;
use crate::expansion::number;
use crate::modules::{Graft, Look, ask_graft, ask_module, cut};
use crate::stop::Stop;
use crate::syntax::{Part, ask_items};
use crate::systems::{Way, run, trace};
use std::alloc::Global;

/// Writes what is asked by this word with the rest of its line behind it.
pub fn answer(
    alloc: Global,
    case: &Case,
    word: &str,
    rest: &str,
    out: &mut String,
) -> Result<(), Stop> {
    match word {
        "RUN" => run(alloc, case, Way::FromState, rest, out),
        "SYSTEM" => run(alloc, case, Way::FromModules, rest, out),
        "TRACE" => trace(alloc, case, rest, out),
        "BRICK" => ask_graft(alloc, case, Graft::Brick, rest, out),
        "LINE" => ask_graft(alloc, case, Graft::Line, rest, out),
        "MADE" => ask_graft(alloc, case, Graft::Made, rest, out),
        "CUT" => cut(alloc, case, rest, out),
        _ => of_module(alloc, case, word, rest, out),
    }
}

// What is asked of the typed module of a text.
fn of_module(
    alloc: Global,
    case: &Case,
    word: &str,
    rest: &str,
    out: &mut String,
) -> Result<(), Stop> {
    match word {
        "CHECK" => ask_module(alloc, case, Look::Counts, rest, out),
        "TYPED" => ask_module(alloc, case, Look::Tree, rest, out),
        "PIECE" => ask_module(alloc, case, Look::Piece(case.frame()), rest, out),
        "FRAME" => {
            let (name, piece) = split(rest);
            ask_module(alloc, case, Look::Frame(name), piece, out)
        }
        "BOUND" => ask_module(alloc, case, Look::Bound(number(rest)?), "", out),
        "CODE" => ask_module(alloc, case, Look::Code, rest, out),
        _ => of_items(alloc, case, word, rest, out),
    }
}

// What is asked of the items of a text.
fn of_items(
    alloc: Global,
    case: &Case,
    word: &str,
    rest: &str,
    out: &mut String,
) -> Result<(), Stop> {
    match word {
        "ITEMS" => ask_items(alloc, case, Part::Items, rest, out),
        "COUNT" => ask_items(alloc, case, Part::Count, rest, out),
        "SYNTAX" => ask_items(alloc, case, Part::Module, rest, out),
        "SIZES" => ask_items(alloc, case, Part::Sizes, rest, out),
        "TREE" => ask_items(alloc, case, Part::Body, rest, out),
        "STRINGS" => ask_items(alloc, case, Part::Strings, rest, out),
        "BODY" => {
            let (at, piece) = split(rest);
            ask_items(alloc, case, Part::BodyAt(number(at)?), piece, out)
        }
        _ => Err(Stop::Line),
    }
}

// The first word, and what stands behind it.
fn split(rest: &str) -> (&str, &str) {
    rest.split_once(' ').unwrap_or((rest, ""))
}
