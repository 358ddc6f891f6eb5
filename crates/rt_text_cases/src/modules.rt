//! Typed modules of texts: their trees, their faults with lines, frames of their procedures, their intermediate code, and trees
//! that no text gives.

ghost use Rattle.std.specs.List.{AllByRecursion};
ghost use Rattle.rt_items.specs.Ranges.{IsByte};
ghost use Rattle.rt_tree.specs.Within.{Within};

mod bounds;
mod faults;
mod frames;
mod grafts;
mod made;
mod starts;
mod statements;
mod tree;
mod values;

use crate::case::{Case, text_with};
use crate::code::show_code;
use crate::stop::Stop;
use bounds::show_bound;
pub use faults::tell;
use faults::tell_in_piece;
use frames::show_frame_of;
pub use grafts::{Graft, ask_graft, cut};
use rt_check::{ModuleFault, typed_module};
use rt_tree::TypedModule;
use std::alloc::Global;
use std::fmt::Write;
use tree::{show_last, show_module};

/// What is asked of the typed module of a text.
#[derive(Clone, Copy)]
pub enum Look<'a> {
    /// How many bricks and strings it has.
    Counts,
    /// All of it.
    Tree,
    /// What its last brick is; a fault is told by its item in the piece, which stands in this text in place of `@`.
    Piece(&'a str),
    /// The frame of the procedure of this name.
    Frame(&'a str),
    /// Its procedures, and the bound of the last one before and after it is set to this number.
    Bound(u32),
    /// The intermediate code of its procedures.
    Code,
}

/// Writes what is asked of the typed module of a text with this piece, or its fault.
pub fn ask_module(
    alloc: Global,
    case: &Case,
    look: Look<'_>,
    piece: &str,
    out: &mut String,
) -> Result<(), Stop> {
    let text = text_with(alloc, case.frame(), piece)?;
    look_at(alloc, text.as_str(), look, out)
}

fn look_at(alloc: Global, text: &str, look: Look<'_>, out: &mut String) -> Result<(), Stop> {
    if text.len() > 4194304 {
        return Err(Stop::Line);
    }
    let bytes = text.as_bytes();
    bytes_are_small(bytes);
    match typed_module(alloc, bytes) {
        Ok(mut module) => look_in(alloc, &mut module, look, out),
        Err(fault) => look_past(alloc, &fault, look, out),
    }
}

/// Bytes are below 256, as their type says.
fn bytes_are_small(_bytes: &[u8])
    ensures { AllByRecursion IsByte _bytes.now }
{}

fn look_in(
    alloc: Global,
    module: &mut TypedModule,
    look: Look<'_>,
    out: &mut String,
) -> Result<(), Stop>
    requires { Within «module».now }
{
    match look {
        Look::Counts => show_counts(module, out),
        Look::Tree => show_module(alloc, module, out),
        Look::Piece(_) => show_last(alloc, module, out),
        Look::Frame(name) => show_frame_of(alloc, module, name, out),
        Look::Bound(most) => show_bound(module, most, out),
        Look::Code => show_code(alloc, module, out),
    }
}

fn look_past(
    alloc: Global,
    fault: &ModuleFault,
    look: Look<'_>,
    out: &mut String,
) -> Result<(), Stop> {
    match look {
        Look::Counts | Look::Frame(_) => tell(fault, out),
        Look::Tree => Ok(write!(out, " {fault}")?),
        Look::Piece(frame) => tell_in_piece(alloc, fault, frame, out),
        Look::Bound(_) => Err(Stop::Line),
        Look::Code => Ok(out.push_str("\n= no module")?),
    }
}

fn show_counts(module: &TypedModule, out: &mut String) -> Result<(), Stop> {
    let (bricks, strings) = (module.bricks().len(), module.strings().len());
    Ok(write!(out, " {bricks} bricks {strings} strings")?)
}
