//! Bounds of recursion.

use crate::stop::Stop;
use rt_tree::{BrickSort, TypedModule};
use std::fmt::Write;

/// Writes which bricks are procedures of the module, and the bound of the last one before and after it is set.
pub fn show_bound(module: &mut TypedModule, most: u32, out: &mut String) -> Result<(), Stop> {
    let last = show_procedures(module, out)?;
    show_most(module, last, out)?;
    if module.is_procedure(last) {
        module.bound(last, u16::try_from(most).unwrap_or(0));
    }
    show_most(module, last, out)
}

// Writes which bricks are procedures of the module, and answers the last one.
fn show_procedures(module: &TypedModule, out: &mut String) -> Result<u16, Stop> {
    let mut last = 0;
    for brick in 0..1000u16 {
        if module.is_procedure(brick) {
            write!(out, " {brick}")?;
            last = brick;
        }
    }
    Ok(last)
}

fn show_most(module: &TypedModule, brick: u16, out: &mut String) -> Result<(), Stop> {
    match module.bricks().get(usize::from(brick)) {
        Some(found) => show_most_of(&found.sort, out),
        None => Err(Stop::Line),
    }
}

fn show_most_of(sort: &BrickSort, out: &mut String) -> Result<(), Stop> {
    match sort {
        BrickSort::Proc(_, Some(procedure)) => {
            let most = procedure.most;
            Ok(write!(out, " most {most}")?)
        }
        _ => Err(Stop::Line),
    }
}
