//! Starts of items of data as texts.

use crate::stop::Stop;
use rt_tree::DataStart;
use std::fmt::Write;

/// Writes starts, one behind the other.
#[cycle(starts)]
pub fn show_starts(out: &mut String, starts: &[DataStart]) -> Result<(), Stop> {
    for start in starts {
        show_start(out, start)?;
    }
    Ok(())
}

#[cycle(starts)]
fn show_start(out: &mut String, start: &DataStart) -> Result<(), Stop> {
    match start {
        DataStart::List(all) => {
            out.push_str(" (")?;
            show_starts(out, all.as_slice())?;
            Ok(out.push_str(" )")?)
        }
        _ => show_single(out, start),
    }
}

// A start that holds no other.
fn show_single(out: &mut String, start: &DataStart) -> Result<(), Stop> {
    match start {
        DataStart::Number(n) => Ok(write!(out, " {n}")?),
        DataStart::Text(n) => Ok(write!(out, " text {n}")?),
        DataStart::Proc(b) => Ok(write!(out, " proc {b}")?),
        DataStart::Place(b, j, path) => {
            write!(out, " place {b}.{j}")?;
            show_path(out, path.as_slice())
        }
        DataStart::List(_) => Ok(()),
    }
}

fn show_path(out: &mut String, path: &[u16]) -> Result<(), Stop> {
    for step in path {
        write!(out, ".{step}")?;
    }
    Ok(())
}
