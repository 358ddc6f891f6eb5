//! What a line of cases gives.

use crate::case::Case;
use crate::questions::answer;
use crate::stop::Stop;
use std::alloc::Global;
use std::fmt::Write;

/// Writes what a line gives, which goes on with the case or asks for something. A line that can't be read is written so.
pub fn describe(alloc: Global, case: &mut Case, line: &str, out: &mut String) -> Result<(), Stop> {
    match go_on(alloc, case, line, out) {
        Err(Stop::Line) => {
            out.clear();
            Ok(writeln!(out, "{line} => can't be read")?)
        }
        done => done,
    }
}

fn go_on(alloc: Global, case: &mut Case, line: &str, out: &mut String) -> Result<(), Stop> {
    if case.is_open {
        case.line(alloc, line)
    } else {
        obey(alloc, case, line, out)
    }
}

fn obey(alloc: Global, case: &mut Case, line: &str, out: &mut String) -> Result<(), Stop> {
    let (word, rest) = line.split_once(' ').unwrap_or((line, ""));
    match word {
        "" | "#" => Ok(()),
        "CASE" => {
            *case = Case::new(alloc);
            Ok(writeln!(out, "{line}")?)
        }
        "TEXT" => {
            case.is_open = true;
            Ok(())
        }
        "LIBRARY" => case.library(alloc),
        "TASK" => case.task(alloc, rest),
        "INPUT" => case.input(alloc, rest),
        _ => {
            write!(out, "{line} =>")?;
            answer(alloc, case, word, rest, out)?;
            Ok(out.push('\n')?)
        }
    }
}
