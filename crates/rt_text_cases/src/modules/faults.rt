//! Faults of a text, as they are told.

use crate::stop::Stop;
use rt_check::ModuleFault;
use rt_check_faults::CheckFault;
use rt_items::items;
use std::alloc::Global;
use std::fmt::Write;

/// Writes a fault: of the checker's ones the number and the line, and the form of what is left out.
pub fn tell(fault: &ModuleFault, out: &mut String) -> Result<(), Stop> {
    match fault {
        ModuleFault::Check(found) => tell_line(*found, out),
        _ => Ok(write!(out, " {fault}")?),
    }
}

fn tell_line(fault: CheckFault, out: &mut String) -> Result<(), Stop> {
    let (number, line) = (fault.number(), fault.at().map_or(0, |at| at.line));
    write!(out, " {number} line {line}")?;
    match fault {
        CheckFault::LeftOut { form, .. } => Ok(write!(out, " form {form}")?),
        _ => Ok(()),
    }
}

/// Writes a fault: of the checker's ones the number, and the number of the item, from 0, in the piece that stands in place of the
/// `@` of this text.
pub fn tell_in_piece(
    alloc: Global,
    fault: &ModuleFault,
    frame: &str,
    out: &mut String,
) -> Result<(), Stop> {
    match fault {
        ModuleFault::Check(found) => {
            let (front, _) = frame.split_once('@').unwrap_or(("", ""));
            tell_item(*found, count_of(alloc, front), out)
        }
        _ => tell(fault, out),
    }
}

// How many items a text has; 0 where it has a fault.
fn count_of(alloc: Global, text: &str) -> usize {
    if text.len() > 4194304 {
        return 0;
    }
    match items(alloc, text.as_bytes()) {
        Ok(all) => all.len(),
        Err(_) => 0,
    }
}

fn tell_item(fault: CheckFault, before: usize, out: &mut String) -> Result<(), Stop> {
    let number = fault.number();
    match usize::from(fault.item()).checked_sub(before) {
        Some(item) => Ok(write!(out, " {number} at {item}")?),
        None => Ok(write!(out, " {number} in front")?),
    }
}
