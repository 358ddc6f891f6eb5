//! Tick texts.

use crate::texts::{MOST_BYTES, push_written, tell_fault};
use crate::told::{empty, tell_count, tell_number};
use rt_system::read_ticks;
use rt_words::{Memory, Text};
use std::alloc::Global;

/// The ticks of a text, or the line where it is refused.
pub fn describe_ticks(alloc: Global, written: &str, out: &mut Text) -> Result<(), Memory> {
    let mut text = empty(alloc);
    push_written(written, &mut text)?;
    tell_read(alloc, text.as_slice(), out)
}

fn tell_read(alloc: Global, text: &[u8], out: &mut Text) -> Result<(), Memory> {
    if text.len() > MOST_BYTES {
        return out.push_all(b"too long");
    }
    match read_ticks(alloc, text) {
        Ok(ticks) => tell_ticks(ticks.gaps(), out),
        Err(fault) => tell_fault(fault, out),
    }
}

/// The number of the ticks, and their gaps.
fn tell_ticks(gaps: &[u32], out: &mut Text) -> Result<(), Memory> {
    tell_number(gaps.len() as u64, out)?;
    out.push_all(b" ticks")?;
    let mut last = None;
    let mut count: u32 = 0;
    for gap in gaps {
        if last == Some(*gap) {
            count = count.saturating_add(1);
        } else {
            tell_row(last, count, out)?;
            last = Some(*gap);
            count = 1;
        }
    }
    tell_row(last, count, out)
}

/// A row of equal gaps.
fn tell_row(gap: Option<u32>, count: u32, out: &mut Text) -> Result<(), Memory> {
    let Some(gap) = gap else {
        return Ok(());
    };
    tell_count(" ", u64::from(gap), out)?;
    if count > 1 {
        tell_count(" times ", u64::from(count), out)?;
    }
    Ok(())
}
