//! What a run has come to.

use crate::flat::fault_name;
use crate::numbers::{tell_number, tell_octal};
use crate::queues::tell_queues;
use pdp_core::Kind;
use rt_run::{End, Run};
use rt_words::{Memory, Text};

/// So many ticks are shown one by one.
const FEW_TICKS: usize = 20;

/// Appends how a run ended.
pub fn tell_end(end: End, out: &mut Text) -> Result<(), Memory> {
    match end {
        End::Ended => out.push_all(b"Ended; "),
        End::Limit => out.push_all(b"Limit; "),
        End::Stalled => out.push_all(b"Stalled; "),
        End::Fault(task, kind, at) => tell_fault(task, kind, at, out),
        End::ReadFault => out.push_all(b"ReadFault; "),
        End::WriteFault => out.push_all(b"WriteFault; "),
    }
}

fn tell_fault(task: u8, kind: Kind, at: u16, out: &mut Text) -> Result<(), Memory> {
    tell_number("Fault of ", u64::from(task), out)?;
    out.push(b' ')?;
    out.push_all(fault_name(kind).as_bytes())?;
    out.push(b' ')?;
    tell_octal(at, out)?;
    out.push_all(b"; ")
}

/// Appends the counts, the ticks that were taken, and the queues.
pub fn tell_run(run: &Run, out: &mut Text) -> Result<(), Memory> {
    tell_number("instructions ", run.instructions(), out)?;
    tell_number(", steps ", run.steps(), out)?;
    tell_ticks(run.placements(), out)?;
    if let Some(task) = run.supervisor().running() {
        tell_number("; runs ", u64::from(task), out)?;
    }
    tell_queues(run.supervisor(), out)
}

fn tell_ticks(placements: &[u64], out: &mut Text) -> Result<(), Memory> {
    let Some(last) = placements.last() else {
        return Ok(());
    };
    if placements.len() > FEW_TICKS {
        tell_number("; ", placements.len() as u64, out)?;
        return tell_number(" ticks, the last at ", *last, out);
    }
    out.push_all(b"; ticks")?;
    for placement in placements {
        tell_number(" ", *placement, out)?;
    }
    Ok(())
}

/// Appends bytes: those of printed ASCII as they are, and others as `{CODE}`.
pub fn tell_bytes(bytes: &[u8], out: &mut Text) -> Result<(), Memory> {
    for byte in bytes {
        if (32..127).contains(byte) {
            out.push(*byte)?;
        } else {
            tell_number("{", u64::from(*byte), out)?;
            out.push(b'}')?;
        }
    }
    Ok(())
}
