//! What was put out and how tasks ended, as texts.

use crate::expansion::write_bytes;
use crate::stop::Stop;
use rt_rules::State;
use std::fmt::Write;

/// Writes the output, and how the tasks ended.
pub fn show_outcome(bytes: &[u8], ends: &[State], out: &mut String) -> Result<(), Stop> {
    out.push_str(" <")?;
    write_bytes(out, bytes)?;
    out.push('>')?;
    for end in ends {
        write!(out, " {end:?}")?;
    }
    Ok(())
}
