//! Modes in front of bytes.

ghost use Rattle.std.specs.Prelude.{◌≡◌};
ghost use Rattle.rt_words.specs.Reading as formats;
ghost use Rattle.rt_words.specs.Reading.{Gives};
ghost use Rattle.rt_object.specs.Grammar.{is_no_label, is_proc, is_proc_code, is_value, is_value_code, may_be};
ghost use Rattle.rt_object.specs.Reading as reads;

use crate::steps::passing;
use rt_modes::{Mode, ModeFault, read_mode};
use rt_words::Stop;
use std::alloc::Global;

/// A mode over so many records.
fn read_front_mode(alloc: Global, records: u16, bytes: &[u8]) -> Result<(Mode, &[u8]), Stop>
    ensures { Gives (λ x. (x.0, x.1.now)) result (reads.mode_in records bytes.now) }
{
    match read_mode(alloc, bytes, 0, records) {
        Ok((mode, end)) => Ok((mode, &bytes[end..])),
        Err(ModeFault::BadMode { at }) => Err(Stop::Refused(bytes.len() - at)),
        Err(ModeFault::Memory) => Err(Stop::Memory),
    }
}

/// The mode of a field: a label only where labels may stand.
pub fn read_field_mode(
    alloc: Global,
    records: u16,
    labels: bool,
    bytes: &[u8],
) -> Result<(Mode, &[u8]), Stop>
    ensures { Gives (λ x. (x.0, x.1.now)) result (formats.passing (may_be labels) (reads.mode_in records) bytes.now) }
{
    let (mode, rest) = read_front_mode(alloc, records, bytes)?;
    let passes = labels || is_no_label(&mode);
    passing(passes, mode, rest, bytes.len())
}

/// The mode of a procedure. Another is refused at its code, whatever stands inside it.
pub fn read_proc_mode(alloc: Global, records: u16, bytes: &[u8]) -> Result<(Mode, &[u8]), Stop>
    ensures { Gives (λ x. (x.0, x.1.now)) result (reads.beginning is_proc_code (reads.mode_in records) bytes.now) }
{
    match bytes.split_first() {
        Some((&code, _)) if is_proc_code(code) => read_front_mode(alloc, records, bytes),
        _ => Err(Stop::Refused(bytes.len())),
    }
}

/// The mode of a value that stands alone. Another is refused at its code, whatever stands inside it.
pub fn read_value_mode(alloc: Global, records: u16, bytes: &[u8]) -> Result<(Mode, &[u8]), Stop>
    ensures { Gives (λ x. (x.0, x.1.now)) result (reads.beginning is_value_code (reads.mode_in records) bytes.now) }
{
    match bytes.split_first() {
        Some((&code, _)) if is_value_code(code) => read_front_mode(alloc, records, bytes),
        _ => Err(Stop::Refused(bytes.len())),
    }
}

/// Whether the code of a mode is that of PROC.
fn is_proc_code(code: u8) -> bool
    ensures { result ≡ is_proc_code code }
{
    code == 9
}

/// Whether the code of a mode is not that of ARRAY or LABEL.
fn is_value_code(code: u8) -> bool
    ensures { result ≡ is_value_code code }
{
    !(code == 6 || code == 8)
}

/// Whether a mode is no label.
pub fn is_no_label(mode: &Mode) -> bool
    ensures { result ≡ is_no_label mode.now }
{
    match mode {
        Mode::Label => false,
        _ => true,
    }
}

/// Whether a mode is that of a procedure.
pub fn is_proc(mode: &Mode) -> bool
    ensures { result ≡ is_proc mode.now }
{
    match mode {
        Mode::Proc(_, _) => true,
        _ => false,
    }
}

/// Whether a mode is that of a value that stands alone: no array and no label.
pub fn is_value(mode: &Mode) -> bool
    ensures { result ≡ is_value mode.now }
{
    match mode {
        Mode::Array(_, _) | Mode::Label => false,
        _ => true,
    }
}
