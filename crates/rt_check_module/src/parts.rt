//! What is wanted of the parts of a list.

ghost use Rattle.std.specs.Prelude.{◌≡◌, drop, map, slice_get, take};
ghost use Rattle.rt_modes.specs.declared.mode.Mode.{out-Mode};
ghost use Rattle.rt_check_module.specs.Starts as spec;
ghost use Rattle.rt_check_module.specs.Starts.{wanted_of};

use rt_bricks::{Parenthesized, Start};
use rt_modes::{Field, Mode, ModeTable};

/// What is wanted of the parts of a list.
#[derive(Clone, Copy)]
pub enum Wanted<'a> {
    /// Elements of this mode, as many as stand there.
    Elements(&'a Mode),
    /// These fields, as many as stand there.
    Fields(&'a [Field]),
    Nothing,
}

/// How many copies of a start are written.
pub fn copies(start: &Start) -> usize
    ensures { result ≡ spec.copies start.now }
{
    match start {
        Start::Number(_, _, copies, _) => number_of(copies),
        Start::List(_, copies, _) => number_of(copies),
        _ => 1,
    }
}

fn number_of(copies: &Option<Parenthesized>) -> usize
    ensures { result ≡ spec.copies_by copies.now }
{
    match copies {
        Some(copies) => usize::from(copies.number),
        None => 1,
    }
}

/// Whether the copies of all parts are together so many, and none is written in no copy.
fn covers(parts: &[Start], count: usize) -> bool
    ensures { result ≡ spec.covers count (map spec.copies parts.now) }
{
    let mut left = count;
    for part in parts {
        let copies = copies(part);
        if copies == 0 || copies > left {
            return false;
        }
        left -= copies;
    }
    left == 0
}

/// What is wanted of the parts of a list where this mode is wanted.
pub fn want<'a>(modes: &'a ModeTable, parts: &[Start], mode: &'a Mode) -> Wanted<'a>
    ensures { wanted_of result ≡ spec.wanted modes.now.records (map spec.copies parts.now) (out-Mode mode.now) }
{
    match mode {
        Mode::Array(length, of) => {
            if covers(parts, usize::from(*length)) {
                Wanted::Elements(of.get())
            } else {
                Wanted::Nothing
            }
        }
        Mode::Record(number) => wanted_fields(modes, parts, *number),
        _ => Wanted::Nothing,
    }
}

fn wanted_fields<'a>(modes: &'a ModeTable, parts: &[Start], number: u16) -> Wanted<'a>
    ensures { wanted_of result ≡ spec.wanted_fields (map spec.copies parts.now) (slice_get modes.now.records number) }
{
    match modes.records.get(usize::from(number)) {
        None => Wanted::Nothing,
        Some(definition) => {
            let fields = definition.fields.as_slice();
            if covers(parts, fields.len()) {
                Wanted::Fields(fields)
            } else {
                Wanted::Nothing
            }
        }
    }
}

/// The next fields, as many as the copies of a part; and those behind them.
pub fn next_fields<'a>(part: &Start, fields: &'a [Field]) -> (&'a [Field], &'a [Field])
    ensures these { result.0.now ≡ take (spec.copies part.now) fields.now }
    ensures rest { result.1.now ≡ drop (spec.copies part.now) fields.now }
{
    let count = copies(part);
    if count < fields.len() {
        (&fields[..count], &fields[count..])
    } else {
        (fields, &fields[fields.len()..])
    }
}
