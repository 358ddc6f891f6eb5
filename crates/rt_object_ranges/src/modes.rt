//! Whether modes may stand.

ghost use Rattle.std.specs.Prelude.{◌≡◌, ◌↔◌, ◌<◌, ◌≤◌, All, IfSome, IsTrue, length};
ghost use Rattle.std.specs.List.{AllByRecursion};
ghost use Rattle.rt_modes.specs.Spelling.{IsLength, MayStand, OneMayStand, StandsInside};
ghost use Rattle.rt_modes.specs.declared.code.Place.TheVariants as place;
ghost use Rattle.rt_modes.specs.declared.mode.Mode.{out-Mode};
ghost use Rattle.rt_object.specs.Ranges.{IsProcMode, IsValueMode};
ghost use Rattle.rt_object_ranges.specs.Parts.{is_record};

use rt_modes::Mode;
use rt_object::{is_proc, is_value};
use rt_words::{Boxed, List};

/// How many modes may open in a mode.
const LEVELS: usize = 100;

/// How many REF may stand in a row.
const REFS: usize = 8;

/// How many parameters a procedure may have.
const PARAMETERS: usize = 32;

/// Whether a mode is that of a procedure, and may stand, over so many records.
pub fn may_be_proc(records: usize, mode: &Mode) -> bool
    ensures { IsTrue result ↔ (MayStand records mode.now × IsProcMode mode.now) }
{
    may_stand(records, mode) && is_proc(mode)
}

/// Whether a mode is that of a value that stands alone, and may stand, over so many records.
pub fn may_be_value(records: usize, mode: &Mode) -> bool
    ensures { IsTrue result ↔ (MayStand records mode.now × IsValueMode mode.now) }
{
    may_stand(records, mode) && is_value(mode)
}

/// Whether a mode may stand, over so many records.
pub fn may_stand(records: usize, mode: &Mode) -> bool
    ensures { IsTrue result ↔ MayStand records mode.now }
{
    match mode {
        Mode::Array(length, of) => {
            is_length(*length) && stands_inside(records, LEVELS, REFS, of.get())
        }
        Mode::Label => true,
        _ => opens_inside(records, LEVELS, REFS, mode),
    }
}

fn is_length(length: u16) -> bool
    ensures { IsTrue result ↔ IsLength length }
{
    1 <= length && length <= 8191
}

/// Whether a mode may stand inside another, where so many more modes may open in it, and so many more REF stand in the row.
#[cycle(standing)]
fn opens_inside(records: usize, levels: usize, refs: usize, mode: &Mode) -> bool
    ensures { IsTrue result ↔ OneMayStand records (StandsInside records levels) levels place.Inside refs (out-Mode mode.now) }
{
    match mode {
        Mode::Byte | Mode::Int | Mode::Frac => true,
        Mode::Ref(to) => {
            levels > 0 && refs > 0 && stands_inside(records, levels, refs - 1, to.get())
        }
        Mode::RefArray(of) => {
            levels > 0 && refs > 0 && stands_inside(records, levels, REFS, of.get())
        }
        Mode::Record(number) => usize::from(*number) < records,
        Mode::Array(_, _) | Mode::Label => false,
        Mode::Proc(parameters, answer) => opens_proc(records, levels, parameters, answer),
    }
}

/// Whether the mode of a procedure of these parameters and this result may stand, where so many more modes may open in it.
#[cycle(standing)]
fn opens_proc(
    records: usize,
    levels: usize,
    parameters: &List<Mode>,
    answer: &Option<Boxed<Mode>>,
) -> bool
    ensures { IsTrue result ↔ ((0 < levels) × (length parameters.now ≤ 32) × AllByRecursion (StandsInside records levels place.Passed 8) parameters.now × IfSome answer.now (StandsInside records levels place.Passed 8)) }
{
    if levels == 0 || parameters.len() > PARAMETERS {
        return false;
    }
    are_passed(records, levels, parameters.as_slice()) && may_be_answer(records, levels, answer)
}

/// Whether a mode in which fewer than so many modes open may stand inside another.
#[cycle(standing)]
fn stands_inside(records: usize, levels: usize, refs: usize, mode: &Mode) -> bool
    ensures { IsTrue result ↔ StandsInside records levels place.Inside refs mode.now }
{
    levels > 0 && opens_inside(records, levels - 1, refs, mode)
}

/// Whether a mode in which fewer than so many modes open may be that of a parameter or a result.
#[cycle(standing)]
fn is_passed(records: usize, levels: usize, mode: &Mode) -> bool
    ensures { IsTrue result ↔ StandsInside records levels place.Passed 8 mode.now }
{
    !is_record(mode) && stands_inside(records, levels, REFS, mode)
}

fn is_record(mode: &Mode) -> bool
    ensures { result ≡ is_record mode.now }
{
    match mode {
        Mode::Record(_) => true,
        _ => false,
    }
}

#[cycle(standing)]
fn are_passed(records: usize, levels: usize, modes: &[Mode]) -> bool
    ensures { IsTrue result ↔ All (StandsInside records levels place.Passed 8) modes.now }
{
    for mode in modes {
        if !is_passed(records, levels, mode) {
            return false;
        }
    }
    true
}

#[cycle(standing)]
fn may_be_answer(records: usize, levels: usize, answer: &Option<Boxed<Mode>>) -> bool
    ensures { IsTrue result ↔ IfSome answer.now (StandsInside records levels place.Passed 8) }
{
    match answer {
        Some(mode) => is_passed(records, levels, mode.get()),
        None => true,
    }
}
