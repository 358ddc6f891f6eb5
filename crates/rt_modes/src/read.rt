//! A mode of an object, read from its bytes.

ghost use Rattle.std.specs.Prelude.{◌≡◌, ◌≤◌, ◌-◌, ◌⊎◌, [], length, IfOk, IfErr, Ok, Err};
ghost use Rattle.rt_modes.specs.Reading as reads;
ghost use Rattle.rt_words.specs.Reading.{Gives};
ghost use Rattle.rt_words.specs.Reading as formats;
ghost use Rattle.rt_modes.specs.Spelling.{StandsAt, RefusedAt, Faults};
ghost use Rattle.rt_modes.specs.declared.mode.Mode.{Mode};
ghost use Rattle.rt_modes.specs.declared.fault.ModeFault.TheVariants as fault;

use crate::code::{Code, Place};
use crate::fault::ModeFault;
use crate::fields::{code, count, record};
use crate::mode::Mode;
use rt_words::{Boxed, List, Memory, Stop, read_word_within};
use std::alloc::Global;

/// How many modes may open in one another.
const LEVELS: usize = 100;

/// How many REF may stand in a row; a REF ARRAY is the last of its row.
const REFS: usize = 8;

/// Reads the mode that stands at `at`, over so many records, and answers it with the place behind it. What
/// follows it isn't looked at. Where none stands there, the fault has the place of the first field that is
/// cut or out of range.
pub fn read_mode(
    alloc: Global,
    bytes: &[u8],
    at: usize,
    records: u16,
) -> Result<(Mode, usize), ModeFault>
    requires { at ≤ length bytes.now }
    ensures found { IfOk result (λ x. StandsAt records bytes.now at x.0 x.1) }
    ensures only { (m : Mode) (p : _) → StandsAt records bytes.now at m p → (result ≡ Ok (m, p)) ⊎ (result ≡ Err fault.Memory) }
    ensures refused { IfErr result (Faults records bytes.now at) }
    ensures place { (p : _) → RefusedAt records bytes.now at p → (result ≡ Err (fault.BadMode p)) ⊎ (result ≡ Err fault.Memory) }
{
    match mode_of(alloc, records, LEVELS, Place::Alone, REFS, &bytes[at..]) {
        Ok((mode, rest)) => Ok((mode, bytes.len() - rest.len())),
        Err(Stop::Refused(left)) => Err(ModeFault::BadMode {
            at: bytes.len() - left,
        }),
        Err(Stop::Memory) => Err(ModeFault::Memory),
    }
}

/// A mode that stands in one of so many modes.
#[cycle(mode)]
#[tactic(auto, unfolding(crate::specs::Reading::inside))]
fn inside(
    alloc: Global,
    records: u16,
    levels: usize,
    place: Place,
    refs: usize,
    bytes: &[u8],
) -> Result<(Mode, &[u8]), Stop>
    ensures { Gives (λ x. (x.0, x.1.now)) result (reads.inside records levels place refs bytes.now) }
{
    if levels == 0 {
        return Err(Stop::Refused(bytes.len()));
    }
    mode_of(alloc, records, levels - 1, place, refs, bytes)
}

/// A mode, where so many more modes may open, and so many more REF stand in the row.
#[cycle(mode)]
#[tactic(auto, unfolding(crate::specs::Reading::mode_of))]
fn mode_of(
    alloc: Global,
    records: u16,
    levels: usize,
    place: Place,
    refs: usize,
    bytes: &[u8],
) -> Result<(Mode, &[u8]), Stop>
    ensures { Gives (λ x. (x.0, x.1.now)) result (reads.mode_of records (reads.inside records levels) levels place refs bytes.now) }
{
    let (code, rest) = code(place, levels, refs, bytes)?;
    behind(alloc, records, levels, refs, code, rest)
}

/// What stands behind the code of a mode.
#[cycle(mode)]
#[tactic(auto, unfolding(crate::specs::Reading::behind))]
fn behind(
    alloc: Global,
    records: u16,
    levels: usize,
    refs: usize,
    code: Code,
    bytes: &[u8],
) -> Result<(Mode, &[u8]), Stop>
    ensures { Gives (λ x. (x.0, x.1.now)) result (reads.behind records (reads.inside records levels) refs code bytes.now) }
{
    match code {
        Code::Byte => Ok((Mode::Byte, bytes)),
        Code::Int => Ok((Mode::Int, bytes)),
        Code::Frac => Ok((Mode::Frac, bytes)),
        Code::Label => Ok((Mode::Label, bytes)),
        Code::Ref => {
            let (of, rest) = inside(
                alloc,
                records,
                levels,
                Place::Inside,
                refs.saturating_sub(1),
                bytes,
            )?;
            Ok((Mode::Ref(Boxed::new(alloc, of)?), rest))
        }
        Code::RefArray => {
            let (of, rest) = inside(alloc, records, levels, Place::Inside, REFS, bytes)?;
            Ok((Mode::RefArray(Boxed::new(alloc, of)?), rest))
        }
        Code::Array => array(alloc, records, levels, bytes),
        Code::Record => {
            let (number, rest) = record(records, bytes)?;
            Ok((Mode::Record(number), rest))
        }
        Code::Proc => procedure(alloc, records, levels, bytes),
    }
}

/// The length of an array, and the mode of an element.
#[cycle(mode)]
#[tactic(auto)]
fn array(alloc: Global, records: u16, levels: usize, bytes: &[u8]) -> Result<(Mode, &[u8]), Stop>
    ensures { Gives (λ x. (x.0, x.1.now)) result (reads.array (reads.inside records levels) bytes.now) }
{
    let (length, rest) = read_word_within(1, 8191, bytes)?;
    let (of, rest) = inside(alloc, records, levels, Place::Inside, REFS, rest)?;
    Ok((Mode::Array(length, Boxed::new(alloc, of)?), rest))
}

/// The parameters' number and modes, and the result's mode.
#[cycle(mode)]
#[tactic(auto)]
fn procedure(
    alloc: Global,
    records: u16,
    levels: usize,
    bytes: &[u8],
) -> Result<(Mode, &[u8]), Stop>
    ensures { Gives (λ x. (x.0, x.1.now)) result (reads.procedure (reads.inside records levels) bytes.now) }
{
    let (count, rest) = count(bytes)?;
    let (found, rest) = parameters(alloc, records, levels, count, rest)?;
    let (answer, rest) = result_of(alloc, records, levels, rest)?;
    Ok((proc_of(alloc, found, answer)?, rest))
}

fn proc_of(alloc: Global, parameters: List<Mode>, answer: Option<Mode>) -> Result<Mode, Memory>
    ensures { IfOk result (λ m. m ≡ Mode.Proc parameters answer) }
{
    match answer {
        Some(mode) => Ok(Mode::Proc(parameters, Some(Boxed::new(alloc, mode)?))),
        None => Ok(Mode::Proc(parameters, None)),
    }
}

/// So many modes of parameters.
#[cycle(mode)]
#[tactic(auto, unfolding(rt_words::specs::Reading::each))]
fn parameters(
    alloc: Global,
    records: u16,
    levels: usize,
    count: u8,
    bytes: &[u8],
) -> Result<(List<Mode>, &[u8]), Stop>
    ensures { Gives (λ x. (x.0, x.1.now)) result (formats.times (reads.inside records levels Place.Passed 8) count [] bytes.now) }
{
    let mut found = List::new(alloc, usize::from(count))?;
    let mut rest = bytes;
    for _turn in 0..count {
        let (parameter, after) = inside(alloc, records, levels, Place::Passed, REFS, rest)?;
        found.push(parameter)?;
        rest = after;
    }
    Ok((found, rest))
}

/// The result's mode, or 0 where there is none.
#[cycle(mode)]
#[tactic(auto)]
fn result_of(
    alloc: Global,
    records: u16,
    levels: usize,
    bytes: &[u8],
) -> Result<(Option<Mode>, &[u8]), Stop>
    ensures { Gives (λ x. (x.0, x.1.now)) result (formats.or_zero (reads.inside records levels Place.Passed 8) bytes.now) }
{
    match bytes.split_first() {
        Some((0, rest)) => Ok((None, rest)),
        _ => {
            let (answer, rest) = inside(alloc, records, levels, Place::Passed, REFS, bytes)?;
            Ok((Some(answer), rest))
        }
    }
}
