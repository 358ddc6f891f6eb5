//! Which mode is written.

ghost use Rattle.std.specs.Prelude.{◌≡◌, [], List, Option, map, option_map, IfOk, IfErr};
ghost use Rattle.std.specs.Option.{option_copied};
ghost use Rattle.rt_modes.specs.declared.mode.Mode.{out-Mode};
ghost use Rattle.rt_check_faults.specs.Outcomes.{UnlessMemory, IsLeast, IsAnswered};
ghost use Rattle.rt_exprs.specs.Names.{find_in};
ghost use Rattle.rt_check_declared.specs.Verdicts.{Verdict, fit, Stands, Answers, all_from};
ghost use Rattle.rt_check_declared.specs.Written as spec;

use crate::join::{after, both};
use crate::site::Site;
use rt_check_faults::CheckFault;
use rt_exprs::{Level, Meaning, find_name};
use rt_grammar::At;
use rt_modes::Mode;
use rt_syntax_exprs::{BasicMode, WrittenMode};
use rt_words::{Boxed, List};
use std::alloc::Global;

/// A mode that is written without a fault.
#[derive(Drop)]
pub enum Resolved {
    Mode(Mode),
    /// An array whose length isn't 1 to 8,191: each name that is declared with it has a fault.
    BadLength,
}

/// The mode that is written at a place, where names stand for what the levels say, innermost first.
///
/// # Errors
///
/// The fault of the least item, and of those of that item the one of least number; or want of memory.
pub fn resolve(
    alloc: Global,
    written: &WrittenMode,
    site: Site,
    levels: &[Level<'_>],
) -> Result<Resolved, CheckFault>
    // What is answered is written.
    ensures fits { IfOk result (λ r. spec.written (find_in levels.now) written.now site ≡ fit r) }
    // What is written is answered, unless memory runs out.
    ensures only { (r : Resolved) → spec.written (find_in levels.now) written.now site ≡ fit r → IsAnswered r result }
    // A fault stands, and counts of all that stand.
    ensures fault { IfErr result (λ g. UnlessMemory g (IsLeast (Stands (spec.written (find_in levels.now) written.now site)) g)) }
    // It is the mode that is written, or the fault that counts.
    ensures value { Answers (λ r. r) result (spec.written (find_in levels.now) written.now site) }
{
    resolve_counted(alloc, levels, written, site)
}

fn resolve_counted(
    alloc: Global,
    levels: &[Level<'_>],
    written: &WrittenMode,
    site: Site,
) -> Result<Resolved, CheckFault>
    ensures { Answers (λ r. r) result (spec.written (find_in levels.now) written.now site) }
{
    let mode = judge(alloc, levels, written, site)?;
    if length_fits(&mode) {
        Ok(Resolved::Mode(mode))
    } else {
        Ok(Resolved::BadLength)
    }
}

#[cycle(judge)]
fn judge(
    alloc: Global,
    levels: &[Level<'_>],
    written: &WrittenMode,
    site: Site,
) -> Result<Mode, CheckFault>
    ensures { Answers (λ m. m) result (spec.judged (find_in levels.now) written.now site) }
{
    match written {
        WrittenMode::Name(name) => named(name.at, find_name(levels, name.name.as_slice()), site),
        WrittenMode::Basic(basic, at) => basic_mode(*at, *basic),
        WrittenMode::Array(length, of, at) => {
            let of = judge(alloc, levels, of.get(), Site::Inside)?;
            array_at(alloc, *at, *length, of, site)
        }
        WrittenMode::Ref(to, _) => {
            let to = judge(alloc, levels, to.get(), Site::Inside)?;
            Ok(Mode::Ref(Boxed::new(alloc, to)?))
        }
        WrittenMode::RefArray(of, _) => {
            let of = judge(alloc, levels, of.get(), Site::Inside)?;
            Ok(Mode::RefArray(Boxed::new(alloc, of)?))
        }
        WrittenMode::Proc(parameters, answer, _) => {
            let parameters = judge_all(alloc, levels, parameters.as_slice());
            let answer = judge_answer(alloc, levels, answer);
            procedure(parameters, answer)
        }
    }
}

/// The mode of a procedure, by those of its parameters and of its result.
fn procedure(
    parameters: Result<List<Mode>, CheckFault>,
    answer: Result<Option<Boxed<Mode>>, CheckFault>,
) -> Result<Mode, CheckFault>
    ensures { (ps : Verdict (List Mode)) → (r : Verdict (Option Mode)) → Answers (λ x. x) parameters ps → Answers (λ x. x) answer r → Answers (λ m. m) result (spec.procedure ps r) }
{
    let (parameters, answer) = both(parameters, answer)?;
    Ok(Mode::Proc(parameters, answer))
}

#[cycle(judge)]
fn judge_all(
    alloc: Global,
    levels: &[Level<'_>],
    written: &[WrittenMode],
) -> Result<List<Mode>, CheckFault>
    ensures { Answers (λ ms. ms) result (all_from (fit []) (map spec.argument (map (spec.judged (find_in levels.now)) written.now))) }
{
    let mut modes = Ok(List::new(alloc, written.len())?);
    for parameter in written {
        let next = judge(alloc, levels, parameter, Site::Argument);
        modes = after(modes, next);
    }
    modes
}

#[cycle(judge)]
fn judge_answer(
    alloc: Global,
    levels: &[Level<'_>],
    written: &Option<Boxed<WrittenMode>>,
) -> Result<Option<Boxed<Mode>>, CheckFault>
    ensures { Answers (λ m. m) result (spec.optional (option_map (spec.judged (find_in levels.now)) written.now)) }
{
    match written {
        Some(written) => {
            let answer = judge(alloc, levels, written.get(), Site::Argument)?;
            Ok(Some(Boxed::new(alloc, answer)?))
        }
        None => Ok(None),
    }
}

/// What a name is as a mode at a place.
fn named(at: At, meaning: Option<&Meaning>, site: Site) -> Result<Mode, CheckFault>
    ensures { Answers (λ m. m) result (spec.named at (option_copied meaning.entry) site) }
{
    match meaning {
        None => Err(CheckFault::UnknownName(at)),
        Some(meaning) => match meaning {
            Meaning::Mode(number) => record_at(at, *number, site),
            _ => Err(CheckFault::UnknownName(at)),
        },
    }
}

/// A record at a place.
fn record_at(at: At, number: u16, site: Site) -> Result<Mode, CheckFault>
    ensures { Answers (λ m. m) result (spec.record_at at number site) }
{
    match site {
        Site::Item | Site::Inside => Ok(Mode::Record(number)),
        Site::Variable | Site::Argument => Err(CheckFault::LeftOut { form: 3, at }),
    }
}

fn basic_mode(at: At, basic: BasicMode) -> Result<Mode, CheckFault>
    ensures { Answers (λ m. m) result (spec.basic at basic) }
{
    match basic {
        BasicMode::Byte => Ok(Mode::Byte),
        BasicMode::Int => Ok(Mode::Int),
        BasicMode::Frac => Ok(Mode::Frac),
        BasicMode::Label => Err(CheckFault::LeftOut { form: 1, at }),
    }
}

/// An array at a place.
fn array_at(alloc: Global, at: At, length: u16, of: Mode, site: Site) -> Result<Mode, CheckFault>
    ensures { Answers (λ m. m) result (spec.array_at at length of site) }
{
    match site {
        Site::Item => Ok(Mode::Array(length, Boxed::new(alloc, of)?)),
        Site::Variable => Err(CheckFault::LeftOut { form: 3, at }),
        Site::Inside | Site::Argument => Err(CheckFault::LeftOut { form: 4, at }),
    }
}

/// Whether a mode is no array, or an array of 1 to 8,191 elements.
fn length_fits(mode: &Mode) -> bool
    ensures { result ≡ spec.length_fits (out-Mode mode.now) }
{
    match mode {
        Mode::Array(length, _) => 1 <= *length && *length <= 8191,
        _ => true,
    }
}
