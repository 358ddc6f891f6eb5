//! The parameters and the result of a procedure.

ghost use Rattle.std.specs.Prelude.{◌≡◌, IfOk, OnOk};
ghost use Rattle.rt_check_bodies.specs.Procedures as spec;
ghost use Rattle.rt_check_bodies.specs.Parts.{Gave};

use crate::answer::Answer;
use crate::{Names, Tally, declare_name};
use rt_bricks::Fields;
use rt_check_faults::CheckFault;
use rt_exprs::{Level, Meaning};
use rt_grammar::{At, Ident};
use rt_modes::Mode;
use rt_syntax_exprs::WrittenMode;
use rt_tree_nodes::{Local as Made, copy_mode};
use rt_words::Memory;
use std::alloc::Global;

/// The parameters of a procedure; none is seen in the modes of the others.
pub fn add_parameters<'a>(
    alloc: Global,
    names: &Names<'a>,
    level: &mut Level<'a>,
    tally: &mut Tally,
    fields: &'a [Fields],
) -> Result<(), Memory>
    ensures { OnOk result (Gave level.new tally.new (spec.parameters names.now level.old fields.now tally.old)) }
{
    for group in fields {
        let mode = tally.mode_or(names.mode(alloc, group.at, &group.mode))?;
        add_group(alloc, level, tally, &mode, group.names.as_slice())?;
    }
    Ok(())
}

/// The parameters that are declared with a mode.
fn add_group<'a>(
    alloc: Global,
    level: &mut Level<'a>,
    tally: &mut Tally,
    mode: &Result<Mode, CheckFault>,
    names: &'a [Ident],
) -> Result<(), Memory>
    ensures { OnOk result (Gave level.new tally.new (spec.group mode.now level.old names.now tally.old)) }
{
    for name in names {
        add_judged(alloc, level, tally, mode, name)?;
    }
    Ok(())
}

/// A parameter; where its mode is unfit it can't be known.
fn add_judged<'a>(
    alloc: Global,
    level: &mut Level<'a>,
    tally: &mut Tally,
    mode: &Result<Mode, CheckFault>,
    name: &'a Ident,
) -> Result<(), Memory>
    ensures { OnOk result (Gave level.new tally.new (spec.named level.old name.now mode.now tally.old)) }
{
    match mode {
        Ok(mode) => add_parameter(alloc, level, tally, mode, name),
        Err(_) => declare_name(level, tally, name, Meaning::Unknown),
    }
}

/// A parameter of a mode.
fn add_parameter<'a>(
    alloc: Global,
    level: &mut Level<'a>,
    tally: &mut Tally,
    mode: &Mode,
    name: &'a Ident,
) -> Result<(), Memory>
    ensures { OnOk result (Gave level.new tally.new (spec.parameter level.old name.now mode.now tally.old)) }
{
    let meaning = Meaning::Local(tally.next_local()?, copy_mode(alloc, mode)?);
    declare_name(level, tally, name, meaning)?;
    tally.add_local(Made::Variable(copy_mode(alloc, mode)?))
}

/// The result of a procedure that stands at `at`.
pub fn answer_of(
    alloc: Global,
    names: &Names<'_>,
    tally: &mut Tally,
    at: At,
    written: &Option<WrittenMode>,
) -> Result<Answer, Memory>
    ensures { IfOk result (λ r. Gave r tally.new (spec.answer_in names.now at written.now tally.old)) }
{
    match written {
        None => Ok(Answer::Nothing),
        Some(written) => match tally.mode_or(names.mode(alloc, at, written))? {
            Ok(mode) => Ok(Answer::Wanted(mode)),
            Err(_) => Ok(Answer::Unknown),
        },
    }
}
