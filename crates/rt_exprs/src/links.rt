//! Where links lead: fields, elements, calls, and the place that VAL names.

ghost use Rattle.std.specs.Prelude.{◌≡◌, List, IfOk, option_map};
ghost use Rattle.std.specs.Option.{option_copied};
ghost use Rattle.rt_modes.specs.declared.mode.Mode.{out-Mode};
ghost use Rattle.rt_tree_nodes.specs.declared.value.Callee.TheVariants as callees;
ghost use Rattle.rt_tree_nodes.specs.declared.value.Value.TheVariants as values;
ghost use Rattle.rt_exprs.specs.Judging as spec;
ghost use Rattle.rt_exprs.specs.Operands.{Judged, seen, judged_of};
ghost use Rattle.rt_check_faults.specs.Outcomes.{Outcome, Gives};

use crate::{
    IndexedRecords, Meant, Operand, Standing, field_named, lent, record_of, ref_of, small_number,
    through,
};
use rt_check_faults::{CheckFault, or_other};
use rt_grammar::{At, Ident};
use rt_modes::Mode;
use rt_tree::{Callee, Place, Value};
use rt_words::{Boxed, List, Memory};
use std::alloc::Global;

/// The number of the record to which a REF leads.
fn record_behind(mode: Option<&Mode>) -> Option<u16>
    ensures { result ≡ spec.record_behind (option_copied mode.entry) }
{
    match mode {
        Some(mode) => record_of(mode),
        None => None,
    }
}

/// The record that an operand is, or to which its REF leads: its place, its number, and whether its
/// reference may be taken.
fn record_in(alloc: Global, is: Meant<'_>) -> Result<Option<(Place, u16, Standing)>, Memory>
    ensures { IfOk result (λ r. r ≡ spec.record_in (seen is.entry)) }
{
    match is {
        Meant::Place(place, mode, standing) => match record_of(mode) {
            Some(number) => Ok(Some((place, number, standing))),
            None => match record_behind(ref_of(mode)) {
                Some(number) => Ok(Some((through(alloc, place)?, number, Standing::Shared))),
                None => Ok(None),
            },
        },
        Meant::Result(value, mode) => match record_behind(ref_of(mode)) {
            Some(number) => {
                let place = Place::Through(Boxed::new(alloc, value)?);
                Ok(Some((place, number, Standing::Shared)))
            }
            None => Ok(None),
        },
        _ => Ok(None),
    }
}

/// What `.` and a name select.
pub fn dot<'a>(
    alloc: Global,
    modes: &'a IndexedRecords,
    name: &Ident,
    at: At,
    operand: Result<Operand<'a>, CheckFault>,
) -> Result<Operand<'a>, CheckFault>
    ensures { (t : Outcome Judged) → Gives judged_of operand.entry t → Gives judged_of result (spec.dot_after modes.now.records name.now at t) }
{
    let Operand {
        at: begins,
        is,
        known,
    } = operand?;
    match record_in(alloc, is)? {
        None => Err(CheckFault::WrongMode(at)),
        Some((place, record, standing)) => match field_named(modes, record, name.name.as_slice()) {
            None => Err(CheckFault::UnknownName(name.at)),
            Some((_, Mode::Label)) => Err(CheckFault::Unknown),
            Some((field, mode)) => {
                let place = Place::Field(Boxed::new(alloc, place)?, small_number(field)?);
                Ok(Operand {
                    at: begins,
                    is: Meant::Place(place, mode, standing),
                    known,
                })
            }
        },
    }
}

/// What parentheses do behind an operand.
#[derive(Drop)]
pub enum Reach<'a> {
    /// They select an element of the array at this place; the mode of an element.
    Rows(Place, &'a Mode, Standing),
    /// They call; the modes of the parameters and of the result.
    Calls(Callee, &'a [Mode], Option<&'a Mode>),
    /// They don't fit.
    Neither,
}

/// What parentheses do behind an operand.
pub fn reached<'a>(alloc: Global, is: Meant<'a>) -> Result<Reach<'a>, Memory>
    ensures { IfOk result (λ r. spec.reach_of r ≡ spec.reach (seen is.entry)) }
{
    match is {
        Meant::Brick(brick, mode) => Ok(proc_reach(mode, Callee::Brick(brick))),
        Meant::Place(place, mode, standing) => place_reach(alloc, mode, place, standing),
        Meant::Result(value, mode) => result_reach(alloc, mode, value),
        _ => Ok(Reach::Neither),
    }
}

fn proc_reach(mode: &Mode, callee: Callee) -> Reach<'_>
    ensures { spec.reach_of result ≡ spec.proc_reach (out-Mode mode.now) callee }
{
    match mode {
        Mode::Proc(parameters, answer) => {
            Reach::Calls(callee, parameters.as_slice(), lent(answer))
        }
        _ => Reach::Neither,
    }
}

fn place_reach(
    alloc: Global,
    mode: &Mode,
    place: Place,
    standing: Standing,
) -> Result<Reach<'_>, Memory>
    ensures { IfOk result (λ r. spec.reach_of r ≡ spec.place_reach (out-Mode mode.now) place standing) }
{
    match mode {
        Mode::Array(_, of) => Ok(Reach::Rows(place, of.get(), standing)),
        Mode::RefArray(of) => Ok(Reach::Rows(through(alloc, place)?, of.get(), Standing::Shared)),
        _ => {
            let callee = read_callee(alloc, place)?;
            Ok(proc_reach(mode, callee))
        }
    }
}

/// The procedure that is read at a place.
fn read_callee(alloc: Global, place: Place) -> Result<Callee, Memory>
    ensures { IfOk result (λ c. c ≡ callees.Through (values.Read place)) }
{
    let read = Value::Read(Boxed::new(alloc, place)?);
    Ok(Callee::Through(Boxed::new(alloc, read)?))
}

fn result_reach(alloc: Global, mode: &Mode, value: Value) -> Result<Reach<'_>, Memory>
    ensures { IfOk result (λ r. spec.reach_of r ≡ spec.result_reach (out-Mode mode.now) value) }
{
    match mode {
        Mode::RefArray(of) => {
            let place = Place::Through(Boxed::new(alloc, value)?);
            Ok(Reach::Rows(place, of.get(), Standing::Shared))
        }
        _ => {
            let callee = Callee::Through(Boxed::new(alloc, value)?);
            Ok(proc_reach(mode, callee))
        }
    }
}

/// The element that a subscript selects.
pub fn element<'a>(
    alloc: Global,
    at: At,
    place: Place,
    mode: &'a Mode,
    standing: Standing,
    known: bool,
    subscript: Result<Value, CheckFault>,
) -> Result<Operand<'a>, CheckFault>
    ensures { (t : Outcome Value) → Gives (λ v. v) subscript t → Gives judged_of result (spec.selected at place mode.now standing known t) }
{
    let (subscript, known) = or_other(subscript, Value::Number(0), known)?;
    let place = Place::Element(Boxed::new(alloc, place)?, Boxed::new(alloc, subscript)?);
    Ok(Operand {
        at,
        is: Meant::Place(place, mode, standing),
        known,
    })
}

/// What a call is.
pub fn called<'a>(
    alloc: Global,
    at: At,
    callee: Callee,
    answer: Option<&'a Mode>,
    known: bool,
    arguments: Result<List<Value>, CheckFault>,
) -> Result<Operand<'a>, CheckFault>
    ensures { (t : Outcome (List Value)) → Gives (λ x. x) arguments t → Gives judged_of result (spec.answered at callee (option_copied answer.entry) known t) }
{
    let (arguments, known) = or_other(arguments, List::new(alloc, 0)?, known)?;
    let call = Value::Call(callee, arguments);
    let is = match answer {
        Some(mode) => Meant::Result(call, mode),
        None => Meant::Done(call),
    };
    Ok(Operand { at, is, known })
}

/// The place that VAL names, if the whole begins at `at`.
pub fn val<'a>(
    alloc: Global,
    at: At,
    operand: Result<Operand<'a>, CheckFault>,
) -> Result<Operand<'a>, CheckFault>
    ensures { (t : Outcome Judged) → Gives judged_of operand.entry t → Gives judged_of result (spec.val at t) }
{
    let Operand {
        at: first,
        is,
        known,
    } = operand?;
    match named_by(alloc, is)? {
        None => Err(CheckFault::WrongMode(first)),
        Some((place, mode)) => Ok(Operand {
            at,
            is: Meant::Place(place, mode, Standing::Shared),
            known,
        }),
    }
}

/// The place to which the REF of an operand leads, and its mode.
fn named_by<'a>(alloc: Global, is: Meant<'a>) -> Result<Option<(Place, &'a Mode)>, Memory>
    ensures { IfOk result (λ r. option_map (λ x. (x.0, x.1.now)) r ≡ spec.target_of (seen is.entry)) }
{
    match is {
        Meant::Place(place, mode, _) => match ref_of(mode) {
            Some(to) => Ok(Some((through(alloc, place)?, to))),
            None => Ok(None),
        },
        Meant::Result(value, mode) => match ref_of(mode) {
            Some(to) => Ok(Some((Place::Through(Boxed::new(alloc, value)?), to))),
            None => Ok(None),
        },
        _ => Ok(None),
    }
}
