//! The value that an expression is where a mode is wanted.

ghost use Rattle.std.specs.Prelude.{◌≡◌};
ghost use Rattle.rt_modes.specs.declared.mode.Mode.{out-Mode};
ghost use Rattle.rt_check_faults.specs.declared.fault.CheckFault.TheVariants as fault;
ghost use Rattle.rt_exprs.specs.Modes.{is_byte, is_int, is_row, is_ref};
ghost use Rattle.rt_exprs.specs.Operands as spec;
ghost use Rattle.rt_exprs.specs.Operands.{Judged, judged_of, want_of};
ghost use Rattle.rt_check_faults.specs.Outcomes.{Outcome, Gives, UnlessMemory, or_fault};

use crate::modes::{basic_becomes, becomes, is_byte, is_int, is_proc, is_ref, is_row, only_if};
use crate::operand::{Base, Meant, Operand, Standing, Wanted};
use rt_check_faults::CheckFault;
use rt_grammar::At;
use rt_modes::Mode;
use rt_tree_nodes::{Place, Value};
use rt_words::Boxed;
use std::alloc::Global;

/// The value of an expression where a mode is wanted; where it would be one, but isn't known, that can't be known.
pub fn suits(alloc: Global, operand: Operand<'_>, wanted: Wanted<'_>) -> Result<Value, CheckFault>
    ensures { Gives (λ v. v) result (spec.suits_as (judged_of operand.entry) (want_of wanted.entry)) }
{
    let known = operand.known;
    let value = suits_known(alloc, operand, wanted)?;
    if known {
        Ok(value)
    } else {
        Err(CheckFault::Unknown)
    }
}

fn suits_known(alloc: Global, operand: Operand<'_>, wanted: Wanted<'_>) -> Result<Value, CheckFault>
    ensures { Gives (λ v. v) result (spec.suits (judged_of operand.entry).found (want_of wanted.entry)) }
{
    let at = operand.at;
    match operand.is {
        Meant::Number(n) => or_wrong(at, only_if(number_fits(n, wanted), Value::Number(n))),
        Meant::Text(n) => or_wrong(at, only_if(is_row_of_bytes(wanted), Value::Text(n))),
        Meant::Brick(brick, mode) => or_wrong(
            at,
            only_if(is_proc(mode, wanted), Value::Proc(brick)),
        ),
        Meant::Place(place, mode, standing) => place_suits(
            alloc, at, place, mode, standing, wanted,
        ),
        Meant::Loop(local) => loop_suits(alloc, at, local, wanted),
        Meant::Result(value, mode) => or_wrong(at, becomes(alloc, mode, wanted, value)?),
        Meant::Computed(value, base) => or_wrong(at, basic_becomes(alloc, base, wanted, value)?),
        Meant::Done(_) => Err(CheckFault::WrongMode(at)),
    }
}

/// The value of an operand, where it is one, where a mode is wanted.
pub fn fits(
    alloc: Global,
    operand: Result<Operand<'_>, CheckFault>,
    wanted: Wanted<'_>,
) -> Result<Value, CheckFault>
    ensures { (t : Outcome Judged) → Gives judged_of operand.entry t → Gives (λ v. v) result (spec.fits t (want_of wanted.entry)) }
{
    let operand = operand?;
    suits(alloc, operand, wanted)
}

/// The fault of an operand of which no mode is known to be wanted, judged by itself; where none stands, that is what can't be
/// known. A call without result fits no mode.
pub fn by_itself(operand: Result<Operand<'_>, CheckFault>) -> CheckFault
    ensures { (t : Outcome Judged) → Gives judged_of operand.entry t → UnlessMemory result (result ≡ spec.by_itself t) }
{
    match operand {
        Ok(Operand { at, is, .. }) => match is {
            Meant::Done(_) => CheckFault::WrongMode(at),
            _ => CheckFault::Unknown,
        },
        Err(fault) => fault,
    }
}

fn or_wrong(at: At, value: Option<Value>) -> Result<Value, CheckFault>
    ensures { result ≡ or_fault (fault.WrongMode at) value }
{
    match value {
        Some(value) => Ok(value),
        None => Err(CheckFault::WrongMode(at)),
    }
}

fn number_fits(number: u16, wanted: Wanted<'_>) -> bool
    ensures { result ≡ spec.number_fits number (want_of wanted.entry) }
{
    match wanted {
        Wanted::Basic(Base::Int) => true,
        Wanted::Basic(Base::Byte) => number <= 255,
        _ => false,
    }
}

/// Whether REF ARRAY BYTE is wanted.
fn is_row_of_bytes(wanted: Wanted<'_>) -> bool
    ensures { result ≡ is_row (λ m. is_byte (out-Mode m)) (want_of wanted.entry) }
{
    match wanted {
        Wanted::Row(of) => is_byte(of),
        _ => false,
    }
}

/// Whether REF INT is wanted.
fn is_ref_to_int(wanted: Wanted<'_>) -> bool
    ensures { result ≡ is_ref (λ m. is_int (out-Mode m)) (want_of wanted.entry) }
{
    match wanted {
        Wanted::Ref(to) => is_int(to),
        _ => false,
    }
}

/// Whether the reference of a place of this mode is wanted.
fn wants_reference(mode: &Mode, wanted: Wanted<'_>) -> bool
    ensures { result ≡ spec.wants_reference mode.now (want_of wanted.entry) }
{
    is_ref(mode, wanted) || is_row_of(mode, wanted)
}

/// Whether REF ARRAY of an array's elements is wanted.
fn is_row_of(mode: &Mode, wanted: Wanted<'_>) -> bool
    ensures { result ≡ spec.row_by (out-Mode mode.now) (want_of wanted.entry) }
{
    match mode {
        Mode::Array(_, of) => is_row(of.get(), wanted),
        _ => false,
    }
}

fn refer(alloc: Global, at: At, place: Place, standing: Standing) -> Result<Value, CheckFault>
    ensures { Gives (λ v. v) result (spec.refer at place standing) }
{
    match standing {
        Standing::Shared => Ok(Value::Reference(Boxed::new(alloc, place)?)),
        Standing::Private => Err(CheckFault::RefOfLocal(at)),
    }
}

fn place_suits(
    alloc: Global,
    at: At,
    place: Place,
    mode: &Mode,
    standing: Standing,
    wanted: Wanted<'_>,
) -> Result<Value, CheckFault>
    ensures { Gives (λ v. v) result (spec.place_suits at place mode.now standing (want_of wanted.entry)) }
{
    if wants_reference(mode, wanted) {
        return refer(alloc, at, place, standing);
    }
    let read = Value::Read(Boxed::new(alloc, place)?);
    or_wrong(at, becomes(alloc, mode, wanted, read)?)
}

fn loop_suits(alloc: Global, at: At, local: u16, wanted: Wanted<'_>) -> Result<Value, CheckFault>
    ensures { Gives (λ v. v) result (spec.loop_suits at local (want_of wanted.entry)) }
{
    if is_ref_to_int(wanted) {
        return Err(CheckFault::RefOfLocal(at));
    }
    let read = Value::Read(Boxed::new(alloc, Place::Local(local))?);
    or_wrong(at, basic_becomes(alloc, Base::Int, wanted, read)?)
}
