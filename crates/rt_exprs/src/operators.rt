//! What operators want and give.

ghost use Rattle.std.specs.Prelude.{◌≡◌, IfOk, Ok};
ghost use Rattle.rt_modes.specs.declared.mode.Mode.{out-Mode};
ghost use Rattle.rt_exprs.specs.Judging as spec;
ghost use Rattle.rt_exprs.specs.Operands.{Judged, seen, judged_of};
ghost use Rattle.rt_check_faults.specs.Outcomes.{Outcome, Gives, UnlessMemory};

use crate::suit::by_itself;
use crate::{Base, Meant, Operand, Wanted, array_at, base_of, fits, suits};
use rt_check_faults::{CheckFault, both, or_other};
use rt_grammar::At;
use rt_modes::Mode;
use rt_syntax_exprs::{Op1, Op2};
use rt_tree::{Op1 as Made1, Op2 as Made2, Place, Value};
use rt_words::{Boxed, Memory};
use std::alloc::Global;

/// The mode of one word that an operand is, REFs taken off; INT where it is another.
pub fn base_in(is: &Meant<'_>) -> Base
    ensures { result ≡ spec.base_in (seen is.now) }
{
    match is {
        Meant::Place(_, mode, _) => base_of(mode),
        Meant::Result(_, mode) => base_of(mode),
        Meant::Computed(_, base) => *base,
        _ => Base::Int,
    }
}

/// FRAC, or else INT.
pub fn frac_or_int(base: Base) -> Base
    ensures { result ≡ spec.frac_or_int base }
{
    match base {
        Base::Frac => Base::Frac,
        _ => Base::Int,
    }
}

/// What a monadic operator wants of an operand of this mode.
fn takes(op: Op1, base: Base) -> Base
    ensures { result ≡ spec.takes op base }
{
    match op {
        Op1::Not | Op1::Byte => Base::Int,
        Op1::Int => base,
        _ => frac_or_int(base),
    }
}

/// The mode that a monadic operator gives for an operand of this mode.
fn gives(op: Op1, base: Base) -> Base
    ensures { result ≡ spec.gives op base }
{
    match op {
        Op1::Not | Op1::Int => Base::Int,
        Op1::Byte => Base::Byte,
        Op1::Frac => Base::Frac,
        _ => frac_or_int(base),
    }
}

/// The operator of the tree; LENGTH is none.
fn made_monadic(op: Op1) -> Option<Made1>
    ensures { result ≡ spec.made_monadic op }
{
    match op {
        Op1::Plus => Some(Made1::Plus),
        Op1::Minus => Some(Made1::Minus),
        Op1::Abs => Some(Made1::Abs),
        Op1::Not => Some(Made1::Not),
        Op1::Byte => Some(Made1::Byte),
        Op1::Int => Some(Made1::Int),
        Op1::Frac => Some(Made1::Frac),
        Op1::Length => None,
    }
}

/// A monadic operator with its operand.
pub fn monadic<'a>(
    alloc: Global,
    at: At,
    op: Op1,
    operand: Result<Operand<'_>, CheckFault>,
) -> Result<Operand<'a>, CheckFault>
    ensures { (t : Outcome Judged) → Gives judged_of operand.entry t → Gives judged_of result (spec.monadic at op t) }
{
    match operand {
        Ok(operand) => of_operand(alloc, at, op, operand),
        Err(CheckFault::Unknown) => of_unknown(at, op),
        Err(fault) => Err(fault),
    }
}

/// The same where the operand isn't known: some operators give one mode, whatever their operand is.
fn of_unknown<'a>(at: At, op: Op1) -> Result<Operand<'a>, CheckFault>
    ensures { Gives judged_of result (spec.of_unknown at op) }
{
    match gives_always(op) {
        None => Err(CheckFault::Unknown),
        Some(base) => Ok(Operand {
            at,
            is: Meant::Computed(Value::Number(0), base),
            known: false,
        }),
    }
}

/// The mode that a monadic operator gives, if it gives one alone.
fn gives_always(op: Op1) -> Option<Base>
    ensures { result ≡ spec.gives_always op }
{
    match op {
        Op1::Not | Op1::Int | Op1::Length => Some(Base::Int),
        Op1::Byte => Some(Base::Byte),
        Op1::Frac => Some(Base::Frac),
        Op1::Plus | Op1::Minus | Op1::Abs => None,
    }
}

fn of_operand<'a>(
    alloc: Global,
    at: At,
    op: Op1,
    operand: Operand<'_>,
) -> Result<Operand<'a>, CheckFault>
    ensures { Gives judged_of result (spec.of_operand at op (judged_of operand.entry)) }
{
    match made_monadic(op) {
        None => length(alloc, at, operand),
        Some(made) => {
            let base = base_in(&operand.is);
            let value = suits(alloc, operand, Wanted::Basic(takes(op, base)));
            let (value, known) = or_other(value, Value::Number(0), true)?;
            let value = Value::Monadic(made, Boxed::new(alloc, value)?);
            Ok(Operand {
                at,
                is: Meant::Computed(value, gives(op, base)),
                known,
            })
        }
    }
}

/// LENGTH of an operand.
fn length<'a>(alloc: Global, at: At, operand: Operand<'_>) -> Result<Operand<'a>, CheckFault>
    ensures { Gives judged_of result (spec.length_of at (judged_of operand.entry)) }
{
    let Operand {
        at: first,
        is,
        known,
    } = operand;
    match array_in(alloc, is)? {
        None => Err(CheckFault::WrongMode(first)),
        Some(place) => {
            let value = Value::Length(Boxed::new(alloc, place)?);
            Ok(Operand {
                at,
                is: Meant::Computed(value, Base::Int),
                known,
            })
        }
    }
}

/// The array that an operand is, or to which its references lead.
fn array_in(alloc: Global, is: Meant<'_>) -> Result<Option<Place>, Memory>
    ensures { IfOk result (λ p. p ≡ spec.array_in (seen is.entry)) }
{
    match is {
        Meant::Text(n) => Ok(Some(Place::Through(Boxed::new(alloc, Value::Text(n))?))),
        Meant::Place(place, mode, _) => array_at(alloc, mode, place),
        Meant::Result(value, mode) => array_behind(alloc, mode, value),
        _ => Ok(None),
    }
}

/// The array to which a result of this mode leads.
fn array_behind(alloc: Global, mode: &Mode, value: Value) -> Result<Option<Place>, Memory>
    ensures { IfOk result (λ p. p ≡ spec.row_result (out-Mode mode.now) value) }
{
    match mode {
        Mode::RefArray(_) => Ok(Some(Place::Through(Boxed::new(alloc, value)?))),
        Mode::Ref(to) => {
            let place = Place::Through(Boxed::new(alloc, value)?);
            array_at(alloc, to.get(), place)
        }
        _ => Ok(None),
    }
}

/// Whether an operator is of INT alone.
fn is_of_int(op: Op2) -> bool
    ensures { result ≡ spec.of_int op }
{
    match op {
        Op2::Divide | Op2::Mod | Op2::Land | Op2::Lor | Op2::Nev => true,
        _ => false,
    }
}

/// What is wanted of the right operand where this is wanted of the left one.
fn right_takes(op: Op2, base: Base) -> Base
    ensures { result ≡ spec.right_takes op base }
{
    match op {
        Op2::Plus | Op2::Minus | Op2::Times => base,
        _ => Base::Int,
    }
}

/// The product of FRACs is an operator of its own.
fn product(base: Base) -> Made2
    ensures { result ≡ spec.product base }
{
    match base {
        Base::Frac => Made2::FracTimes,
        _ => Made2::Times,
    }
}

/// The operator of the tree for operands of this mode.
fn made_dyadic(op: Op2, base: Base) -> Made2
    ensures { result ≡ spec.made_dyadic op base }
{
    match op {
        Op2::Sll => Made2::Sll,
        Op2::Srl => Made2::Srl,
        Op2::Sla => Made2::Sla,
        Op2::Sra => Made2::Sra,
        Op2::Times => product(base),
        Op2::Divide => Made2::Divide,
        Op2::Mod => Made2::Mod,
        Op2::Land => Made2::Land,
        Op2::Plus => Made2::Plus,
        Op2::Minus => Made2::Minus,
        Op2::Lor => Made2::Lor,
        Op2::Nev => Made2::Nev,
    }
}

/// A dyadic operator with its operands.
pub fn dyadic<'a>(
    alloc: Global,
    at: At,
    op: Op2,
    left: Result<Operand<'_>, CheckFault>,
    right: Result<Operand<'_>, CheckFault>,
) -> Result<Operand<'a>, CheckFault>
    ensures { (l r : Outcome Judged) → Gives judged_of left.entry l → Gives judged_of right.entry r → Gives judged_of result (spec.dyadic at op l r) }
{
    if is_of_int(op) {
        let int = Wanted::Basic(Base::Int);
        let operands = both(fits(alloc, left, int), fits(alloc, right, int));
        return computed(alloc, at, op, Base::Int, operands);
    }
    match left {
        Ok(left) => by_left(alloc, at, op, left, right),
        Err(fault) => Err(fault.sooner(right_alone(alloc, op, right))),
    }
}

/// The fault of a right operand whose left one has no mode that is known: the count of a shift is INT, another is judged by
/// itself. Where none stands, that is what can't be known.
fn right_alone(alloc: Global, op: Op2, right: Result<Operand<'_>, CheckFault>) -> CheckFault
    ensures { (r : Outcome Judged) → Gives judged_of right.entry r → UnlessMemory result (result ≡ spec.right_alone op r) }
{
    if is_shift(op) {
        match fits(alloc, right, Wanted::Basic(Base::Int)) {
            Ok(_) => CheckFault::Unknown,
            Err(fault) => fault,
        }
    } else {
        by_itself(right)
    }
}

fn is_shift(op: Op2) -> bool
    ensures { result ≡ spec.is_shift op }
{
    match op {
        Op2::Sll | Op2::Srl | Op2::Sla | Op2::Sra => true,
        _ => false,
    }
}

/// A dyadic operator whose left operand says what is wanted of both.
fn by_left<'a>(
    alloc: Global,
    at: At,
    op: Op2,
    left: Operand<'_>,
    right: Result<Operand<'_>, CheckFault>,
) -> Result<Operand<'a>, CheckFault>
    ensures { (r : Outcome Judged) → Gives judged_of right.entry r → Gives judged_of result (spec.by_left at op (judged_of left.entry) r) }
{
    let base = frac_or_int(base_in(&left.is));
    let x = suits(alloc, left, Wanted::Basic(base));
    let y = fits(alloc, right, Wanted::Basic(right_takes(op, base)));
    computed(alloc, at, op, base, both(x, y))
}

/// An operator with its two operands.
fn computed<'a>(
    alloc: Global,
    at: At,
    op: Op2,
    base: Base,
    operands: Result<(Value, Value), CheckFault>,
) -> Result<Operand<'a>, CheckFault>
    ensures { (t : Outcome (Value × Value)) → Gives (λ x. x) operands t → Gives judged_of result (spec.computes at op base t) }
{
    let others = (Value::Number(0), Value::Number(0));
    let ((left, right), known) = or_other(operands, others, true)?;
    let left = Boxed::new(alloc, left)?;
    let right = Boxed::new(alloc, right)?;
    Ok(Operand {
        at,
        is: Meant::Computed(Value::Dyadic(made_dyadic(op, base), left, right), base),
        known,
    })
}
