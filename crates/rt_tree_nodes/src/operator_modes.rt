//! The modes of the results of operators.

ghost use Rattle.std.specs.Prelude.{◌≡◌};
ghost use Rattle.rt_tree_nodes.specs.Code as seen;
ghost use Rattle.rt_tree_nodes.specs.Scopes as scopes;
ghost use Rattle.rt_tree_nodes.specs.Typing as typing;

use crate::lent::{Lent, ValueMode};
use crate::operators::{Op1, Op2, Rel};

/// The mode of the result of a monadic operator, where its operand fits.
pub fn monadic_mode<'a>(operator: Op1, operand: ValueMode<'a>) -> Option<ValueMode<'a>>
    ensures { seen.mode_found result ≡ typing.monadic_mode operator (seen.value_mode operand.entry) }
{
    match operator {
        Op1::Plus | Op1::Minus | Op1::Abs => signed(operand),
        Op1::Not => only(operand.is_int(), Lent::Int),
        Op1::Byte => only(operand.is_int(), Lent::Byte),
        Op1::Int => only(
            operand.is_byte() || operand.is_int() || operand.is_frac(),
            Lent::Int,
        ),
        Op1::Frac => only(operand.is_int() || operand.is_frac(), Lent::Frac),
    }
}

/// The mode of the result of a dyadic operator, where its operands fit.
pub fn dyadic_mode<'a>(
    operator: Op2,
    left: ValueMode<'a>,
    right: ValueMode<'a>,
) -> Option<ValueMode<'a>>
    ensures { seen.mode_found result ≡ typing.dyadic_mode operator (seen.value_mode left.entry) (seen.value_mode right.entry) }
{
    dyadic_by(operator, &left, &right)
}

fn dyadic_by<'a>(
    operator: Op2,
    left: &ValueMode<'a>,
    right: &ValueMode<'a>,
) -> Option<ValueMode<'a>>
    ensures { seen.mode_found result ≡ typing.dyadic_mode operator (seen.value_mode left.now) (seen.value_mode right.now) }
{
    match operator {
        Op2::Sll | Op2::Srl | Op2::Sla | Op2::Sra => shifted(left, right),
        Op2::Times | Op2::Divide | Op2::Mod | Op2::Land | Op2::Lor | Op2::Nev => whole(left, right),
        Op2::FracTimes => only(are_fracs(left, right), Lent::Frac),
        Op2::Plus | Op2::Minus => added(left, right),
    }
}

/// Whether two values may be compared.
pub fn compares<'a>(relation: Rel, left: ValueMode<'a>, right: ValueMode<'a>) -> bool
    ensures { result ≡ typing.compare_fits relation (seen.value_mode left.entry) (seen.value_mode right.entry) }
{
    match relation {
        Rel::Same | Rel::Different => left.leads_as(&right),
        _ => left.compares(&right),
    }
}

fn only<'a>(fits: bool, mode: Lent<'a>) -> Option<ValueMode<'a>>
    ensures { seen.mode_found result ≡ scopes.only fits (seen.lent mode.entry) }
{
    if fits {
        Some(ValueMode::Of(mode))
    } else {
        None
    }
}

/// INT or FRAC, as the operand is.
fn signed<'a>(operand: ValueMode<'a>) -> Option<ValueMode<'a>>
    ensures { seen.mode_found result ≡ typing.signed_mode (seen.value_mode operand.entry) }
{
    if operand.is_int() || operand.is_frac() {
        Some(operand)
    } else {
        None
    }
}

/// As the left one is, where the count of the shift is INT.
fn shifted<'a>(left: &ValueMode<'a>, right: &ValueMode<'a>) -> Option<ValueMode<'a>>
    ensures { seen.mode_found result ≡ typing.shift_mode (seen.value_mode left.now) (seen.value_mode right.now) }
{
    if right.is_int() { signed(*left) } else { None }
}

/// FRAC where both are, INT where both are.
fn added<'a>(left: &ValueMode<'a>, right: &ValueMode<'a>) -> Option<ValueMode<'a>>
    ensures { seen.mode_found result ≡ typing.alike_mode (seen.value_mode left.now) (seen.value_mode right.now) }
{
    if are_fracs(left, right) {
        Some(ValueMode::Of(Lent::Frac))
    } else {
        whole(left, right)
    }
}

fn whole<'a>(left: &ValueMode<'a>, right: &ValueMode<'a>) -> Option<ValueMode<'a>>
    ensures { seen.mode_found result ≡ typing.whole_mode (seen.value_mode left.now) (seen.value_mode right.now) }
{
    only(are_ints(left, right), Lent::Int)
}

fn are_ints(left: &ValueMode<'_>, right: &ValueMode<'_>) -> bool
    ensures { result ≡ typing.both typing.is_int (seen.value_mode left.now) (seen.value_mode right.now) }
{
    left.is_int() && right.is_int()
}

fn are_fracs(left: &ValueMode<'_>, right: &ValueMode<'_>) -> bool
    ensures { result ≡ typing.both typing.is_frac (seen.value_mode left.now) (seen.value_mode right.now) }
{
    left.is_frac() && right.is_frac()
}
