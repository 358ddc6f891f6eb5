//! The modes of places, values and calls, where they fit.

ghost use Rattle.std.specs.Prelude.{◌≡◌, if◌then◌else◌, None, map};
ghost use Rattle.rt_modes.specs.declared.mode.Mode.{out-Mode};
ghost use Rattle.rt_tree_nodes.specs.Code as seen;
ghost use Rattle.rt_tree_nodes.specs.Scopes as scopes;
ghost use Rattle.rt_tree_nodes.specs.Typing as typing;

use crate::lent::{Found, Lent, Signature, ValueMode};
use crate::operator_modes::{dyadic_mode, monadic_mode};
use crate::operators::{Op1, Op2};
use crate::scope::Scope;
use crate::value::{Callee, Place, Value};
use rt_modes::Mode;

/// What a place is, where it fits.
#[cycle(typing)]
pub fn found_at<'a>(scope: &Scope<'a>, place: &Place) -> Option<Found<'a>>
    ensures { seen.place_found result ≡ (typing.placed (seen.scope scope.now) place.now).found }
{
    match place {
        Place::Local(i) => scope.local(*i),
        Place::Item(b, j) => scope.item(*b, *j),
        Place::Svc(k) => scope.svc(*k),
        Place::Field(record, k) => field_of(scope, found_at(scope, record.get()), *k),
        Place::Element(array, subscript) => {
            element_at(scope, found_at(scope, array.get()), subscript.get())
        }
        Place::Through(reference) => led_by(mode_of(scope, reference.get())),
    }
}

/// The element of an array at a subscript, where both fit.
#[cycle(typing)]
fn element_at<'a>(
    scope: &Scope<'a>,
    array: Option<Found<'a>>,
    subscript: &Value,
) -> Option<Found<'a>>
    ensures { seen.place_found result ≡ scopes.with (seen.place_found array.entry) (λ f. scopes.with (typing.valued (seen.scope scope.now) subscript.now).mode (λ m. if typing.is_int m then typing.element_found f else None)) }
{
    match array {
        Some(array) => element_of(array, mode_of(scope, subscript)),
        None => None,
    }
}

/// The mode of a value, where it fits.
#[cycle(typing)]
pub fn mode_of<'a>(scope: &Scope<'a>, value: &Value) -> Option<ValueMode<'a>>
    ensures { seen.mode_found result ≡ (typing.valued (seen.scope scope.now) value.now).mode }
{
    match value {
        Value::Number(_) => Some(ValueMode::Of(Lent::Int)),
        Value::Text(n) => scope.text(*n),
        Value::Proc(b) => scope.procedure(*b),
        Value::Read(place) => read_at(found_at(scope, place.get())),
        Value::Reference(place) => reference_of(found_at(scope, place.get())),
        Value::Length(place) => length_of(found_at(scope, place.get())),
        Value::Monadic(operator, operand) => monadic_of(*operator, mode_of(scope, operand.get())),
        Value::Dyadic(operator, left, right) => {
            dyadic_at(scope, *operator, mode_of(scope, left.get()), right.get())
        }
        Value::Call(_, _) => answer_of(result_of(scope, value)),
    }
}

/// The mode of the result of a dyadic operator, where its operands fit.
#[cycle(typing)]
fn dyadic_at<'a>(
    scope: &Scope<'a>,
    operator: Op2,
    left: Option<ValueMode<'a>>,
    right: &Value,
) -> Option<ValueMode<'a>>
    ensures { seen.mode_found result ≡ scopes.with (seen.mode_found left.entry) (λ m. scopes.with (typing.valued (seen.scope scope.now) right.now).mode (typing.dyadic_mode operator m)) }
{
    match left {
        Some(left) => dyadic_of(operator, left, mode_of(scope, right)),
        None => None,
    }
}

/// The PROC mode of what is called, where it fits.
#[cycle(typing)]
pub fn mode_called<'a>(scope: &Scope<'a>, callee: &Callee) -> Option<ValueMode<'a>>
    ensures { seen.mode_found result ≡ (typing.called (seen.scope scope.now) callee.now).mode }
{
    match callee {
        Callee::Brick(b) => scope.procedure(*b),
        Callee::Through(value) => mode_of(scope, value.get()),
    }
}

/// The mode of the result of a call, if it has one, where the value is a call that fits.
#[cycle(typing)]
pub fn result_of<'a>(scope: &Scope<'a>, value: &Value) -> Option<Option<ValueMode<'a>>>
    ensures { seen.call_found result ≡ (typing.valued (seen.scope scope.now) value.now).call }
{
    match value {
        Value::Call(callee, arguments) => match signature_of(mode_called(scope, callee)) {
            Some(signature) => answer_if(
                all_suit(scope, arguments.as_slice(), signature.parameters),
                signature.answer,
            ),
            None => None,
        },
        _ => None,
    }
}

/// Whether a value suits where a mode is wanted.
#[cycle(typing)]
pub fn suits(scope: &Scope<'_>, value: &Value, wanted: &Mode) -> bool
    ensures { result ≡ typing.suits wanted.now (typing.valued (seen.scope scope.now) value.now) }
{
    match mode_of(scope, value) {
        None => false,
        Some(mode) => mode.is(wanted) || (matches!(wanted, Mode::Byte) && is_small(scope, value)),
    }
}

/// Whether a value suits where such a value is assigned.
pub fn suits_as(scope: &Scope<'_>, value: &Value, wanted: &ValueMode<'_>) -> bool
    ensures { result ≡ typing.suits (seen.value_mode wanted.now) (typing.valued (seen.scope scope.now) value.now) }
{
    match mode_of(scope, value) {
        None => false,
        Some(mode) => wanted.same(&mode) || (wanted.is_byte() && is_small(scope, value)),
    }
}

/// Whether there are as many values as modes, and each suits where its mode is wanted.
#[cycle(typing)]
fn all_suit(scope: &Scope<'_>, values: &[Value], wanted: &[Mode]) -> bool
    ensures { result ≡ typing.all_suit wanted.now (map (typing.valued (seen.scope scope.now)) values.now) }
{
    let mut modes = wanted;
    for value in values {
        match modes {
            [mode, rest @ ..] => {
                if !suits(scope, value, mode) {
                    return false;
                }
                modes = rest;
            }
            [] => return false,
        }
    }
    modes.is_empty()
}

/// Whether a value is a number up to 255.
fn is_small(scope: &Scope<'_>, value: &Value) -> bool
    ensures { result ≡ typing.is_small (typing.valued (seen.scope scope.now) value.now).number }
{
    match value {
        Value::Number(n) => *n <= 255,
        _ => false,
    }
}

// What follows from what was found, if anything was.

fn field_of<'a>(scope: &Scope<'a>, record: Option<Found<'a>>, k: u16) -> Option<Found<'a>>
    ensures { seen.place_found result ≡ scopes.with (seen.place_found record.entry) (typing.field_found scope.now.records.now k) }
{
    match record {
        Some(record) => record.field(scope, k),
        None => None,
    }
}

fn element_of<'a>(array: Found<'a>, subscript: Option<ValueMode<'a>>) -> Option<Found<'a>>
    ensures { seen.place_found result ≡ scopes.with (seen.mode_found subscript.entry) (λ m. if typing.is_int m then typing.element_found (seen.found array.entry) else None) }
{
    match subscript {
        Some(subscript) if subscript.is_int() => array.element(),
        _ => None,
    }
}

fn led_by<'a>(reference: Option<ValueMode<'a>>) -> Option<Found<'a>>
    ensures { seen.place_found result ≡ scopes.with (seen.mode_found reference.entry) typing.led }
{
    match reference {
        Some(reference) => reference.leads(),
        None => None,
    }
}

fn read_at<'a>(place: Option<Found<'a>>) -> Option<ValueMode<'a>>
    ensures { seen.mode_found result ≡ scopes.with (seen.place_found place.entry) typing.read_mode }
{
    match place {
        Some(place) => place.read(),
        None => None,
    }
}

fn reference_of<'a>(place: Option<Found<'a>>) -> Option<ValueMode<'a>>
    ensures { seen.mode_found result ≡ scopes.with (seen.place_found place.entry) typing.reference_mode }
{
    match place {
        Some(place) => place.reference(),
        None => None,
    }
}

fn length_of<'a>(array: Option<Found<'a>>) -> Option<ValueMode<'a>>
    ensures { seen.mode_found result ≡ scopes.with (seen.place_found array.entry) typing.length_mode }
{
    match array {
        Some(array) => array.length(),
        None => None,
    }
}

fn monadic_of<'a>(operator: Op1, operand: Option<ValueMode<'a>>) -> Option<ValueMode<'a>>
    ensures { seen.mode_found result ≡ scopes.with (seen.mode_found operand.entry) (typing.monadic_mode operator) }
{
    match operand {
        Some(operand) => monadic_mode(operator, operand),
        None => None,
    }
}

fn dyadic_of<'a>(
    operator: Op2,
    left: ValueMode<'a>,
    right: Option<ValueMode<'a>>,
) -> Option<ValueMode<'a>>
    ensures { seen.mode_found result ≡ scopes.with (seen.mode_found right.entry) (typing.dyadic_mode operator (seen.value_mode left.entry)) }
{
    match right {
        Some(right) => dyadic_mode(operator, left, right),
        None => None,
    }
}

fn signature_of<'a>(called: Option<ValueMode<'a>>) -> Option<Signature<'a>>
    ensures { seen.signature result ≡ scopes.with (seen.mode_found called.entry) (λ m. typing.signature_by (out-Mode m)) }
{
    match called {
        Some(called) => called.procedure(),
        None => None,
    }
}

fn answer_if<'a>(fits: bool, answer: Option<ValueMode<'a>>) -> Option<Option<ValueMode<'a>>>
    ensures { seen.call_found result ≡ scopes.only fits (seen.mode_found answer.entry) }
{
    if fits { Some(answer) } else { None }
}

fn answer_of<'a>(call: Option<Option<ValueMode<'a>>>) -> Option<ValueMode<'a>>
    ensures { seen.mode_found result ≡ scopes.with (seen.call_found call.entry) (λ answer. answer) }
{
    match call {
        Some(answer) => answer,
        None => None,
    }
}
