//! The points and depths of places and values.

ghost use Rattle.std.specs.Prelude.{◌≡◌, ◌++◌, ◌+◌, ◌&&◌, List, IfOk, OnOk, map, length, option_map, None};
ghost use Rattle.rt_tree_nodes.specs.Code as seen;
ghost use Rattle.rt_tree.specs.Depth as depths;
ghost use Rattle.rt_tree_nodes.specs.Scopes.{with};
ghost use Rattle.rt_tree_nodes.specs.Typing as typing;
ghost use Rattle.rt_frames.specs.declared.frame.CallPoint.{CallPoint};
ghost use Rattle.rt_frames.specs.declared.frame.Target.TheVariants as target;
ghost use Rattle.rt_frames.specs.Measures as measures;
ghost use Rattle.rt_frames.specs.Measures.{IsMeasured, IsReached, IsCalled};
ghost use Rattle.rt_frames.specs.Points as spec;
ghost use Rattle.rt_frames.specs.Saturated.{saturated, saturated_points};

use crate::frame::{CallPoint, Target};
use crate::measure::{Address, Measured, Reached, above, behind, greater, plus, word};
use rt_modes::Mode;
use rt_tree::{
    Callee, Found, Lent, Op1, Op2, Place, Scope, Signature, Value, ValueMode, dyadic_mode,
    monadic_mode,
};
use rt_tree_nodes::copy_value_mode;
use rt_words::{List, Memory};
use std::alloc::Global;

/// Walks a place above so many words: adds its points, and answers what it is.
#[cycle(walk)]
pub(crate) fn place<'a>(
    alloc: Global,
    scope: &Scope<'a>,
    calls: &mut List<CallPoint>,
    below: u16,
    place: &Place,
) -> Result<Reached<'a>, Memory>
    ensures reached { IfOk result (IsReached (spec.place_points (seen.scope scope.now) place.now).placed) }
    ensures calls { OnOk result (calls.new ≡ calls.old ++ saturated_points ((spec.place_points (seen.scope scope.now) place.now).points below)) }
{
    match place {
        Place::Local(i) => Ok(Reached {
            found: scope.local(*i),
            address: Address::Local,
        }),
        Place::Item(b, j) => Ok(Reached {
            found: scope.item(*b, *j),
            address: Address::Path(0),
        }),
        Place::Svc(k) => Ok(Reached {
            found: scope.svc(*k),
            address: Address::Path(0),
        }),
        Place::Field(record, k) => {
            let record = self::place(alloc, scope, calls, below, record.get())?;
            Ok(field(scope, record, *k))
        }
        Place::Element(array, subscript) => {
            let array = self::place(alloc, scope, calls, below, array.get())?;
            let above = plus(below, array.address.words());
            let subscript = value(alloc, scope, calls, above, subscript.get())?;
            Ok(element(array, subscript))
        }
        Place::Through(reference) => {
            let reference = value(alloc, scope, calls, below, reference.get())?;
            Ok(led(reference))
        }
    }
}

fn field<'a>(scope: &Scope<'a>, record: Reached<'a>, k: u16) -> Reached<'a>
    ensures found { seen.place_found result.found ≡ with (seen.place_found record.entry.found) (typing.field_found scope.now.records.now k) }
    ensures address { result.address ≡ record.entry.address }
{
    let found = match record.found {
        Some(found) => found.field(scope, k),
        None => None,
    };
    Reached {
        found,
        address: record.address,
    }
}

fn element<'a>(array: Reached<'a>, subscript: Measured<'a>) -> Reached<'a>
    ensures found { seen.place_found result.found ≡ with (seen.place_found array.entry.found) (λ f. measures.int_or_none (seen.mode_found subscript.entry.mode) (typing.element_found f)) }
    ensures address { result.address ≡ measures.element_address (seen.place_found array.entry.found) array.entry.address subscript.entry.depth }
{
    let address = element_address(array.found, array.address, subscript.depth);
    let found = match array.found {
        Some(found) => match subscript.mode {
            Some(mode) if mode.is_int() => found.element(),
            _ => None,
        },
        None => None,
    };
    Reached { found, address }
}

fn element_address(found: Option<Found<'_>>, address: Address, subscript: u16) -> Address
    ensures { result ≡ measures.element_address (seen.place_found found.entry) address subscript }
{
    match found {
        None => address,
        Some(found) => match address {
            Address::Local => address,
            Address::Path(depth) => {
                if is_array(found) {
                    Address::Path(behind(depth, subscript))
                } else {
                    address
                }
            }
            Address::Row(depth) => {
                if is_row(found) {
                    Address::Path(above(depth, subscript))
                } else {
                    address
                }
            }
        },
    }
}

fn is_row(found: Found<'_>) -> bool
    ensures { result ≡ measures.is_row (seen.found found.entry) }
{
    matches!(found, Found::Row(_))
}

fn is_array(found: Found<'_>) -> bool
    ensures { result ≡ measures.is_array (seen.found found.entry) }
{
    match found {
        Found::Shared(mode) => mode.element().is_some(),
        Found::Private(mode) => matches!(mode, Mode::Array(_, _)),
        _ => false,
    }
}

/// The place to which a reference leads.
fn led<'a>(reference: Measured<'a>) -> Reached<'a>
    ensures found { seen.place_found result.found ≡ with (seen.mode_found reference.entry.mode) typing.led }
    ensures address { result.address ≡ measures.led_address (with (seen.mode_found reference.entry.mode) typing.led) reference.entry.depth }
{
    let found = match reference.mode {
        Some(mode) => mode.leads(),
        None => None,
    };
    let address = match found {
        Some(Found::Shared(_)) => Address::Path(reference.depth),
        _ => Address::Row(reference.depth),
    };
    Reached { found, address }
}

/// Walks a value above so many words: adds its points, and answers its mode, which number it is, and its depth.
#[cycle(walk)]
pub(crate) fn value<'a>(
    alloc: Global,
    scope: &Scope<'a>,
    calls: &mut List<CallPoint>,
    below: u16,
    value: &Value,
) -> Result<Measured<'a>, Memory>
    ensures measured { IfOk result (IsMeasured (spec.value_points (seen.scope scope.now) value.now).valued) }
    ensures calls { OnOk result (calls.new ≡ calls.old ++ saturated_points ((spec.value_points (seen.scope scope.now) value.now).points below)) }
{
    match value {
        Value::Number(n) => Ok(Measured {
            mode: Some(ValueMode::Of(Lent::Int)),
            number: Some(*n),
            depth: 1,
        }),
        Value::Text(n) => Ok(plain(scope.text(*n), 1)),
        Value::Proc(b) => Ok(plain(scope.procedure(*b), 1)),
        Value::Read(inner) => {
            let reached = place(alloc, scope, calls, below, inner.get())?;
            Ok(read(reached))
        }
        Value::Reference(inner) => {
            let reached = place(alloc, scope, calls, below, inner.get())?;
            Ok(reference(reached))
        }
        Value::Length(inner) => {
            let reached = place(alloc, scope, calls, below, inner.get())?;
            Ok(length(reached))
        }
        Value::Monadic(operator, operand) => {
            let operand = self::value(alloc, scope, calls, below, operand.get())?;
            Ok(monadic(*operator, operand))
        }
        Value::Dyadic(operator, left, right) => {
            let left = self::value(alloc, scope, calls, below, left.get())?;
            let above = plus(below, 1);
            let right = self::value(alloc, scope, calls, above, right.get())?;
            error_point(calls, below, *operator, right.number)?;
            Ok(dyadic(*operator, left, right))
        }
        Value::Call(called, arguments) => {
            let called = callee(alloc, scope, calls, below, called)?;
            let result = call(alloc, scope, calls, below, called, arguments.as_slice())?;
            Ok(result)
        }
    }
}

/// A value that is no number.
fn plain(mode: Option<ValueMode<'_>>, depth: u16) -> Measured<'_>
    ensures { result ≡ record { mode = mode.entry; number = None; depth = depth } }
{
    Measured {
        mode,
        number: None,
        depth,
    }
}

fn read(place: Reached<'_>) -> Measured<'_>
    ensures mode { seen.mode_found result.mode ≡ with (seen.place_found place.entry.found) typing.read_mode }
    ensures depth { result.depth ≡ measures.taken place.entry.address }
    ensures number { result.number ≡ None }
{
    let mode = match place.found {
        Some(found) => found.read(),
        None => None,
    };
    plain(mode, taken(place.address))
}

fn reference(place: Reached<'_>) -> Measured<'_>
    ensures mode { seen.mode_found result.mode ≡ with (seen.place_found place.entry.found) typing.reference_mode }
    ensures depth { result.depth ≡ measures.taken place.entry.address }
    ensures number { result.number ≡ None }
{
    let mode = match place.found {
        Some(found) => found.reference(),
        None => None,
    };
    plain(mode, taken(place.address))
}

fn length(place: Reached<'_>) -> Measured<'_>
    ensures mode { seen.mode_found result.mode ≡ with (seen.place_found place.entry.found) typing.length_mode }
    ensures depth { result.depth ≡ measures.taken place.entry.address }
    ensures number { result.number ≡ None }
{
    let mode = match place.found {
        Some(found) => found.length(),
        None => None,
    };
    plain(mode, taken(place.address))
}

/// The depth of what is read at a place, of its reference and of its LENGTH.
fn taken(address: Address) -> u16
    ensures { result ≡ measures.taken address }
{
    match address {
        Address::Local => 1,
        Address::Path(depth) => greater(1, depth),
        Address::Row(depth) => depth,
    }
}

fn monadic(operator: Op1, operand: Measured<'_>) -> Measured<'_>
    ensures mode { seen.mode_found result.mode ≡ with (seen.mode_found operand.entry.mode) (typing.monadic_mode operator) }
    ensures depth { result.depth ≡ operand.entry.depth }
    ensures number { result.number ≡ None }
{
    let mode = match operand.mode {
        Some(mode) => monadic_mode(operator, mode),
        None => None,
    };
    plain(mode, operand.depth)
}

fn dyadic<'a>(operator: Op2, left: Measured<'a>, right: Measured<'a>) -> Measured<'a>
    ensures mode { seen.mode_found result.mode ≡ with (seen.mode_found left.entry.mode) (λ x. with (seen.mode_found right.entry.mode) (typing.dyadic_mode operator x)) }
    ensures depth { result.depth ≡ saturated (depths.above left.entry.depth right.entry.depth) }
    ensures number { result.number ≡ None }
{
    let depth = above(left.depth, right.depth);
    let mode = match left.mode {
        Some(first) => match right.mode {
            Some(second) => dyadic_mode(operator, first, second),
            None => None,
        },
        None => None,
    };
    plain(mode, depth)
}

/// Adds the error point of a division, where it has one.
fn error_point(
    calls: &mut List<CallPoint>,
    below: u16,
    operator: Op2,
    divisor: Option<u16>,
) -> Result<(), Memory>
    ensures { OnOk result (calls.new ≡ calls.old ++ saturated_points (spec.error_points operator divisor below)) }
{
    let safe = match divisor {
        Some(number) => number != 0 && number != 65535,
        None => false,
    };
    if matches!(operator, Op2::Divide | Op2::Mod) && !safe {
        calls.push(CallPoint {
            depth: below,
            args: 1,
            target: Target::Error,
        })?;
    }
    Ok(())
}

/// What is known of what is called.
#[derive(Drop)]
pub(crate) struct Called<'a> {
    mode: Option<ValueMode<'a>>,
    /// The words that it takes below the arguments.
    takes: u16,
    /// The depth of the variable; 0 for a brick.
    depth: u16,
    target: Option<Target>,
}

/// Walks what is called.
#[cycle(walk)]
fn callee<'a>(
    alloc: Global,
    scope: &Scope<'a>,
    calls: &mut List<CallPoint>,
    below: u16,
    called: &Callee,
) -> Result<Called<'a>, Memory>
    ensures called { IfOk result (IsCalled (spec.callee_points (seen.scope scope.now) called.now)) }
    ensures calls { OnOk result (calls.new ≡ calls.old ++ saturated_points ((spec.callee_points (seen.scope scope.now) called.now).points below)) }
{
    match called {
        Callee::Brick(b) => Ok(Called {
            mode: scope.procedure(*b),
            takes: 0,
            depth: 0,
            target: Some(Target::Brick(*b)),
        }),
        Callee::Through(variable) => {
            let variable = value(alloc, scope, calls, below, variable.get())?;
            let target = variable_target(alloc, variable.mode)?;
            Ok(Called {
                mode: variable.mode,
                takes: 1,
                depth: variable.depth,
                target,
            })
        }
    }
}

fn variable_target(alloc: Global, mode: Option<ValueMode<'_>>) -> Result<Option<Target>, Memory>
    ensures { IfOk result (λ t. t ≡ option_map (λ m. target.Variable m) (seen.mode_found mode.entry)) }
{
    match mode {
        Some(mode) => Ok(Some(Target::Variable(copy_value_mode(alloc, &mode)?))),
        None => Ok(None),
    }
}

/// What is known of arguments.
#[derive(Clone, Copy)]
struct Passed {
    /// Whether they suit the parameters.
    suit: bool,
    depth: u16,
}

/// What is known of the arguments so far.
#[derive(Clone, Copy)]
pub(crate) struct Passing<'a> {
    suit: bool,
    depth: u16,
    /// The words below the next one.
    at: u16,
    /// Those of the call itself.
    offset: u16,
    /// The modes of the parameters that are left.
    wanted: &'a [Mode],
}

/// Walks arguments of which the first stands above `at` words, and above `offset` words of the call itself.
#[cycle(walk)]
fn arguments(
    alloc: Global,
    scope: &Scope<'_>,
    calls: &mut List<CallPoint>,
    at: u16,
    offset: u16,
    values: &[Value],
    wanted: &[Mode],
) -> Result<Passed, Memory>
    ensures suit { IfOk result (λ r. r.suit ≡ typing.all_suit wanted.now (spec.values_of (map (spec.value_points (seen.scope scope.now)) values.now))) }
    ensures depth { IfOk result (λ r. r.depth ≡ saturated (depths.arguments_depth offset (typing.terms_of (spec.values_of (map (spec.value_points (seen.scope scope.now)) values.now))))) }
    ensures calls { OnOk result (calls.new ≡ calls.old ++ saturated_points (spec.arguments_points at (map (spec.value_points (seen.scope scope.now)) values.now))) }
{
    let mut passing = Passing {
        suit: true,
        depth: 0,
        at,
        offset,
        wanted,
    };
    for argument in values {
        let found = value(alloc, scope, calls, passing.at, argument)?;
        passing = one_more(passing, found);
    }
    Ok(all_passed(passing))
}

fn all_passed(passing: Passing<'_>) -> Passed
    ensures suit { result.suit ≡ (passing.entry.suit && measures.is_none passing.entry.wanted.now) }
    ensures depth { result.depth ≡ passing.entry.depth }
{
    Passed {
        suit: passing.suit && passing.wanted.is_empty(),
        depth: passing.depth,
    }
}

/// One argument more.
fn one_more<'a>(passing: Passing<'a>, argument: Measured<'_>) -> Passing<'a>
    ensures { (cs ps : List CallPoint) → measures.passing_of result (cs ++ ps) ≡ measures.with_argument (measures.passing_of passing.entry cs) (seen.mode_found argument.entry.mode) argument.entry.number argument.entry.depth ps }
{
    Passing {
        suit: passing.suit && first_suits(&argument, passing.wanted),
        depth: greater(passing.depth, plus(passing.offset, argument.depth)),
        at: plus(passing.at, 1),
        offset: plus(passing.offset, 1),
        wanted: after_first(passing.wanted),
    }
}

fn after_first(modes: &[Mode]) -> &[Mode]
    ensures { result.now ≡ measures.after_first modes.now }
{
    match modes {
        [] => modes,
        [_, rest @ ..] => rest,
    }
}

fn first_suits(value: &Measured<'_>, wanted: &[Mode]) -> bool
    ensures { result ≡ measures.first_suits (seen.mode_found value.now.mode) value.now.number wanted.now }
{
    match wanted {
        [] => false,
        [mode, ..] => match value.mode {
            Some(found) => {
                found.is(mode) || (matches!(mode, Mode::Byte) && is_small(value.number))
            }
            None => false,
        },
    }
}

fn is_small(number: Option<u16>) -> bool
    ensures { result ≡ typing.is_small number }
{
    match number {
        Some(number) => number <= 255,
        None => false,
    }
}

/// Walks the arguments of a call, and adds its own point.
#[cycle(walk)]
fn call<'a>(
    alloc: Global,
    scope: &Scope<'a>,
    calls: &mut List<CallPoint>,
    below: u16,
    called: Called<'a>,
    values: &[Value],
) -> Result<Measured<'a>, Memory>
    ensures mode { IfOk result (λ r. seen.mode_found r.mode ≡ measures.result_mode (seen.mode_found called.entry.mode) (spec.values_of (map (spec.value_points (seen.scope scope.now)) values.now))) }
    ensures depth { IfOk result (λ r. r.depth ≡ measures.call_depth called.entry.depth called.entry.takes (typing.terms_of (spec.values_of (map (spec.value_points (seen.scope scope.now)) values.now)))) }
    ensures number { IfOk result (λ r. r.number ≡ None) }
    ensures calls { OnOk result (calls.new ≡ calls.old ++ saturated_points (spec.arguments_points (below + called.entry.takes) (map (spec.value_points (seen.scope scope.now)) values.now) ++ spec.call_point called.entry.target below (length values.now))) }
{
    let signature = match called.mode {
        Some(mode) => mode.procedure(),
        None => None,
    };
    let at = plus(below, called.takes);
    let found = arguments(
        alloc,
        scope,
        calls,
        at,
        called.takes,
        values,
        parameters_of(&signature),
    )?;
    call_point(calls, called.target, below, values.len())?;
    let mode = match signature {
        Some(signature) if found.suit => signature.answer,
        _ => None,
    };
    Ok(plain(mode, greater(greater(1, called.depth), found.depth)))
}

/// The modes of the parameters; none where nothing is called that has any.
fn parameters_of<'a>(signature: &Option<Signature<'a>>) -> &'a [Mode]
    ensures { result.now ≡ measures.parameters_of (seen.signature signature.now) }
{
    match signature {
        Some(signature) => signature.parameters,
        None => &[],
    }
}

fn call_point(
    calls: &mut List<CallPoint>,
    target: Option<Target>,
    below: u16,
    count: usize,
) -> Result<(), Memory>
    ensures { OnOk result (calls.new ≡ calls.old ++ saturated_points (spec.call_point target below count)) }
{
    match target {
        Some(target) => calls.push(CallPoint {
            depth: below,
            args: word(count),
            target,
        }),
        None => Ok(()),
    }
}
