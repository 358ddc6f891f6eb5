//! The plain trees of places, values and calls.

ghost use Rattle.std.specs.Prelude.{◌≡◌, IfOk, List, map};
ghost use Rattle.rt_tree_nodes.specs.Code as seen;
ghost use Rattle.rt_tree_nodes.specs.Tree as tree;
ghost use Rattle.rt_tree_nodes.specs.Typing as typing;
ghost use Rattle.rt_work_state.specs.Nodes as n;
ghost use Rattle.rt_resolve.specs.Trees as trees;

use crate::join::joined_terms;
use crate::share::{beside_made, both, both_made, push_made, shared};
use crate::spot::{Spot, element, field, led, length, read, reference};
use rt_modes::Mode;
use rt_tree::{Callee, Found, Op1, Op2, Place, Scope, Value, ValueMode, found_at, mode_of};
use rt_tree_nodes::copy_value_mode;
use rt_words::{List, Memory};
use rt_work_state::{PathNode, TermNode, TermsNode};
use std::alloc::Global;
use std::rc::Rc;

/// The plain tree of a place.
#[cycle(values)]
pub fn spot(alloc: Global, scope: &Scope<'_>, place: &Place) -> Result<Spot, Memory>
    ensures { IfOk result (λ s. trees.spot s ≡ (typing.placed (seen.scope scope.now) place.now).tree) }
{
    match place {
        Place::Local(i) => Ok(Spot::Local(*i)),
        Place::Item(b, j) => Ok(Spot::Path(PathNode::ItemAt(*b, *j))),
        Place::Svc(k) => Ok(Spot::Path(PathNode::Svc(*k))),
        Place::Field(record, k) => {
            let record = record.get();
            let inner = spot(alloc, scope, record);
            field_of(alloc, inner, &found_at(scope, record), *k)
        }
        Place::Element(array, subscript) => {
            let subscript = term(alloc, scope, subscript.get())?;
            let array = array.get();
            let inner = spot(alloc, scope, array);
            element_of(alloc, inner, &found_at(scope, array), subscript)
        }
        Place::Through(reference) => {
            let reference = reference.get();
            let value = term(alloc, scope, reference);
            led_by(alloc, &mode_of(scope, reference), value)
        }
    }
}

/// The plain tree of a value.
#[cycle(values)]
pub fn term(alloc: Global, scope: &Scope<'_>, value: &Value) -> Result<TermNode, Memory>
    ensures { IfOk result (λ t. n.term t ≡ (typing.valued (seen.scope scope.now) value.now).tree) }
{
    match value {
        Value::Number(k) => Ok(TermNode::Num(*k)),
        Value::Text(k) => Ok(TermNode::Str(*k)),
        Value::Proc(b) => Ok(TermNode::Name(*b)),
        Value::Read(place) => {
            let place = place.get();
            let inner = spot(alloc, scope, place);
            read_at(alloc, inner, &found_at(scope, place))
        }
        Value::Reference(place) => {
            let place = place.get();
            let inner = spot(alloc, scope, place);
            reference_to(alloc, inner, &found_at(scope, place))
        }
        Value::Length(place) => {
            let place = place.get();
            let inner = spot(alloc, scope, place);
            length_of(alloc, inner, &found_at(scope, place))
        }
        Value::Monadic(operator, operand) => {
            monadic(alloc, *operator, term(alloc, scope, operand.get()))
        }
        Value::Dyadic(operator, left, right) => {
            let left = term(alloc, scope, left.get())?;
            dyadic(alloc, *operator, left, term(alloc, scope, right.get()))
        }
        Value::Call(callee, arguments) => {
            let arguments = arguments_of(alloc, scope, arguments.as_slice())?;
            call(alloc, scope, callee, arguments)
        }
    }
}

/// The plain trees of arguments.
#[cycle(values)]
fn arguments_of(alloc: Global, scope: &Scope<'_>, values: &[Value]) -> Result<TermsNode, Memory>
    ensures { IfOk result (λ ts. n.terms ts ≡ typing.terms_of (map (typing.valued (seen.scope scope.now)) values.now)) }
{
    joined(alloc, terms(alloc, scope, values))
}

/// The plain trees of values.
#[cycle(values)]
fn terms(alloc: Global, scope: &Scope<'_>, values: &[Value]) -> Result<List<TermNode>, Memory>
    ensures { IfOk result (λ ts. map n.term ts ≡ map (trees.value_tree (seen.scope scope.now)) values.now) }
{
    let mut made = List::new(alloc, values.len())?;
    for value in values {
        push_made(&mut made, term(alloc, scope, value))?;
    }
    Ok(made)
}

/// The plain tree of a call.
#[cycle(values)]
fn call(
    alloc: Global,
    scope: &Scope<'_>,
    callee: &Callee,
    arguments: TermsNode,
) -> Result<TermNode, Memory>
    ensures { IfOk result (λ t. n.term t ≡ (typing.called (seen.scope scope.now) callee.now).tree (n.terms arguments)) }
{
    match callee {
        Callee::Brick(b) => apply(alloc, *b, arguments),
        Callee::Through(value) => {
            let value = value.get();
            let procedure = term(alloc, scope, value);
            call_by(alloc, &mode_of(scope, value), procedure, arguments)
        }
    }
}

/// The plain tree of a value, shared.
pub fn shared_term(alloc: Global, scope: &Scope<'_>, value: &Value) -> Result<Rc<TermNode>, Memory>
    ensures { IfOk result (λ t. n.term t.value ≡ trees.value_tree (seen.scope scope.now) value.now) }
{
    let value = term(alloc, scope, value)?;
    shared(alloc, value)
}

// ---- what is made of the trees of the parts, where these were made

fn field_of(
    alloc: Global,
    inner: Result<Spot, Memory>,
    found: &Option<Found<'_>>,
    k: u16,
) -> Result<Spot, Memory>
    ensures { (p : typing.Placed) → seen.place_found found.now ≡ p.found → IfOk inner (λ s. trees.spot s ≡ p.tree) → IfOk result (λ s. trees.spot s ≡ typing.field_tree p k) }
{
    match inner {
        Ok(inner) => field(alloc, inner, found, k),
        Err(memory) => Err(memory),
    }
}

fn element_of(
    alloc: Global,
    array: Result<Spot, Memory>,
    found: &Option<Found<'_>>,
    subscript: TermNode,
) -> Result<Spot, Memory>
    ensures { (p : typing.Placed) (x : tree.Term) → seen.place_found found.now ≡ p.found → IfOk array (λ s. trees.spot s ≡ p.tree) → n.term subscript ≡ x → IfOk result (λ s. trees.spot s ≡ typing.element_in p.found p.tree x) }
{
    let (subscript, array) = beside_made(alloc, subscript, array)?;
    element(alloc, array, found, subscript)
}

fn led_by(
    alloc: Global,
    mode: &Option<ValueMode<'_>>,
    reference: Result<TermNode, Memory>,
) -> Result<Spot, Memory>
    ensures { (v : typing.Valued) → seen.mode_found mode.now ≡ v.mode → IfOk reference (λ t. n.term t ≡ v.tree) → IfOk result (λ s. trees.spot s ≡ typing.led_tree v.mode v.tree) }
{
    match reference {
        Ok(reference) => led(alloc, mode, reference),
        Err(memory) => Err(memory),
    }
}

fn read_at(
    alloc: Global,
    place: Result<Spot, Memory>,
    found: &Option<Found<'_>>,
) -> Result<TermNode, Memory>
    ensures { (p : typing.Placed) → seen.place_found found.now ≡ p.found → IfOk place (λ s. trees.spot s ≡ p.tree) → IfOk result (λ t. n.term t ≡ typing.read_tree p) }
{
    match place {
        Ok(place) => read(alloc, place, found),
        Err(memory) => Err(memory),
    }
}

fn reference_to(
    alloc: Global,
    place: Result<Spot, Memory>,
    found: &Option<Found<'_>>,
) -> Result<TermNode, Memory>
    ensures { (p : typing.Placed) → seen.place_found found.now ≡ p.found → IfOk place (λ s. trees.spot s ≡ p.tree) → IfOk result (λ t. n.term t ≡ typing.reference_tree p) }
{
    match place {
        Ok(place) => reference(alloc, place, found),
        Err(memory) => Err(memory),
    }
}

fn length_of(
    alloc: Global,
    place: Result<Spot, Memory>,
    found: &Option<Found<'_>>,
) -> Result<TermNode, Memory>
    ensures { (p : typing.Placed) → seen.place_found found.now ≡ p.found → IfOk place (λ s. trees.spot s ≡ p.tree) → IfOk result (λ t. n.term t ≡ typing.length_tree p) }
{
    match place {
        Ok(place) => length(alloc, place, found),
        Err(memory) => Err(memory),
    }
}

fn monadic(
    alloc: Global,
    operator: Op1,
    operand: Result<TermNode, Memory>,
) -> Result<TermNode, Memory>
    ensures { (x : tree.Term) → IfOk operand (λ t. n.term t ≡ x) → IfOk result (λ t. n.term t ≡ tree.One operator x) }
{
    Ok(TermNode::One(operator, shared(alloc, operand?)?))
}

fn dyadic(
    alloc: Global,
    operator: Op2,
    left: TermNode,
    right: Result<TermNode, Memory>,
) -> Result<TermNode, Memory>
    ensures { (x y : tree.Term) → n.term left ≡ x → IfOk right (λ t. n.term t ≡ y) → IfOk result (λ t. n.term t ≡ typing.dyadic_tree operator x y) }
{
    let (left, right) = both_made(alloc, left, right)?;
    Ok(match operator {
        Op2::Divide | Op2::Mod => TermNode::Over(operator, left, right),
        _ => TermNode::Two(operator, left, right),
    })
}

fn joined(alloc: Global, terms: Result<List<TermNode>, Memory>) -> Result<TermsNode, Memory>
    ensures { (xs : List tree.Term) → IfOk terms (λ ts. map n.term ts ≡ xs) → IfOk result (λ ts. n.terms ts ≡ trees.build tree.MoreTerms xs tree.NoTerm) }
{
    match terms {
        Ok(terms) => joined_terms(alloc, terms),
        Err(memory) => Err(memory),
    }
}

fn apply(alloc: Global, brick: u16, arguments: TermsNode) -> Result<TermNode, Memory>
    ensures { IfOk result (λ t. n.term t ≡ tree.Apply brick (n.terms arguments)) }
{
    Ok(TermNode::Apply(brick, shared(alloc, arguments)?))
}

// The plain tree of the call of a value.
fn call_by(
    alloc: Global,
    mode: &Option<ValueMode<'_>>,
    procedure: Result<TermNode, Memory>,
    arguments: TermsNode,
) -> Result<TermNode, Memory>
    ensures { (v : typing.Valued) → seen.mode_found mode.now ≡ v.mode → IfOk procedure (λ t. n.term t ≡ v.tree) → IfOk result (λ t. n.term t ≡ tree.ApplyBy (typing.mode_or_int v.mode) v.tree (n.terms arguments)) }
{
    let parts = both_made(alloc, arguments, procedure)?;
    let (parts, mode) = both(parts, mode_or_int(alloc, mode))?;
    let (arguments, procedure) = parts;
    Ok(TermNode::ApplyBy(mode, procedure, arguments))
}

fn mode_or_int(alloc: Global, mode: &Option<ValueMode<'_>>) -> Result<Mode, Memory>
    ensures { IfOk result (λ m. m ≡ typing.mode_or_int (seen.mode_found mode.now)) }
{
    match mode {
        Some(mode) => copy_value_mode(alloc, mode),
        None => Ok(Mode::Int),
    }
}
