// Copies of locations, data and what is still to be done.
ghost use Rattle.std.specs.Prelude.{◌≡◌, IfOk};
ghost use Rattle.rt_work_state.specs.Nodes as n;

use crate::scene::{Item, Scene};
use crate::stack::Stack;
use rt_tree::{Datum, Location};
use rt_words::{List, Memory};
use std::alloc::Global;
use std::rc::Rc;

pub fn copy_location(alloc: Global, location: &Location) -> Result<Location, Memory>
    ensures { IfOk result (λ x. x ≡ location.now) }
{
    match location {
        Location::Shared(origin, path) => Ok(Location::Shared(*origin, path.copy(alloc)?)),
        Location::Own(item) => Ok(Location::Own(*item)),
    }
}

pub fn copy_datum(alloc: Global, datum: &Datum) -> Result<Datum, Memory>
    ensures { IfOk result (λ x. x ≡ datum.now) }
{
    match datum {
        Datum::Word(word) => Ok(Datum::Word(*word)),
        Datum::Reference(location) => Ok(Datum::Reference(copy_location(alloc, location)?)),
        Datum::Row(location, length) => Ok(Datum::Row(copy_location(alloc, location)?, *length)),
        Datum::Procedure(procedure) => Ok(Datum::Procedure(*procedure)),
        Datum::Label(activation, label) => Ok(Datum::Label(*activation, *label)),
        Datum::Truth(truth) => Ok(Datum::Truth(*truth)),
    }
}

pub fn copy_data(alloc: Global, data: &[Datum]) -> Result<List<Datum>, Memory>
    ensures { IfOk result (λ xs. xs ≡ data.now) }
{
    let mut copy = List::new(alloc, data.len())?;
    for datum in data {
        copy.push(copy_datum(alloc, datum)?)?;
    }
    Ok(copy)
}

/// Two nodes that are shared once more.
fn both<A: Drop, B: Drop>(left: &Rc<A>, right: &Rc<B>) -> Result<(Rc<A>, Rc<B>), Memory>
    ensures left { IfOk result (λ x. x.0.value ≡ left.now.value) }
    ensures right { IfOk result (λ x. x.1.value ≡ right.now.value) }
{
    let left = left.clone()?;
    Ok((left, right.clone()?))
}

pub fn copy_item(item: &Item) -> Result<Item, Memory>
    ensures { IfOk result (λ x. n.item x ≡ n.item item.now) }
{
    Ok(match item {
        Item::Do(q) => Item::Do(q.clone()?),
        Item::Eval(v) => Item::Eval(v.clone()?),
        Item::At(p) => Item::At(p.clone()?),
        Item::Args(vs) => Item::Args(vs.clone()?),
        Item::Fetch => Item::Fetch,
        Item::Into(p, k) => Item::Into(p.clone()?, *k),
        Item::Pick(p, k) => Item::Pick(p.clone()?, *k),
        Item::PickRow => Item::PickRow,
        Item::Span(k) => Item::Span(*k),
        Item::Tell(k) => Item::Tell(*k),
        Item::Length => Item::Length,
        Item::Alter(o) => Item::Alter(*o),
        Item::Merge(o) => Item::Merge(*o),
        Item::Split(o) => Item::Split(*o),
        Item::Report(k) => Item::Report(*k),
        Item::Stand(k) => Item::Stand(*k),
        Item::Enter(b, vs) => Item::Enter(*b, vs.clone()?),
        Item::EnterBy(vs) => Item::EnterBy(vs.clone()?),
        Item::Local(i) => Item::Local(*i),
        Item::Save(p, v) => {
            let (p, v) = both(p, v)?;
            Item::Save(p, v)
        }
        Item::Toss => Item::Toss,
        Item::Compare(r, a, b) => {
            let (a, b) = both(a, b)?;
            Item::Compare(*r, a, b)
        }
        Item::Try(t) => Item::Try(t.clone()?),
        Item::AndThen(t) => Item::AndThen(t.clone()?),
        Item::OrElse(t) => Item::OrElse(t.clone()?),
        Item::Choose(a, b) => {
            let (a, b) = both(a, b)?;
            Item::Choose(a, b)
        }
        Item::PastElse => Item::PastElse,
        Item::Decide(t, q) => {
            let (t, q) = both(t, q)?;
            Item::Decide(t, q)
        }
        Item::Again(t, q) => {
            let (t, q) = both(t, q)?;
            Item::Again(t, q)
        }
        Item::CountFor(i, q) => Item::CountFor(*i, q.clone()?),
        Item::TurnFor(i, q) => Item::TurnFor(*i, q.clone()?),
        Item::CountTo(i, q) => Item::CountTo(*i, q.clone()?),
        Item::TurnTo(i, q) => Item::TurnTo(*i, q.clone()?),
        Item::ToLabel(labels) => Item::ToLabel(labels.clone()?),
        Item::GiveUp => Item::GiveUp,
        Item::Leave => Item::Leave,
        Item::Begin(f) => Item::Begin(*f),
        Item::Serve(t) => Item::Serve(*t),
    })
}

pub fn copy_values(alloc: Global, values: &Stack<Datum>) -> Result<Stack<Datum>, Memory>
    ensures { IfOk result (λ xs. xs ≡ values.now) }
{
    let mut copy = Stack::new(alloc);
    let from = values.bottom_up();
    for value in from {
        copy.push(copy_datum(alloc, value)?)?;
    }
    Ok(copy)
}

pub fn copy_todo(alloc: Global, todo: &Stack<Item>) -> Result<Stack<Item>, Memory>
    ensures { IfOk result (λ xs. n.items xs ≡ n.items todo.now) }
{
    let mut copy = Stack::new(alloc);
    let from = todo.bottom_up();
    for item in from {
        copy.push(copy_item(item)?)?;
    }
    Ok(copy)
}

/// A copy that means the same.
pub fn copy_scene(alloc: Global, scene: &Scene) -> Result<Scene, Memory>
    ensures todo { IfOk result (λ x. n.items x.todo ≡ n.items scene.now.todo) }
    ensures values { IfOk result (λ x. x.values ≡ scene.now.values) }
    ensures locals { IfOk result (λ x. x.locals ≡ scene.now.locals) }
{
    Ok(Scene {
        todo: copy_todo(alloc, &scene.todo)?,
        values: copy_values(alloc, &scene.values)?,
        locals: copy_data(alloc, scene.locals.as_slice())?,
    })
}
