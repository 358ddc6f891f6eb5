//! The invisible work of one activation, up to its next visible step.

ghost use Rattle.std.specs.Prelude.{◌≡◌, ◌<◌, IfOk};
ghost use Rattle.rt_work.specs.Task as task;
ghost use Rattle.rt_work_state.specs.Nodes as n;
ghost use Rattle.rt_work.specs.Steps as steps;

use crate::control::{
    again, and_then, choose, compare, count_for, count_to, decide, give_up, or_else, serve,
    to_label, turn_for, turn_to,
};
use crate::trees::{Done, args, cond, give, path, seq, term};
use crate::values::{
    alter, enter, enter_by, fetch, into, length_of, local, merge, pick, pick_row, report, save,
    span, split, tell, toss,
};
use rt_tree::Datum;
use rt_words::{List, Memory};
use rt_work_state::{Env, Item, Next, Scene};
use std::alloc::Global;

/// The next visible step, after the invisible work before it.
pub fn advance(alloc: Global, env: &Env, scene: &mut Scene) -> Result<Next, Memory>
    ensures { IfOk result (λ o. steps.Advances env.now scene.old scene.new o) }
{
    while let Some(item) = scene.todo.pop() {
        if let Some(next) = one(alloc, env, scene, item)? {
            return Ok(next);
        }
    }
    Ok(Next::Lacks)
}

// Does one thing. The answer is the next visible step, where this thing is one.
fn one(alloc: Global, env: &Env, scene: &mut Scene, item: Item) -> Done
    ensures does { IfOk result (λ o. steps.Does env.now (n.item item) scene.old scene.new o) }
    ensures lighter { IfOk result (λ o. steps.Lightens (n.item item) scene.old scene.new o) }
{
    match item {
        Item::Do(q) => seq(scene, &q),
        Item::Eval(v) => term(alloc, env, scene, &v),
        Item::At(p) => path(alloc, env, scene, &p),
        Item::Args(vs) => args(scene, &vs),
        Item::Fetch => fetch(scene),
        Item::Into(_, k) => into(scene, k),
        Item::Pick(_, k) => pick(scene, k),
        Item::PickRow => pick_row(scene),
        Item::Span(k) => span(scene, k),
        Item::Tell(k) => tell(scene, k),
        Item::Length => length_of(scene),
        Item::Alter(o) => alter(scene, o),
        Item::Merge(o) => merge(scene, o),
        Item::Split(o) => split(scene, o),
        Item::Report(k) => report(alloc, scene, k),
        Item::Stand(k) => give(scene, Datum::Word(k)),
        Item::Enter(b, vs) => enter(alloc, env, scene, b, &vs),
        Item::EnterBy(vs) => enter_by(alloc, scene, &vs),
        Item::Local(i) => local(scene, i),
        Item::Save(_, _) => save(scene),
        Item::Toss => toss(scene),
        Item::Compare(r, _, _) => compare(scene, r),
        Item::Try(t) => cond(scene, &t),
        Item::AndThen(t) => and_then(scene, t),
        Item::OrElse(t) => or_else(scene, t),
        Item::Choose(a, b) => choose(scene, a, b),
        Item::PastElse => Ok(None),
        Item::Decide(t, q) => decide(scene, t, q),
        Item::Again(t, q) => again(scene, t, q),
        Item::CountFor(i, q) => count_for(scene, i, q),
        Item::TurnFor(i, q) => turn_for(scene, i, q),
        Item::CountTo(i, q) => count_to(scene, i, q),
        Item::TurnTo(i, q) => turn_to(scene, i, q),
        Item::ToLabel(labels) => to_label(scene, &labels),
        Item::GiveUp => give_up(scene),
        Item::Leave => Ok(Some(Next::Returns(None))),
        Item::Begin(f) => Ok(Some(Next::Calls(f, List::from_vec(Vec::new(alloc))))),
        Item::Serve(t) => serve(scene, t),
    }
}
