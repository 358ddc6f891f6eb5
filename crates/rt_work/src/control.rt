//! Tests, loops, labels and ends: what they leave to be done.

ghost use Rattle.std.specs.Prelude.{◌≡◌, ◌+◌, ◌-◌, ◌<◌, ◌≤◌, suc, IfOk, OnOk, ◌∷◌, slice_get, slice_set};
ghost use Rattle.rt_work_state.specs.Items as state;
ghost use Rattle.rt_work.specs.Task as task;
ghost use Rattle.rt_work_state.specs.Nodes as n;
ghost use Rattle.rt_work.specs.Steps as steps;
ghost use Rattle.rt_tree_nodes.specs.Tree.{Term};
ghost use Rattle.rt_work_state.specs.declared.scene.Env.{Env};

use crate::numbers::{holds, turns, turns_to};
use crate::trees::{Done, give, lacks};
use crate::values::{any, truth, word};
use rt_rules::Svc;
use rt_tree::{Datum, Location, Origin, Rel};
use rt_words::{Memory, wrap_add};
use rt_work_state::{CondNode, Item, LabelsNode, Next, Request, Scene, SeqNode};
use std::rc::Rc;

// ---- tests

fn same_path(p: &[u16], q: &[u16]) -> bool
    ensures { result ≡ task.same_path p.now q.now }
{
    match p {
        [] => q.is_empty(),
        [i, p @ ..] => match q {
            [] => false,
            [j, q @ ..] => *i == *j && same_path(p, q),
        },
    }
}

fn same_origin(o: Origin, r: Origin) -> bool
    ensures { result ≡ task.same_origin o r }
{
    match (o, r) {
        (Origin::Brick(m, b), Origin::Brick(n, c)) => m == n && b == c,
        (Origin::Text(m, b), Origin::Text(n, c)) => m == n && b == c,
        (Origin::Brick(_, _), Origin::Text(_, _)) => false,
        (Origin::Text(_, _), Origin::Brick(_, _)) => false,
    }
}

fn same_location(p: &Location, q: &Location) -> bool
    ensures { result ≡ task.same_location p.now q.now }
{
    match (p, q) {
        (Location::Shared(o, p), Location::Shared(r, q)) => {
            same_origin(*o, *r) && same_path(p.as_slice(), q.as_slice())
        }
        (Location::Own(i), Location::Own(j)) => *i == *j,
        (Location::Shared(_, _), Location::Own(_)) => false,
        (Location::Own(_), Location::Shared(_, _)) => false,
    }
}

fn same_by(relation: Rel, p: &Location, q: &Location) -> bool
    ensures { result ≡ task.same_by relation p.now q.now }
{
    match relation {
        Rel::Same => same_location(p, q),
        _ => !same_location(p, q),
    }
}

fn compared(relation: Rel, a: &Datum, b: &Datum) -> Option<bool>
    ensures { result ≡ task.compared relation a.now b.now }
{
    match (a, b) {
        (Datum::Word(a), Datum::Word(b)) => Some(holds(relation, *a, *b)),
        (Datum::Reference(a), Datum::Reference(b)) => Some(same_by(relation, a, b)),
        (Datum::Row(a, _), Datum::Row(b, _)) => Some(same_by(relation, a, b)),
        _ => None,
    }
}

pub fn compare(scene: &mut Scene, relation: Rel) -> Done
    ensures does { IfOk result (λ o. (e : Env) (a b : Term) → steps.Does e (state.Compare relation a b) scene.old scene.new o) }
    ensures lighter { IfOk result (λ o. (a b : Term) → steps.Lightens (state.Compare relation a b) scene.old scene.new o) }
{
    match any(scene) {
        Some(b) => match any(scene) {
            Some(a) => match compared(relation, &a, &b) {
                Some(c) => give(scene, Datum::Truth(c)),
                None => lacks(),
            },
            None => lacks(),
        },
        None => lacks(),
    }
}

pub fn and_then(scene: &mut Scene, t: Rc<CondNode>) -> Done
    ensures does { IfOk result (λ o. (e : Env) → steps.Does e (state.AndThen (n.cond t.value)) scene.old scene.new o) }
    ensures lighter { IfOk result (λ o. steps.Lightens (state.AndThen (n.cond t.value)) scene.old scene.new o) }
{
    match truth(scene) {
        None => lacks(),
        Some(b) => {
            if b {
                scene.todo.push(Item::Try(t))?;
                Ok(None)
            } else {
                give(scene, Datum::Truth(false))
            }
        }
    }
}

pub fn or_else(scene: &mut Scene, t: Rc<CondNode>) -> Done
    ensures does { IfOk result (λ o. (e : Env) → steps.Does e (state.OrElse (n.cond t.value)) scene.old scene.new o) }
    ensures lighter { IfOk result (λ o. steps.Lightens (state.OrElse (n.cond t.value)) scene.old scene.new o) }
{
    match truth(scene) {
        None => lacks(),
        Some(b) => {
            if b {
                give(scene, Datum::Truth(true))
            } else {
                scene.todo.push(Item::Try(t))?;
                Ok(None)
            }
        }
    }
}

pub fn choose(scene: &mut Scene, a: Rc<SeqNode>, b: Rc<SeqNode>) -> Done
    ensures does { IfOk result (λ o. (e : Env) → steps.Does e (state.Choose (n.seq a.value) (n.seq b.value)) scene.old scene.new o) }
    ensures lighter { IfOk result (λ o. steps.Lightens (state.Choose (n.seq a.value) (n.seq b.value)) scene.old scene.new o) }
{
    match truth(scene) {
        None => lacks(),
        Some(c) => {
            if c {
                then_body(scene, a, Item::PastElse)?;
                Ok(None)
            } else {
                scene.todo.push(Item::Do(b))?;
                Ok(None)
            }
        }
    }
}

// ---- loops

// What stands behind a THEN, or the body of a loop, and on its end a further thing to do.
fn then_body(scene: &mut Scene, q: Rc<SeqNode>, after: Item) -> Result<(), Memory>
    ensures todo { OnOk result (n.items scene.new.todo ≡ state.Do (n.seq q.value) ∷ n.item after ∷ n.items scene.old.todo) }
    ensures values { scene.new.values ≡ scene.old.values }
    ensures locals { scene.new.locals ≡ scene.old.locals }
{
    scene.todo.push(after)?;
    scene.todo.push(Item::Do(q))?;
    Ok(())
}

pub fn decide(scene: &mut Scene, t: Rc<CondNode>, q: Rc<SeqNode>) -> Done
    ensures does { IfOk result (λ o. (e : Env) → steps.Does e (state.Decide (n.cond t.value) (n.seq q.value)) scene.old scene.new o) }
    ensures lighter { IfOk result (λ o. steps.Lightens (state.Decide (n.cond t.value) (n.seq q.value)) scene.old scene.new o) }
{
    match truth(scene) {
        None => lacks(),
        Some(c) => {
            if c {
                let after = Item::Again(t, q.clone()?);
                then_body(scene, q, after)?;
                Ok(None)
            } else {
                Ok(None)
            }
        }
    }
}

pub fn again(scene: &mut Scene, t: Rc<CondNode>, q: Rc<SeqNode>) -> Done
    ensures does { IfOk result (λ o. (e : Env) → steps.Does e (state.Again (n.cond t.value) (n.seq q.value)) scene.old scene.new o) }
    ensures lighter { IfOk result (λ o. steps.Lightens (state.Again (n.cond t.value) (n.seq q.value)) scene.old scene.new o) }
{
    scene.todo.push(Item::Decide(t.clone()?, q))?;
    scene.todo.push(Item::Try(t))?;
    Ok(Some(Next::Jumps))
}

// The first turn of a FOR, where it has one.
fn for_turns(scene: &mut Scene, local: u16, turns: u32, q: Rc<SeqNode>) -> Done
    requires { turns ≤ 65536 }
    ensures does { IfOk result (λ o. (e : Env) → task.counted local turns (λ us ks. task.next (n.env e) (n.items scene.old.todo) us ks) (task.for_body (n.env e) local (n.seq q.value) (n.items scene.old.todo) (λ us ks. task.next (n.env e) (n.items scene.old.todo) us ks)) scene.old.values scene.old.locals ≡ steps.onward e o scene.new.todo scene.new.values scene.new.locals) }
    ensures lighter { IfOk result (λ o. steps.Lightens (state.CountFor local (n.seq q.value)) scene.old scene.new o) }
{
    if turns == 0 {
        return Ok(None);
    }
    scene.set_local(usize::from(local) + 2, Datum::Word((turns - 1) as u16));
    let after = Item::TurnFor(local, q.clone()?);
    then_body(scene, q, after)?;
    Ok(None)
}

// The first turn of a TO, where it has one.
fn to_turns(scene: &mut Scene, local: u16, turns: u16, q: Rc<SeqNode>) -> Done
    ensures does { IfOk result (λ o. (e : Env) → task.counted local turns (λ us ks. task.next (n.env e) (n.items scene.old.todo) us ks) (task.to_body (n.env e) local (n.seq q.value) (n.items scene.old.todo) (λ us ks. task.next (n.env e) (n.items scene.old.todo) us ks)) scene.old.values scene.old.locals ≡ steps.onward e o scene.new.todo scene.new.values scene.new.locals) }
    ensures lighter { IfOk result (λ o. steps.Lightens (state.CountTo local (n.seq q.value)) scene.old scene.new o) }
{
    if turns == 0 {
        return Ok(None);
    }
    scene.set_local(usize::from(local) + 2, Datum::Word(turns - 1));
    let after = Item::TurnTo(local, q.clone()?);
    then_body(scene, q, after)?;
    Ok(None)
}

pub fn count_for(scene: &mut Scene, local: u16, q: Rc<SeqNode>) -> Done
    ensures does { IfOk result (λ o. (e : Env) → steps.Does e (state.CountFor local (n.seq q.value)) scene.old scene.new o) }
    ensures lighter { IfOk result (λ o. steps.Lightens (state.CountFor local (n.seq q.value)) scene.old scene.new o) }
{
    match word(scene) {
        None => lacks(),
        Some(end) => {
            let start = scene.word_at(usize::from(local));
            let step = scene.word_at(usize::from(local) + 1);
            match (start, step) {
                (Some(a), Some(b)) => {
                    let turns = turns(a, b, end);
                    let done = for_turns(scene, local, turns, q)?;
                    Ok(done)
                }
                _ => lacks(),
            }
        }
    }
}

pub fn count_to(scene: &mut Scene, local: u16, q: Rc<SeqNode>) -> Done
    ensures does { IfOk result (λ o. (e : Env) → steps.Does e (state.CountTo local (n.seq q.value)) scene.old scene.new o) }
    ensures lighter { IfOk result (λ o. steps.Lightens (state.CountTo local (n.seq q.value)) scene.old scene.new o) }
{
    match word(scene) {
        None => lacks(),
        Some(k) => {
            let turns = turns_to(k);
            let done = to_turns(scene, local, turns, q)?;
            Ok(done)
        }
    }
}

// The variable of a FOR goes on by its step.
fn stepped(scene: &mut Scene, local: u16)
    ensures todo { scene.new.todo ≡ scene.old.todo }
    ensures values { scene.new.values ≡ scene.old.values }
    ensures locals { scene.new.locals ≡ task.stepped local (state.word_at scene.old.locals local) (state.word_at scene.old.locals (local + 1)) scene.old.locals }
{
    let value = scene.word_at(usize::from(local));
    let step = scene.word_at(usize::from(local) + 1);
    if let (Some(a), Some(b)) = (value, step) {
        scene.set_local(usize::from(local), Datum::Word(wrap_add(a, b)));
    }
}

// A further turn begins with a jump.
fn turn(scene: &mut Scene, local: u16, left: u16, q: Rc<SeqNode>, after: Item) -> Done
    ensures jumps { IfOk result (λ o. o ≡ Some Next.Jumps) }
    ensures todo { OnOk result (n.items scene.new.todo ≡ state.Do (n.seq q.value) ∷ n.item after ∷ n.items scene.old.todo) }
    ensures values { scene.new.values ≡ scene.old.values }
    ensures locals { scene.new.locals ≡ slice_set scene.old.locals (local + 2) (Datum.Word left) }
{
    scene.set_local(usize::from(local) + 2, Datum::Word(left));
    then_body(scene, q, after)?;
    Ok(Some(Next::Jumps))
}

pub fn turn_for(scene: &mut Scene, local: u16, q: Rc<SeqNode>) -> Done
    ensures does { IfOk result (λ o. (e : Env) → steps.Does e (state.TurnFor local (n.seq q.value)) scene.old scene.new o) }
    ensures lighter { IfOk result (λ o. steps.Lightens (state.TurnFor local (n.seq q.value)) scene.old scene.new o) }
{
    match scene.word_at(usize::from(local) + 2) {
        None => lacks(),
        Some(left) => {
            if left == 0 {
                return Ok(None);
            }
            stepped(scene, local);
            let after = Item::TurnFor(local, q.clone()?);
            turn(scene, local, left - 1, q, after)
        }
    }
}

pub fn turn_to(scene: &mut Scene, local: u16, q: Rc<SeqNode>) -> Done
    ensures does { IfOk result (λ o. (e : Env) → steps.Does e (state.TurnTo local (n.seq q.value)) scene.old scene.new o) }
    ensures lighter { IfOk result (λ o. steps.Lightens (state.TurnTo local (n.seq q.value)) scene.old scene.new o) }
{
    match scene.word_at(usize::from(local) + 2) {
        None => lacks(),
        Some(left) => {
            if left == 0 {
                return Ok(None);
            }
            let after = Item::TurnTo(local, q.clone()?);
            turn(scene, local, left - 1, q, after)
        }
    }
}

// ---- labels, ends, services

// The label at a place, from 0. A SWITCH may have as many as a module has items, so it is no recursion.
fn nth_label(labels: &LabelsNode, k: u16) -> Option<u16>
    ensures { result ≡ slice_get (n.labels labels.now) k }
{
    let mut rest = labels;
    let mut before = k;
    while let LabelsNode::MoreLabels(label, behind) = rest {
        if before == 0 {
            return Some(*label);
        }
        before -= 1;
        rest = behind;
    }
    None
}

pub fn to_label(scene: &mut Scene, labels: &LabelsNode) -> Done
    ensures does { IfOk result (λ o. (e : Env) → steps.Does e (state.ToLabel (n.labels labels.now)) scene.old scene.new o) }
    ensures lighter { IfOk result (λ o. steps.Lightens (state.ToLabel (n.labels labels.now)) scene.old scene.new o) }
{
    match word(scene) {
        None => lacks(),
        Some(i) => {
            if i == 0 {
                return Ok(None);
            }
            match nth_label(labels, i - 1) {
                None => Ok(None),
                Some(l) => Ok(Some(Next::Leaps(l))),
            }
        }
    }
}

pub fn give_up(scene: &mut Scene) -> Done
    ensures does { IfOk result (λ o. (e : Env) → steps.Does e state.GiveUp scene.old scene.new o) }
    ensures lighter { IfOk result (λ o. steps.Lightens state.GiveUp scene.old scene.new o) }
{
    match any(scene) {
        Some(v) => Ok(Some(Next::Returns(Some(v)))),
        None => lacks(),
    }
}

fn service(trap: u16, argument: u16) -> Request
    ensures { result ≡ task.service trap argument }
{
    match trap {
        1 => Request::Takes,
        2 => Request::Puts((argument % 256) as u8),
        3 => Request::Rules(Svc::Delay(argument)),
        4 => Request::Rules(Svc::Wait(argument)),
        5 => Request::Rules(Svc::Signal(argument)),
        6 => Request::Rules(Svc::Secure(argument)),
        7 => Request::Rules(Svc::Release(argument)),
        8 => Request::Rules(Svc::Clock),
        9 => Request::Rules(Svc::TaskNo),
        10 => Request::Rules(Svc::Gel(argument)),
        _ => Request::Rules(Svc::End),
    }
}

pub fn serve(scene: &mut Scene, trap: u16) -> Done
    ensures does { IfOk result (λ o. (e : Env) → steps.Does e (state.Serve trap) scene.old scene.new o) }
    ensures lighter { IfOk result (λ o. steps.Lightens (state.Serve trap) scene.old scene.new o) }
{
    match scene.values.pop() {
        None => Ok(Some(Next::Asks(service(trap, 0)))),
        Some(Datum::Word(k)) => Ok(Some(Next::Asks(service(trap, k)))),
        Some(_) => lacks(),
    }
}
