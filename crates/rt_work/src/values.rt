//! What is done to the values of an activation, once its trees have left it to be done.

ghost use Rattle.std.specs.Prelude.{◌≡◌, ◌+◌, ◌<◌, IfOk, OnOk, ◌∷◌, [], ◌++◌, Some, None};
ghost use Rattle.rt_work_state.specs.Items as state;
ghost use Rattle.rt_work.specs.Task as task;
ghost use Rattle.rt_work_state.specs.Stores as stores;
ghost use Rattle.rt_work_state.specs.Nodes as n;
ghost use Rattle.rt_work.specs.Steps as steps;
ghost use Rattle.rt_tree_nodes.specs.Tree.{Path, Term};
ghost use Rattle.rt_work_state.specs.declared.scene.Env.{Env};

use crate::numbers::{Share, divided, one_of, two_of};
use crate::trees::{Done, brick_at, give, lacks};
use rt_tree::{Datum, Location, Op1, Op2, Proc};
use rt_words::{List, Memory};
use rt_work_state::{Env, Item, Next, Scene, TermsNode};
use std::alloc::Global;

/// The last value, where it is a word.
pub fn word(scene: &mut Scene) -> Option<u16>
    ensures value { task.word_on scene.old.values ≡ steps.taken_off result scene.new.values }
    ensures todo { scene.new.todo ≡ scene.old.todo }
    ensures locals { scene.new.locals ≡ scene.old.locals }
{
    match scene.values.pop() {
        Some(Datum::Word(k)) => Some(k),
        _ => None,
    }
}

/// The last value, where it is a place.
pub fn place(scene: &mut Scene) -> Option<Location>
    ensures value { task.place_on scene.old.values ≡ steps.taken_off result scene.new.values }
    ensures todo { scene.new.todo ≡ scene.old.todo }
    ensures locals { scene.new.locals ≡ scene.old.locals }
{
    match scene.values.pop() {
        Some(Datum::Reference(p)) => Some(p),
        _ => None,
    }
}

// The last value, where it is a procedure.
fn proc(scene: &mut Scene) -> Option<Proc>
    ensures value { task.proc_on scene.old.values ≡ steps.taken_off result scene.new.values }
    ensures todo { scene.new.todo ≡ scene.old.todo }
    ensures locals { scene.new.locals ≡ scene.old.locals }
{
    match scene.values.pop() {
        Some(Datum::Procedure(f)) => Some(f),
        _ => None,
    }
}

/// The last value, where it is the answer of a test.
pub fn truth(scene: &mut Scene) -> Option<bool>
    ensures value { task.truth_on scene.old.values ≡ steps.taken_off result scene.new.values }
    ensures todo { scene.new.todo ≡ scene.old.todo }
    ensures locals { scene.new.locals ≡ scene.old.locals }
{
    match scene.values.pop() {
        Some(Datum::Truth(b)) => Some(b),
        _ => None,
    }
}

// The last value, where it is the row of an array.
fn row(scene: &mut Scene) -> Option<(Location, u16)>
    ensures value { task.row_on scene.old.values ≡ steps.taken_off result scene.new.values }
    ensures todo { scene.new.todo ≡ scene.old.todo }
    ensures locals { scene.new.locals ≡ scene.old.locals }
{
    match scene.values.pop() {
        Some(Datum::Row(p, k)) => Some((p, k)),
        _ => None,
    }
}

/// The last value.
pub fn any(scene: &mut Scene) -> Option<Datum>
    ensures value { task.any_on scene.old.values ≡ steps.taken_off result scene.new.values }
    ensures todo { scene.new.todo ≡ scene.old.todo }
    ensures locals { scene.new.locals ≡ scene.old.locals }
{
    scene.values.pop()
}

pub fn fetch(scene: &mut Scene) -> Done
    ensures does { IfOk result (λ o. (e : Env) → steps.Does e state.Fetch scene.old scene.new o) }
    ensures lighter { IfOk result (λ o. steps.Lightens state.Fetch scene.old scene.new o) }
{
    match place(scene) {
        Some(p) => Ok(Some(Next::Reads(p))),
        None => lacks(),
    }
}

fn deeper(location: Location, k: u16) -> Result<Location, Memory>
    ensures { IfOk result (λ x. x ≡ stores.deeper location k) }
{
    match location {
        Location::Shared(origin, path) => {
            let mut path = path;
            path.push(k)?;
            Ok(Location::Shared(origin, path))
        }
        Location::Own(item) => Ok(Location::Own(item)),
    }
}

pub fn into(scene: &mut Scene, k: u16) -> Done
    ensures does { IfOk result (λ o. (e : Env) (p : Path) → steps.Does e (state.Into p k) scene.old scene.new o) }
    ensures lighter { IfOk result (λ o. (p : Path) → steps.Lightens (state.Into p k) scene.old scene.new o) }
{
    match place(scene) {
        Some(p) => {
            let part = deeper(p, k)?;
            give(scene, Datum::Reference(part))
        }
        None => lacks(),
    }
}

// The place of an element of an array of `length` elements, or error 1.
fn picked(scene: &mut Scene, array: Location, subscript: u16, length: u16) -> Done
    ensures does { IfOk result (λ o. (e : Env) → task.picked (λ us ks. task.next (n.env e) (n.items scene.old.todo) us ks) array subscript length scene.old.values scene.old.locals ≡ steps.onward e o scene.new.todo scene.new.values scene.new.locals) }
    ensures todo { IfOk result (λ o. o ≡ None → scene.new.todo ≡ scene.old.todo) }
{
    if 1 <= subscript && subscript <= length {
        let element = deeper(array, subscript - 1)?;
        give(scene, Datum::Reference(element))
    } else {
        Ok(Some(Next::Errors(1)))
    }
}

pub fn pick(scene: &mut Scene, length: u16) -> Done
    ensures does { IfOk result (λ o. (e : Env) (p : Path) → steps.Does e (state.Pick p length) scene.old scene.new o) }
    ensures lighter { IfOk result (λ o. (p : Path) → steps.Lightens (state.Pick p length) scene.old scene.new o) }
{
    match word(scene) {
        Some(subscript) => match place(scene) {
            Some(array) => picked(scene, array, subscript, length),
            None => lacks(),
        },
        None => lacks(),
    }
}

pub fn pick_row(scene: &mut Scene) -> Done
    ensures does { IfOk result (λ o. (e : Env) → steps.Does e state.PickRow scene.old scene.new o) }
    ensures lighter { IfOk result (λ o. steps.Lightens state.PickRow scene.old scene.new o) }
{
    match word(scene) {
        Some(subscript) => match row(scene) {
            Some((array, length)) => picked(scene, array, subscript, length),
            None => lacks(),
        },
        None => lacks(),
    }
}

pub fn span(scene: &mut Scene, length: u16) -> Done
    ensures does { IfOk result (λ o. (e : Env) → steps.Does e (state.Span length) scene.old scene.new o) }
    ensures lighter { IfOk result (λ o. steps.Lightens (state.Span length) scene.old scene.new o) }
{
    match place(scene) {
        Some(p) => give(scene, Datum::Row(p, length)),
        None => lacks(),
    }
}

pub fn tell(scene: &mut Scene, number: u16) -> Done
    ensures does { IfOk result (λ o. (e : Env) → steps.Does e (state.Tell number) scene.old scene.new o) }
    ensures lighter { IfOk result (λ o. steps.Lightens (state.Tell number) scene.old scene.new o) }
{
    match place(scene) {
        Some(_) => give(scene, Datum::Word(number)),
        None => lacks(),
    }
}

pub fn length_of(scene: &mut Scene) -> Done
    ensures does { IfOk result (λ o. (e : Env) → steps.Does e state.Length scene.old scene.new o) }
    ensures lighter { IfOk result (λ o. steps.Lightens state.Length scene.old scene.new o) }
{
    match row(scene) {
        Some((_, length)) => give(scene, Datum::Word(length)),
        None => lacks(),
    }
}

pub fn alter(scene: &mut Scene, operator: Op1) -> Done
    ensures does { IfOk result (λ o. (e : Env) → steps.Does e (state.Alter operator) scene.old scene.new o) }
    ensures lighter { IfOk result (λ o. steps.Lightens (state.Alter operator) scene.old scene.new o) }
{
    match word(scene) {
        Some(a) => give(scene, Datum::Word(one_of(operator, a))),
        None => lacks(),
    }
}

pub fn merge(scene: &mut Scene, operator: Op2) -> Done
    ensures does { IfOk result (λ o. (e : Env) → steps.Does e (state.Merge operator) scene.old scene.new o) }
    ensures lighter { IfOk result (λ o. steps.Lightens (state.Merge operator) scene.old scene.new o) }
{
    match word(scene) {
        Some(b) => match word(scene) {
            Some(a) => {
                let x = two_of(operator, a, b);
                give(scene, Datum::Word(x))
            }
            None => lacks(),
        },
        None => lacks(),
    }
}

// What a division gives; where it fails, ERP is read and called, and then the value is 0.
fn shared(scene: &mut Scene, share: Share) -> Done
    ensures does { IfOk result (λ o. (e : Env) → task.share_then share (n.items scene.old.todo) (λ us ks. task.next (n.env e) (n.items scene.old.todo) us ks) scene.old.values scene.old.locals ≡ steps.onward e o scene.new.todo scene.new.values scene.new.locals) }
    ensures todo { IfOk result (λ o. o ≡ None → scene.new.todo ≡ scene.old.todo) }
{
    match share {
        Share::Gives(k) => give(scene, Datum::Word(k)),
        Share::Fails(k) => {
            scene.todo.push(Item::Stand(0))?;
            scene.todo.push(Item::Report(k))?;
            Ok(Some(Next::Reads(Location::Own(2))))
        }
    }
}

pub fn split(scene: &mut Scene, operator: Op2) -> Done
    ensures does { IfOk result (λ o. (e : Env) → steps.Does e (state.Split operator) scene.old scene.new o) }
    ensures lighter { IfOk result (λ o. steps.Lightens (state.Split operator) scene.old scene.new o) }
{
    match word(scene) {
        Some(b) => match word(scene) {
            Some(a) => shared(scene, divided(operator, a, b)),
            None => lacks(),
        },
        None => lacks(),
    }
}

pub fn report(alloc: Global, scene: &mut Scene, error: u16) -> Done
    ensures does { IfOk result (λ o. (e : Env) → steps.Does e (state.Report error) scene.old scene.new o) }
    ensures lighter { IfOk result (λ o. steps.Lightens (state.Report error) scene.old scene.new o) }
{
    match proc(scene) {
        Some(f) => {
            let mut args = List::new(alloc, 1)?;
            args.push(Datum::Word(error))?;
            Ok(Some(Next::Calls(f, args)))
        }
        None => lacks(),
    }
}

// The last values, as many as these arguments are, the first of them in front.
fn taken(alloc: Global, scene: &mut Scene, vs: &TermsNode) -> Result<List<Datum>, Memory>
    ensures args { IfOk result (λ xs. xs ≡ task.taken (state.how_many (n.terms vs.now)) [] scene.old.values) }
    ensures values { OnOk result (scene.new.values ≡ task.left (state.how_many (n.terms vs.now)) scene.old.values) }
    ensures todo { scene.new.todo ≡ scene.old.todo }
    ensures locals { scene.new.locals ≡ scene.old.locals }
{
    match vs {
        TermsNode::NoTerm => List::new(alloc, 0),
        TermsNode::MoreTerms(_, rest) => match scene.values.pop() {
            None => List::new(alloc, 0),
            Some(v) => {
                let mut args = taken(alloc, scene, rest)?;
                args.push(v)?;
                Ok(args)
            }
        },
    }
}

pub fn enter(alloc: Global, env: &Env, scene: &mut Scene, brick: u16, vs: &TermsNode) -> Done
    ensures does { IfOk result (λ o. steps.Does env.now (state.Enter brick (state.how_many (n.terms vs.now))) scene.old scene.new o) }
    ensures lighter { IfOk result (λ o. steps.Lightens (state.Enter brick (state.how_many (n.terms vs.now))) scene.old scene.new o) }
{
    let args = taken(alloc, scene, vs)?;
    Ok(Some(Next::Calls(brick_at(env, brick), args)))
}

pub fn enter_by(alloc: Global, scene: &mut Scene, vs: &TermsNode) -> Done
    ensures does { IfOk result (λ o. (e : Env) → steps.Does e (state.EnterBy (state.how_many (n.terms vs.now))) scene.old scene.new o) }
    ensures lighter { IfOk result (λ o. steps.Lightens (state.EnterBy (state.how_many (n.terms vs.now))) scene.old scene.new o) }
{
    let args = taken(alloc, scene, vs)?;
    match proc(scene) {
        Some(f) => Ok(Some(Next::Calls(f, args))),
        None => lacks(),
    }
}

pub fn local(scene: &mut Scene, local: u32) -> Done
    ensures does { IfOk result (λ o. (e : Env) → steps.Does e (state.Local local) scene.old scene.new o) }
    ensures lighter { IfOk result (λ o. steps.Lightens (state.Local local) scene.old scene.new o) }
{
    match any(scene) {
        Some(v) => {
            scene.set_local(local as usize, v);
            Ok(None)
        }
        None => lacks(),
    }
}

pub fn save(scene: &mut Scene) -> Done
    ensures does { IfOk result (λ o. (e : Env) (p : Path) (v : Term) → steps.Does e (state.Save p v) scene.old scene.new o) }
    ensures lighter { IfOk result (λ o. (p : Path) (v : Term) → steps.Lightens (state.Save p v) scene.old scene.new o) }
{
    match any(scene) {
        Some(v) => match place(scene) {
            Some(p) => Ok(Some(Next::Writes(p, v))),
            None => lacks(),
        },
        None => lacks(),
    }
}

pub fn toss(scene: &mut Scene) -> Done
    ensures does { IfOk result (λ o. (e : Env) → steps.Does e state.Drop scene.old scene.new o) }
    ensures lighter { IfOk result (λ o. steps.Lightens state.Drop scene.old scene.new o) }
{
    match any(scene) {
        Some(_) => Ok(None),
        None => lacks(),
    }
}
