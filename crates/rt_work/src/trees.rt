//! The trees: what a tree leaves to be done, one level at a time.

ghost use Rattle.std.specs.Prelude.{◌≡◌, ◌+◌, ◌<◌, ◌≤◌, IfOk, OnOk, ◌∷◌};
ghost use Rattle.rt_work_state.specs.Items as task;
ghost use Rattle.rt_work_state.specs.Nodes as n;
ghost use Rattle.rt_work.specs.Steps as steps;
ghost use Rattle.rt_work_state.specs.declared.scene.Env.{Env};

use rt_tree::{Datum, Location, Origin, Proc, Rel};
use rt_words::{List, Memory};
use rt_work_state::{
    CondNode, Env, Item, LabelsNode, Next, PathNode, Scene, SeqNode, StmtNode, TermNode, TermsNode,
    copy_datum,
};
use std::alloc::Global;
use std::rc::Rc;

/// The next visible step, or none where more is to be done before it.
pub type Done = Result<Option<Next>, Memory>;

/// A value is missing or of another kind.
pub fn lacks() -> Done
    ensures { IfOk result (λ o. o ≡ Some Next.Lacks) }
{
    Ok(Some(Next::Lacks))
}

/// Puts a value on the values.
pub fn give(scene: &mut Scene, value: Datum) -> Done
    ensures none { IfOk result (λ o. o ≡ None) }
    ensures values { OnOk result (scene.new.values ≡ value ∷ scene.old.values) }
    ensures todo { scene.new.todo ≡ scene.old.todo }
    ensures locals { scene.new.locals ≡ scene.old.locals }
{
    scene.values.push(value)?;
    Ok(None)
}

// Puts `after` on what is to be done, and on it the evaluation of a value.
fn then_eval(scene: &mut Scene, v: &Rc<TermNode>, after: Item) -> Done
    ensures none { IfOk result (λ o. o ≡ None) }
    ensures todo { OnOk result (n.items scene.new.todo ≡ task.Eval (n.term v.now.value) ∷ n.item after ∷ n.items scene.old.todo) }
    ensures values { scene.new.values ≡ scene.old.values }
    ensures locals { scene.new.locals ≡ scene.old.locals }
{
    scene.todo.push(after)?;
    scene.todo.push(Item::Eval(v.clone()?))?;
    Ok(None)
}

// The same of two values, one after the other.
fn then_both(scene: &mut Scene, a: &Rc<TermNode>, b: &Rc<TermNode>, after: Item) -> Done
    ensures none { IfOk result (λ o. o ≡ None) }
    ensures todo { OnOk result (n.items scene.new.todo ≡ task.Eval (n.term a.now.value) ∷ task.Eval (n.term b.now.value) ∷ n.item after ∷ n.items scene.old.todo) }
    ensures values { scene.new.values ≡ scene.old.values }
    ensures locals { scene.new.locals ≡ scene.old.locals }
{
    then_eval(scene, b, after)?;
    scene.todo.push(Item::Eval(a.clone()?))?;
    Ok(None)
}

// Puts the evaluation of a value on what is to be done.
fn only_eval(scene: &mut Scene, v: &Rc<TermNode>) -> Done
    ensures none { IfOk result (λ o. o ≡ None) }
    ensures todo { OnOk result (n.items scene.new.todo ≡ task.Eval (n.term v.now.value) ∷ n.items scene.old.todo) }
    ensures values { scene.new.values ≡ scene.old.values }
    ensures locals { scene.new.locals ≡ scene.old.locals }
{
    scene.todo.push(Item::Eval(v.clone()?))?;
    Ok(None)
}

// Puts statements on what is to be done.
fn then_do(scene: &mut Scene, q: &Rc<SeqNode>) -> Done
    ensures none { IfOk result (λ o. o ≡ None) }
    ensures todo { OnOk result (n.items scene.new.todo ≡ task.Do (n.seq q.now.value) ∷ n.items scene.old.todo) }
    ensures values { scene.new.values ≡ scene.old.values }
    ensures locals { scene.new.locals ≡ scene.old.locals }
{
    scene.todo.push(Item::Do(q.clone()?))?;
    Ok(None)
}

// Puts `after` on what is to be done, and on it that of a place.
fn then_at(scene: &mut Scene, p: &Rc<PathNode>, after: Item) -> Done
    ensures none { IfOk result (λ o. o ≡ None) }
    ensures todo { OnOk result (n.items scene.new.todo ≡ task.At (n.path p.now.value) ∷ n.item after ∷ n.items scene.old.todo) }
    ensures values { scene.new.values ≡ scene.old.values }
    ensures locals { scene.new.locals ≡ scene.old.locals }
{
    scene.todo.push(after)?;
    scene.todo.push(Item::At(p.clone()?))?;
    Ok(None)
}

// The same of a place and a value.
fn then_place(scene: &mut Scene, p: &Rc<PathNode>, b: &Rc<TermNode>, after: Item) -> Done
    ensures none { IfOk result (λ o. o ≡ None) }
    ensures todo { OnOk result (n.items scene.new.todo ≡ task.At (n.path p.now.value) ∷ task.Eval (n.term b.now.value) ∷ n.item after ∷ n.items scene.old.todo) }
    ensures values { scene.new.values ≡ scene.old.values }
    ensures locals { scene.new.locals ≡ scene.old.locals }
{
    then_eval(scene, b, after)?;
    scene.todo.push(Item::At(p.clone()?))?;
    Ok(None)
}

// The same of the arguments of a call.
fn then_args(scene: &mut Scene, vs: &Rc<TermsNode>, after: Item) -> Done
    ensures none { IfOk result (λ o. o ≡ None) }
    ensures todo { OnOk result (n.items scene.new.todo ≡ task.Args (n.terms vs.now.value) ∷ n.item after ∷ n.items scene.old.todo) }
    ensures values { scene.new.values ≡ scene.old.values }
    ensures locals { scene.new.locals ≡ scene.old.locals }
{
    scene.todo.push(after)?;
    scene.todo.push(Item::Args(vs.clone()?))?;
    Ok(None)
}

// The same of a procedure's value and the arguments of its call.
fn then_call(scene: &mut Scene, f: &Rc<TermNode>, vs: &Rc<TermsNode>, after: Item) -> Done
    ensures none { IfOk result (λ o. o ≡ None) }
    ensures todo { OnOk result (n.items scene.new.todo ≡ task.Eval (n.term f.now.value) ∷ task.Args (n.terms vs.now.value) ∷ n.item after ∷ n.items scene.old.todo) }
    ensures values { scene.new.values ≡ scene.old.values }
    ensures locals { scene.new.locals ≡ scene.old.locals }
{
    then_args(scene, vs, after)?;
    scene.todo.push(Item::Eval(f.clone()?))?;
    Ok(None)
}

// The same of a test.
fn then_test(scene: &mut Scene, t: &Rc<CondNode>, after: Item) -> Done
    ensures none { IfOk result (λ o. o ≡ None) }
    ensures todo { OnOk result (n.items scene.new.todo ≡ task.Try (n.cond t.now.value) ∷ n.item after ∷ n.items scene.old.todo) }
    ensures values { scene.new.values ≡ scene.old.values }
    ensures locals { scene.new.locals ≡ scene.old.locals }
{
    scene.todo.push(after)?;
    scene.todo.push(Item::Try(t.clone()?))?;
    Ok(None)
}

fn into_item(p: &Rc<PathNode>, field: u16) -> Result<Item, Memory>
    ensures { IfOk result (λ i. n.item i ≡ task.Into (n.path p.now.value) field) }
{
    Ok(Item::Into(p.clone()?, field))
}

fn pick_item(p: &Rc<PathNode>, length: u16) -> Result<Item, Memory>
    ensures { IfOk result (λ i. n.item i ≡ task.Pick (n.path p.now.value) length) }
{
    Ok(Item::Pick(p.clone()?, length))
}

fn save_item(p: &Rc<PathNode>, v: &Rc<TermNode>) -> Result<Item, Memory>
    ensures { IfOk result (λ i. n.item i ≡ task.Save (n.path p.now.value) (n.term v.now.value)) }
{
    Ok(Item::Save(p.clone()?, v.clone()?))
}

fn compare_item(relation: Rel, a: &Rc<TermNode>, b: &Rc<TermNode>) -> Result<Item, Memory>
    ensures { IfOk result (λ i. n.item i ≡ task.Compare relation (n.term a.now.value) (n.term b.now.value)) }
{
    Ok(Item::Compare(relation, a.clone()?, b.clone()?))
}

fn choose_item(a: &Rc<SeqNode>, b: &Rc<SeqNode>) -> Result<Item, Memory>
    ensures { IfOk result (λ i. n.item i ≡ task.Choose (n.seq a.now.value) (n.seq b.now.value)) }
{
    Ok(Item::Choose(a.clone()?, b.clone()?))
}

fn decide_item(t: &Rc<CondNode>, q: &Rc<SeqNode>) -> Result<Item, Memory>
    ensures { IfOk result (λ i. n.item i ≡ task.Decide (n.cond t.now.value) (n.seq q.now.value)) }
{
    Ok(Item::Decide(t.clone()?, q.clone()?))
}

fn for_item(local: u16, q: &Rc<SeqNode>) -> Result<Item, Memory>
    ensures { IfOk result (λ i. n.item i ≡ task.CountFor local (n.seq q.now.value)) }
{
    Ok(Item::CountFor(local, q.clone()?))
}

fn to_item(local: u16, q: &Rc<SeqNode>) -> Result<Item, Memory>
    ensures { IfOk result (λ i. n.item i ≡ task.CountTo local (n.seq q.now.value)) }
{
    Ok(Item::CountTo(local, q.clone()?))
}

fn switch_item(labels: &Rc<LabelsNode>) -> Result<Item, Memory>
    ensures { IfOk result (λ i. n.item i ≡ task.ToLabel (n.labels labels.now.value)) }
{
    Ok(Item::ToLabel(labels.clone()?))
}

fn enter_item(brick: u16, vs: &Rc<TermsNode>) -> Result<Item, Memory>
    ensures { IfOk result (λ i. n.item i ≡ task.Enter brick (task.how_many (n.terms vs.now.value))) }
{
    Ok(Item::Enter(brick, vs.clone()?))
}

fn enter_by_item(vs: &Rc<TermsNode>) -> Result<Item, Memory>
    ensures { IfOk result (λ i. n.item i ≡ task.EnterBy (task.how_many (n.terms vs.now.value))) }
{
    Ok(Item::EnterBy(vs.clone()?))
}

/// Statements: the first one, with the others behind it.
pub fn seq(scene: &mut Scene, q: &SeqNode) -> Done
    ensures does { IfOk result (λ o. (e : Env) → steps.Does e (task.Do (n.seq q.now)) scene.old scene.new o) }
    ensures lighter { IfOk result (λ o. steps.Lightens (task.Do (n.seq q.now)) scene.old scene.new o) }
{
    match q {
        SeqNode::Done => Ok(None),
        SeqNode::Then(a, rest) => {
            then_do(scene, rest)?;
            stmt(scene, a)
        }
        SeqNode::Mark(_, rest) => then_do(scene, rest),
    }
}

// A statement, with what is to be done after it already there.
fn stmt(scene: &mut Scene, a: &StmtNode) -> Done
    ensures does { IfOk result (λ o. (e : Env) → steps.Begins e (n.stmt a.now) scene.old scene.new o) }
    ensures lighter { IfOk result (λ o. steps.BeginsLight (n.stmt a.now) scene.old scene.new o) }
{
    match a {
        StmtNode::Keep(i, v) => then_eval(scene, v, Item::Local(u32::from(*i))),
        StmtNode::Clear(i) => {
            scene.set_local(usize::from(*i), Datum::Word(0));
            Ok(None)
        }
        StmtNode::Put(_, p, v) => then_place(scene, p, v, save_item(p, v)?),
        StmtNode::Run(v) => only_eval(scene, v),
        StmtNode::Toss(v) => then_eval(scene, v, Item::Toss),
        StmtNode::Goto(l) => Ok(Some(Next::Leaps(*l))),
        StmtNode::GiveBack(v) => then_eval(scene, v, Item::GiveUp),
        StmtNode::Back => Ok(Some(Next::Returns(None))),
        StmtNode::Switch(v, labels) => then_eval(scene, v, switch_item(labels)?),
        StmtNode::Inner(q) => then_do(scene, q),
        StmtNode::If(t, a, b) => then_test(scene, t, choose_item(a, b)?),
        StmtNode::For(i, a, b, c, q) => loop_from(scene, *i, a, b, c, q),
        StmtNode::To(i, k, q) => then_eval(scene, k, to_item(*i, q)?),
        StmtNode::While(t, q) => then_test(scene, t, decide_item(t, q)?),
        StmtNode::Recover(l) => Ok(Some(Next::Recovers(*l))),
    }
}

// The start, the step and the end of a FOR, in this order.
fn loop_from(
    scene: &mut Scene,
    local: u16,
    start: &Rc<TermNode>,
    step: &Rc<TermNode>,
    end: &Rc<TermNode>,
    q: &Rc<SeqNode>,
) -> Done
    ensures none { IfOk result (λ o. o ≡ None) }
    ensures todo { OnOk result (n.items scene.new.todo ≡ task.Eval (n.term start.now.value) ∷ task.Local local ∷ task.Eval (n.term step.now.value) ∷ task.Local (local + 1) ∷ task.Eval (n.term end.now.value) ∷ task.CountFor local (n.seq q.now.value) ∷ n.items scene.old.todo) }
    ensures values { scene.new.values ≡ scene.old.values }
    ensures locals { scene.new.locals ≡ scene.old.locals }
{
    let after = for_item(local, q)?;
    then_eval(scene, end, after)?;
    then_eval(scene, step, Item::Local(u32::from(local) + 1))?;
    then_eval(scene, start, Item::Local(u32::from(local)))
}

/// A test: its answer goes on the values.
pub fn cond(scene: &mut Scene, t: &CondNode) -> Done
    ensures does { IfOk result (λ o. (e : Env) → steps.Does e (task.Try (n.cond t.now)) scene.old scene.new o) }
    ensures lighter { IfOk result (λ o. steps.Lightens (task.Try (n.cond t.now)) scene.old scene.new o) }
{
    match t {
        CondNode::Is(r, a, b) => then_both(scene, a, b, compare_item(*r, a, b)?),
        CondNode::Both(t, u) => then_test(scene, t, Item::AndThen(u.clone()?)),
        CondNode::Either(t, u) => then_test(scene, t, Item::OrElse(u.clone()?)),
    }
}

/// Where the brick of a number leads.
pub fn brick_at(env: &Env, brick: u16) -> Proc
    ensures { result ≡ n.brick_of env.now brick }
{
    match env.bricks.get(usize::from(brick)) {
        Some(found) => *found,
        None => Proc {
            module: 0,
            brick: 0,
        },
    }
}

// An item of a data brick.
fn item_at(alloc: Global, env: &Env, brick: u16, item: u16) -> Result<Location, Memory>
    ensures { IfOk result (λ x. x ≡ task.item (n.env env.now) brick item) }
{
    let found = brick_at(env, brick);
    let mut path = List::new(alloc, 1)?;
    path.push(item)?;
    Ok(Location::Shared(Origin::Brick(found.module, found.brick), path))
}

// The row of a string.
fn text_at(alloc: Global, env: &Env, text: u16) -> Datum
    ensures { result ≡ task.text (n.env env.now) text }
{
    let path = List::from_vec(Vec::new(alloc));
    let origin = Origin::Text(env.module, text);
    Datum::Row(Location::Shared(origin, path), text_length(env, text))
}

fn text_length(env: &Env, text: u16) -> u16
    ensures { result ≡ n.length_of env.now text }
{
    match env.texts.get(usize::from(text)) {
        Some(length) => *length,
        None => 0,
    }
}

// A parameter or local; one that isn't there holds 0.
fn local_at(alloc: Global, scene: &Scene, local: u16) -> Result<Datum, Memory>
    ensures { IfOk result (λ x. x ≡ task.local scene.now.locals local) }
{
    match scene.locals.get(usize::from(local)) {
        Some(value) => copy_datum(alloc, value),
        None => Ok(Datum::Word(0)),
    }
}

/// A value: it goes on the values.
pub fn term(alloc: Global, env: &Env, scene: &mut Scene, v: &TermNode) -> Done
    ensures does { IfOk result (λ o. steps.Does env.now (task.Eval (n.term v.now)) scene.old scene.new o) }
    ensures lighter { IfOk result (λ o. steps.Lightens (task.Eval (n.term v.now)) scene.old scene.new o) }
{
    match v {
        TermNode::Num(k) => give(scene, Datum::Word(*k)),
        TermNode::Str(k) => give(scene, text_at(alloc, env, *k)),
        TermNode::Name(b) => give(scene, Datum::Procedure(brick_at(env, *b))),
        TermNode::Own(i) => {
            let value = local_at(alloc, scene, *i)?;
            give(scene, value)
        }
        TermNode::Get(_, p) => then_at(scene, p, Item::Fetch),
        TermNode::Ref(p) => {
            scene.todo.push(Item::At(p.clone()?))?;
            Ok(None)
        }
        TermNode::RefRow(p, k) => then_at(scene, p, Item::Span(*k)),
        TermNode::Count(p, k) => then_at(scene, p, Item::Tell(*k)),
        TermNode::CountRow(v) => then_eval(scene, v, Item::Length),
        TermNode::One(o, v) => then_eval(scene, v, Item::Alter(*o)),
        TermNode::Two(o, a, b) => then_both(scene, a, b, Item::Merge(*o)),
        TermNode::Over(o, a, b) => then_both(scene, a, b, Item::Split(*o)),
        TermNode::Apply(b, vs) => then_args(scene, vs, enter_item(*b, vs)?),
        TermNode::ApplyBy(_, f, vs) => then_call(scene, f, vs, enter_by_item(vs)?),
    }
}

/// The arguments of a call, one after the other.
pub fn args(scene: &mut Scene, vs: &TermsNode) -> Done
    ensures does { IfOk result (λ o. (e : Env) → steps.Does e (task.Args (n.terms vs.now)) scene.old scene.new o) }
    ensures lighter { IfOk result (λ o. steps.Lightens (task.Args (n.terms vs.now)) scene.old scene.new o) }
{
    match vs {
        TermsNode::NoTerm => Ok(None),
        TermsNode::MoreTerms(v, rest) => then_eval(scene, v, Item::Args(rest.clone()?)),
    }
}

/// A place: it goes on the values.
pub fn path(alloc: Global, env: &Env, scene: &mut Scene, p: &PathNode) -> Done
    ensures does { IfOk result (λ o. steps.Does env.now (task.At (n.path p.now)) scene.old scene.new o) }
    ensures lighter { IfOk result (λ o. steps.Lightens (task.At (n.path p.now)) scene.old scene.new o) }
{
    match p {
        PathNode::ItemAt(b, i) => {
            let location = item_at(alloc, env, *b, *i)?;
            give(scene, Datum::Reference(location))
        }
        PathNode::Svc(k) => give(scene, Datum::Reference(Location::Own(*k))),
        PathNode::FieldOf(p, _, k) => then_at(scene, p, into_item(p, *k)?),
        PathNode::Elem(p, v, k, _) => then_place(scene, p, v, pick_item(p, *k)?),
        PathNode::ElemRow(a, v, _) => then_both(scene, a, v, Item::PickRow),
        PathNode::Past(v) => only_eval(scene, v),
    }
}
