//! The body of a procedure, and where its labels lead.

ghost use Rattle.std.specs.Prelude.{◌≡◌, ◌==◌, ◌∷◌, [], ℕ, None, IfOk, OnOk, option_map};
ghost use Rattle.rt_work_state.specs.Labels.{lead_from};
ghost use Rattle.rt_work_state.specs.Items as task;
ghost use Rattle.rt_work_state.specs.Nodes as n;

use crate::copies::copy_todo;
use crate::node::{SeqNode, StmtNode};
use crate::scene::Item;
use crate::stack::Stack;
use indexmap::IndexMap;
use rt_words::Memory;
use std::alloc::Global;
use std::marker::Model;
use std::rc::Rc;

/// What is to be done from each label on, by the label's number.
type Leads = IndexMap<u16, Stack<Item>>;

/// The body of a procedure: contracts see its tree. Where each of its labels leads is found once, when it is made.
#[derive(Drop)]
pub struct Body {
    tree: Rc<SeqNode>,
    leads: Leads,
}

impl Model for Body {
    ghost use Rattle.std.specs.Prelude.{◌≡◌, ◌∷◌, [], ℕ};
    ghost use Rattle.std.specs.Coded.{codes};
    ghost use Rattle.rt_work_state.specs.declared.node.SeqNode.{SeqNode};
    ghost use Rattle.rt_modes.specs.contracts.mode.Mode as modes;
    ghost use Rattle.rt_work_state.specs.contracts.node.TermNode as terms;
    ghost use Rattle.rt_work_state.specs.contracts.node.CondNode as conditions;
    ghost use Rattle.rt_work_state.specs.contracts.node.LabelsNode as labels;
    ghost use Rattle.rt_work_state.specs.contracts.node.SeqNode as sequences;
    ghost use Rattle.rt_work_state.specs.Labels.{lead_from};
    ghost use Rattle.rt_work_state.specs.Items as task;
    ghost use Rattle.rt_work_state.specs.Nodes as n;

    ghost Value = { SeqNode };

    ghost coded = { Prim.hlevel (codes, modes.the_row.coded, terms.the_row.coded, conditions.the_row.coded, labels.the_row.coded, sequences.the_row.coded) };

    ghost view = { λ b. b.tree.value };

    ghost invariant = { λ b. (label : ℕ) → lead_from b.leads label ≡ task.from_label label (n.seq b.tree.value) (task.Leave ∷ []) };
}

impl Body {
    /// The body with this tree: one walk over it.
    pub fn new(alloc: Global, tree: SeqNode) -> Result<Body, Memory>
        ensures { IfOk result (λ b. b ≡ tree) }
    {
        let Ok(tree) = Rc::new(alloc, tree) else {
            return Err(Memory);
        };
        let mut leads = IndexMap::new(alloc);
        let mut todo = Stack::new(alloc);
        todo.push(Item::Leave)?;
        add_labels(alloc, &tree, &mut todo, &mut leads)?;
        Ok(Body { tree, leads })
    }

    /// All that is to be done in an activation.
    pub fn begin(&self, alloc: Global) -> Result<Stack<Item>, Memory>
        ensures { IfOk result (λ todo. n.items todo ≡ task.Do (n.seq self.now) ∷ task.Leave ∷ []) }
    {
        let mut todo = Stack::new(alloc);
        todo.push(Item::Leave)?;
        todo.push(Item::Do(self.tree.clone()?))?;
        Ok(todo)
    }

    /// What is to be done from a label on, where the body has it. It takes as long as there is to be done, whatever stands
    /// before the label.
    pub fn from_label(&self, alloc: Global, label: u16) -> Result<Option<Stack<Item>>, Memory>
        ensures { IfOk result (λ todo. option_map n.items todo ≡ task.from_label label (n.seq self.now) (task.Leave ∷ [])) }
    {
        match self.leads.get(&label) {
            Some(todo) => Ok(Some(copy_todo(alloc, todo)?)),
            None => Ok(None),
        }
    }
}

/// Adds the labels of a sequence behind which this is to be done. It recurses as deep as statements are nested, and not along
/// the sequence.
#[cycle(label)]
#[tactic(auto, using(crate::proofs::Firsts::or_else_twice))]
fn add_labels(
    alloc: Global,
    q: &SeqNode,
    todo: &mut Stack<Item>,
    leads: &mut Leads,
) -> Result<(), Memory>
    ensures todo { OnOk result (todo.new ≡ todo.old) }
    ensures leads { OnOk result ((label : ℕ) → lead_from leads.new label ≡ task.or_else (lead_from leads.old label) (task.from_label label (n.seq q.now) (n.items todo.old))) }
{
    let mut rest = q;
    loop {
        match rest {
            SeqNode::Done => return Ok(()),
            SeqNode::Mark(label, behind) => {
                add_label(alloc, *label, behind, todo, leads)?;
                rest = behind;
            }
            SeqNode::Then(s, behind) => {
                add_before(alloc, s, behind, todo, leads)?;
                rest = behind;
            }
        }
    }
}

/// Adds the labels inside a statement, behind which a sequence is to be done.
#[cycle(label)]
fn add_before(
    alloc: Global,
    s: &StmtNode,
    behind: &Rc<SeqNode>,
    todo: &mut Stack<Item>,
    leads: &mut Leads,
) -> Result<(), Memory>
    ensures todo { OnOk result (todo.new ≡ todo.old) }
    ensures leads { OnOk result ((label : ℕ) → lead_from leads.new label ≡ task.or_else (lead_from leads.old label) (task.from_inside label (n.stmt s.now) (task.Do (n.seq behind.now.value) ∷ n.items todo.old))) }
{
    todo.push(Item::Do(behind.clone()?))?;
    add_inside(alloc, s, todo, leads)?;
    let _ = todo.pop();
    Ok(())
}

/// Adds the labels inside a statement.
#[cycle(label)]
#[tactic(auto, using(crate::proofs::Firsts::or_else_twice))]
fn add_inside(
    alloc: Global,
    s: &StmtNode,
    todo: &mut Stack<Item>,
    leads: &mut Leads,
) -> Result<(), Memory>
    ensures todo { OnOk result (todo.new ≡ todo.old) }
    ensures leads { OnOk result ((label : ℕ) → lead_from leads.new label ≡ task.or_else (lead_from leads.old label) (task.from_inside label (n.stmt s.now) (n.items todo.old))) }
{
    match s {
        StmtNode::Inner(q) => add_labels(alloc, q, todo, leads),
        StmtNode::If(_, a, b) => {
            add_turned(alloc, Item::PastElse, a, todo, leads)?;
            add_labels(alloc, b, todo, leads)
        }
        StmtNode::For(i, _, _, _, q) => {
            add_turned(alloc, Item::TurnFor(*i, q.clone()?), q, todo, leads)
        }
        StmtNode::To(i, _, q) => { add_turned(alloc, Item::TurnTo(*i, q.clone()?), q, todo, leads) }
        StmtNode::While(t, q) => {
            add_turned(alloc, Item::Again(t.clone()?, q.clone()?), q, todo, leads)
        }
        _ => Ok(()),
    }
}

/// Adds the labels of a sequence on whose end there is a further thing to do.
#[cycle(label)]
fn add_turned(
    alloc: Global,
    after: Item,
    q: &SeqNode,
    todo: &mut Stack<Item>,
    leads: &mut Leads,
) -> Result<(), Memory>
    ensures todo { OnOk result (todo.new ≡ todo.old) }
    ensures leads { OnOk result ((label : ℕ) → lead_from leads.new label ≡ task.or_else (lead_from leads.old label) (task.from_label label (n.seq q.now) (n.item after ∷ n.items todo.old))) }
{
    todo.push(after)?;
    add_labels(alloc, q, todo, leads)?;
    let _ = todo.pop();
    Ok(())
}

/// Adds a label, where none of its number is there.
fn add_label(
    alloc: Global,
    label: u16,
    rest: &Rc<SeqNode>,
    todo: &Stack<Item>,
    leads: &mut Leads,
) -> Result<(), Memory>
    ensures { OnOk result ((l : ℕ) → lead_from leads.new l ≡ task.or_else (lead_from leads.old l) (task.here_or (label == l) (task.Do (n.seq rest.now.value) ∷ n.items todo.now) None)) }
{
    if leads.contains_key(&label) {
        return Ok(());
    }
    let mut from = copy_todo(alloc, todo)?;
    from.push(Item::Do(rest.clone()?))?;
    match leads.insert(label, from) {
        Ok(_) => Ok(()),
        Err(_) => Err(Memory),
    }
}
