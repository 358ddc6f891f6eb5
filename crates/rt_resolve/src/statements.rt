//! The plain trees of conditions, statements and bodies.

ghost use Rattle.std.specs.Prelude.{◌≡◌, IfOk, map};
ghost use Rattle.rt_tree_nodes.specs.Code as seen;
ghost use Rattle.rt_tree.specs.Statements as statements;
ghost use Rattle.rt_tree_nodes.specs.Tree as tree;
ghost use Rattle.rt_tree_nodes.specs.Typing as typing;
ghost use Rattle.rt_tree_nodes.specs.declared.statement.Stat.TheVariants as form;
ghost use Rattle.rt_work_state.specs.Nodes as n;
ghost use Rattle.rt_resolve.specs.Trees as trees;

use crate::join::{
    BranchNode, Joins, Line, joined_branches, joined_labels, joined_lines, joined_statements,
    joined_tests,
};
use crate::share::{push_made, shared};
use crate::spot::assigned;
use crate::values::{shared_term, spot};
use rt_tree::{
    Body, Branch, Labelled, LocalStart, Place, Rel, Scope, Stat, Test, Value, found_at, result_of,
};
use rt_words::{List, Memory};
use rt_work_state::{CondNode, SeqNode, StmtNode, TermNode};
use std::alloc::Global;
use std::rc::Rc;

/// The plain tree of a condition.
#[cycle(tests)]
fn cond(alloc: Global, scope: &Scope<'_>, test: &Test) -> Result<CondNode, Memory>
    ensures { IfOk result (λ t. n.cond t ≡ (statements.tested (seen.scope scope.now) test.now).tree) }
{
    match test {
        Test::Compare(relation, left, right) => compare(alloc, scope, *relation, left, right),
        Test::And(tests) => {
            let tests = conds(alloc, scope, tests.as_slice())?;
            joined_tests(alloc, Joins::And, tests)
        }
        Test::Or(tests) => {
            let tests = conds(alloc, scope, tests.as_slice())?;
            joined_tests(alloc, Joins::Or, tests)
        }
    }
}

#[cycle(tests)]
fn conds(alloc: Global, scope: &Scope<'_>, tests: &[Test]) -> Result<List<CondNode>, Memory>
    ensures { IfOk result (λ ts. map n.cond ts ≡ map (trees.test_tree (seen.scope scope.now)) tests.now) }
{
    let mut made = List::new(alloc, tests.len())?;
    for test in tests {
        push_made(&mut made, cond(alloc, scope, test))?;
    }
    Ok(made)
}

fn compare(
    alloc: Global,
    scope: &Scope<'_>,
    relation: Rel,
    left: &Value,
    right: &Value,
) -> Result<CondNode, Memory>
    ensures { IfOk result (λ t. n.cond t ≡ trees.comparison (seen.scope scope.now) relation left.now right.now) }
{
    let left = shared_term(alloc, scope, left)?;
    let right = shared_term(alloc, scope, right)?;
    Ok(CondNode::Is(relation, left, right))
}

/// The plain tree of a body.
#[cycle(bodies)]
pub fn body(alloc: Global, scope: &Scope<'_>, body: &Body) -> Result<SeqNode, Memory>
    ensures { IfOk result (λ q. n.seq q ≡ statements.body_tree (seen.scope scope.now) body.now) }
{
    let lines = sequence(alloc, scope, body.statements.as_slice())?;
    with_starts(alloc, scope, body.locals.as_slice(), lines)
}

#[cycle(bodies)]
fn sequence(alloc: Global, scope: &Scope<'_>, lines: &[Labelled]) -> Result<SeqNode, Memory>
    ensures { IfOk result (λ q. n.seq q ≡ statements.sequence_tree (map (trees.line_tree (seen.scope scope.now)) lines.now)) }
{
    let made = all_lines(alloc, scope, lines)?;
    joined_lines(alloc, made)
}

#[cycle(bodies)]
fn all_lines(alloc: Global, scope: &Scope<'_>, lines: &[Labelled]) -> Result<List<Line>, Memory>
    ensures { IfOk result (λ ls. map trees.row ls ≡ map (trees.row_tree (seen.scope scope.now)) lines.now) }
{
    let mut made = List::new(alloc, lines.len())?;
    for line in lines {
        push_made(&mut made, one_line(alloc, scope, line))?;
    }
    Ok(made)
}

#[cycle(bodies)]
fn one_line(alloc: Global, scope: &Scope<'_>, line: &Labelled) -> Result<Line, Memory>
    ensures { IfOk result (λ l. trees.row l ≡ trees.row_tree (seen.scope scope.now) line.now) }
{
    let labels = line.labels.copy(alloc)?;
    let stat = match &line.stat {
        None => None,
        Some(stat) => Some(statement(alloc, scope, stat)?),
    };
    Ok(Line { labels, stat })
}

#[cycle(bodies)]
fn branches(
    alloc: Global,
    scope: &Scope<'_>,
    branches: &[Branch],
) -> Result<List<BranchNode>, Memory>
    ensures { IfOk result (λ bs. map trees.branch bs ≡ map (trees.branch_tree (seen.scope scope.now)) branches.now) }
{
    let mut made = List::new(alloc, branches.len())?;
    for branch in branches {
        push_made(&mut made, one_branch(alloc, scope, branch))?;
    }
    Ok(made)
}

#[cycle(bodies)]
fn one_branch(alloc: Global, scope: &Scope<'_>, branch: &Branch) -> Result<BranchNode, Memory>
    ensures { IfOk result (λ b. trees.branch b ≡ trees.branch_tree (seen.scope scope.now) branch.now) }
{
    let test = cond(alloc, scope, &branch.test)?;
    let taken = sequence(alloc, scope, branch.taken.as_slice())?;
    Ok(BranchNode { test, taken })
}

/// The plain tree of a statement.
#[cycle(bodies)]
fn statement(alloc: Global, scope: &Scope<'_>, stat: &Stat) -> Result<StmtNode, Memory>
    ensures { IfOk result (λ s. n.stmt s ≡ trees.stat (seen.scope scope.now) stat.now) }
{
    match stat {
        Stat::Call(value) => called(alloc, scope, value),
        Stat::Assign(place, value) => assign(alloc, scope, place, value),
        Stat::Goto(label) => Ok(StmtNode::Goto(*label)),
        Stat::Return(value) => returned(alloc, scope, value),
        Stat::Switch(value, labels) => switch(alloc, scope, value, labels),
        Stat::Block(inner) => block(alloc, scope, inner),
        Stat::If(taken, otherwise) => {
            let taken = branches(alloc, scope, taken.as_slice())?;
            match otherwise {
                None => joined_branches(alloc, taken, SeqNode::Done),
                Some(lines) => {
                    let lines = sequence(alloc, scope, lines.as_slice())?;
                    joined_branches(alloc, taken, lines)
                }
            }
        }
        Stat::For(i, start, step, end, lines) => {
            let lines = sequence(alloc, scope, lines.as_slice())?;
            let head = for_head(alloc, scope, *i, start, step, end)?;
            for_loop(alloc, head, lines)
        }
        Stat::To(i, turns, lines) => {
            let lines = sequence(alloc, scope, lines.as_slice())?;
            to_loop(alloc, scope, *i, turns, lines)
        }
        Stat::While(test, lines) => {
            let lines = sequence(alloc, scope, lines.as_slice())?;
            while_loop(alloc, scope, test, lines)
        }
        Stat::Recover(label) => Ok(StmtNode::Recover(*label)),
    }
}

#[cycle(bodies)]
fn block(alloc: Global, scope: &Scope<'_>, inner: &Body) -> Result<StmtNode, Memory>
    ensures { IfOk result (λ s. n.stmt s ≡ trees.stat (seen.scope scope.now) (form.Block inner.now)) }
{
    let inner = body(alloc, scope, inner)?;
    Ok(StmtNode::Inner(shared(alloc, inner)?))
}

fn to_loop(
    alloc: Global,
    scope: &Scope<'_>,
    local: u16,
    turns: &Value,
    lines: SeqNode,
) -> Result<StmtNode, Memory>
    ensures { IfOk result (λ s. n.stmt s ≡ tree.To local (trees.value_tree (seen.scope scope.now) turns.now) (n.seq lines)) }
{
    let lines = shared(alloc, lines)?;
    let turns = shared_term(alloc, scope, turns)?;
    Ok(StmtNode::To(local, turns, lines))
}

fn while_loop(
    alloc: Global,
    scope: &Scope<'_>,
    test: &Test,
    lines: SeqNode,
) -> Result<StmtNode, Memory>
    ensures { IfOk result (λ s. n.stmt s ≡ tree.While (statements.tested (seen.scope scope.now) test.now).tree (n.seq lines)) }
{
    let lines = shared(alloc, lines)?;
    let test = shared(alloc, cond(alloc, scope, test)?)?;
    Ok(StmtNode::While(test, lines))
}

// A call that stands alone; a result is dropped.
fn called(alloc: Global, scope: &Scope<'_>, value: &Value) -> Result<StmtNode, Memory>
    ensures { IfOk result (λ s. n.stmt s ≡ statements.call_tree (typing.valued (seen.scope scope.now) value.now)) }
{
    let call = shared_term(alloc, scope, value)?;
    Ok(match result_of(scope, value) {
        Some(Some(_)) => StmtNode::Toss(call),
        Some(None) => StmtNode::Run(call),
        None => StmtNode::Run(call),
    })
}

fn assign(
    alloc: Global,
    scope: &Scope<'_>,
    place: &Place,
    value: &Value,
) -> Result<StmtNode, Memory>
    ensures { IfOk result (λ s. n.stmt s ≡ statements.assigned_tree (typing.placed (seen.scope scope.now) place.now) (typing.valued (seen.scope scope.now) value.now).tree) }
{
    let value = shared_term(alloc, scope, value)?;
    let inner = spot(alloc, scope, place)?;
    assigned(alloc, inner, &found_at(scope, place), value)
}

fn returned(alloc: Global, scope: &Scope<'_>, value: &Option<Value>) -> Result<StmtNode, Memory>
    ensures { IfOk result (λ s. n.stmt s ≡ statements.return_tree (seen.scope scope.now) value.now) }
{
    match value {
        None => Ok(StmtNode::Back),
        Some(value) => Ok(StmtNode::GiveBack(shared_term(alloc, scope, value)?)),
    }
}

fn switch(
    alloc: Global,
    scope: &Scope<'_>,
    value: &Value,
    labels: &List<u16>,
) -> Result<StmtNode, Memory>
    ensures { IfOk result (λ s. n.stmt s ≡ trees.switch (seen.scope scope.now) value.now labels.now) }
{
    let value = shared_term(alloc, scope, value)?;
    let labels = shared(alloc, joined_labels(alloc, labels)?)?;
    Ok(StmtNode::Switch(value, labels))
}

// What stands in front of DO in a FOR.
#[derive(Drop)]
struct ForHead {
    local: u16,
    start: Rc<TermNode>,
    step: Rc<TermNode>,
    end: Rc<TermNode>,
}

fn for_head(
    alloc: Global,
    scope: &Scope<'_>,
    local: u16,
    start: &Value,
    step: &Option<Value>,
    end: &Value,
) -> Result<ForHead, Memory>
    ensures local { IfOk result (λ h. h.local ≡ local) }
    ensures start { IfOk result (λ h. n.term h.start.value ≡ trees.value_tree (seen.scope scope.now) start.now) }
    ensures step { IfOk result (λ h. n.term h.step.value ≡ statements.step_tree (seen.scope scope.now) step.now) }
    ensures end { IfOk result (λ h. n.term h.end.value ≡ trees.value_tree (seen.scope scope.now) end.now) }
{
    let start = shared_term(alloc, scope, start)?;
    let step = step_of(alloc, scope, step)?;
    let end = shared_term(alloc, scope, end)?;
    Ok(ForHead {
        local,
        start,
        step,
        end,
    })
}

// The step of a FOR; 1 where it is left out.
fn step_of(alloc: Global, scope: &Scope<'_>, step: &Option<Value>) -> Result<Rc<TermNode>, Memory>
    ensures { IfOk result (λ t. n.term t.value ≡ statements.step_tree (seen.scope scope.now) step.now) }
{
    match step {
        None => shared(alloc, TermNode::Num(1)),
        Some(step) => shared_term(alloc, scope, step),
    }
}

fn for_loop(alloc: Global, head: ForHead, lines: SeqNode) -> Result<StmtNode, Memory>
    ensures { IfOk result (λ s. n.stmt s ≡ tree.For head.local (n.term head.start.value) (n.term head.step.value) (n.term head.end.value) (n.seq lines)) }
{
    let lines = shared(alloc, lines)?;
    let ForHead {
        local,
        start,
        step,
        end,
    } = head;
    Ok(StmtNode::For(local, start, step, end, lines))
}

// The start of a local at each entry.
fn start(alloc: Global, scope: &Scope<'_>, local: &LocalStart) -> Result<StmtNode, Memory>
    ensures { IfOk result (λ s. n.stmt s ≡ trees.start_statement (seen.scope scope.now) local.now) }
{
    match &local.start {
        None => Ok(StmtNode::Clear(local.local)),
        Some(value) => Ok(StmtNode::Keep(local.local, shared_term(alloc, scope, value)?)),
    }
}

// The starts of locals.
fn starts(alloc: Global, scope: &Scope<'_>, locals: &[LocalStart]) -> Result<List<StmtNode>, Memory>
    ensures { IfOk result (λ ss. map n.stmt ss ≡ map (trees.start_statement (seen.scope scope.now)) locals.now) }
{
    let mut made = List::new(alloc, locals.len())?;
    for local in locals {
        push_made(&mut made, start(alloc, scope, local))?;
    }
    Ok(made)
}

// The starts of locals in front of a sequence.
fn with_starts(
    alloc: Global,
    scope: &Scope<'_>,
    locals: &[LocalStart],
    behind: SeqNode,
) -> Result<SeqNode, Memory>
    ensures { IfOk result (λ q. n.seq q ≡ statements.starts_tree (seen.scope scope.now) locals.now (n.seq behind)) }
{
    let made = starts(alloc, scope, locals)?;
    joined_statements(alloc, made, behind)
}
