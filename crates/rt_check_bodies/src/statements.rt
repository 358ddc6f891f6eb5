//! Bodies, sequences and statements.

ghost use Rattle.std.specs.Prelude.{◌≡◌, [], map, option_map, IfOk, OnOk};
ghost use Rattle.rt_check_bodies.specs.Parts.{Gave};
ghost use Rattle.rt_check_bodies.specs.Statements as spec;

use crate::answer::Answer;
use crate::locals::declarations;
use crate::nested::{for_loop, if_else, to_loop, while_loop};
use crate::pairs::both;
use crate::plain::{for_head, goto, returned, switch, to_head};
use crate::sequences::add_all_labels;
use crate::{Names, Tally, numbers_from};
use rt_exprs::Level;
use rt_syntax::{Body, Branch, Simple, Stmt};
use rt_tree_nodes::{Body as BodyMade, Branch as BranchMade, Labelled, Stat};
use rt_words::{List, Memory};
use std::alloc::Global;

/// A body, which opens a level for its locals.
#[cycle(bodies)]
pub fn body<'a>(
    alloc: Global,
    names: &mut Names<'a>,
    tally: &mut Tally,
    answer: &Answer,
    body: &'a Body,
) -> Result<BodyMade, Memory>
    ensures made { IfOk result (λ x. Gave x tally.new (spec.body answer.now body.now names.old tally.old)) }
    ensures kept { OnOk result (names.new ≡ names.old) }
{
    names.enter(Level::new(alloc))?;
    let locals = declarations(alloc, names, tally, body.locals.as_slice())?;
    let statements = sequence(alloc, names, tally, answer, body.statements.as_slice())?;
    names.leave();
    Ok(BodyMade { locals, statements })
}

/// A sequence, which opens a level for its labels.
#[cycle(bodies)]
fn sequence<'a>(
    alloc: Global,
    names: &mut Names<'a>,
    tally: &mut Tally,
    answer: &Answer,
    statements: &'a [Stmt],
) -> Result<List<Labelled>, Memory>
    ensures made { IfOk result (λ x. Gave x tally.new (spec.sequence names.old (map (spec.line answer.now) statements.now) tally.old)) }
    ensures kept { OnOk result (names.new ≡ names.old) }
{
    let first = tally.labels;
    let mut level = Level::new(alloc);
    add_all_labels(&mut level, tally, statements)?;
    names.enter(level)?;
    let made = in_order(alloc, names, tally, answer, first, statements)?;
    names.leave();
    Ok(made)
}

/// The statements of a sequence, of which the first label has the number `first`.
#[cycle(bodies)]
fn in_order<'a>(
    alloc: Global,
    names: &mut Names<'a>,
    tally: &mut Tally,
    answer: &Answer,
    first: u16,
    statements: &'a [Stmt],
) -> Result<List<Labelled>, Memory>
    ensures made { IfOk result (λ x. Gave x tally.new (spec.in_order names.old first [] (map (spec.line answer.now) statements.now) tally.old)) }
    ensures kept { OnOk result (names.new ≡ names.old) }
{
    let mut made = List::new(alloc, statements.len())?;
    let mut next = first;
    for statement in statements {
        let (labels, after) = numbers_from(alloc, next, statement.labels.as_slice())?;
        let stat = any_stat(alloc, names, tally, answer, &statement.simple)?;
        made.push(Labelled { labels, stat })?;
        next = after;
    }
    Ok(made)
}

#[cycle(bodies)]
fn any_stat<'a>(
    alloc: Global,
    names: &mut Names<'a>,
    tally: &mut Tally,
    answer: &Answer,
    simple: &'a Option<Simple>,
) -> Result<Option<Stat>, Memory>
    ensures made { IfOk result (λ x. Gave x tally.new (spec.any_stat answer.now (option_map (spec.stat answer.now) simple.now) names.old tally.old)) }
    ensures kept { OnOk result (names.new ≡ names.old) }
{
    match simple {
        None => Ok(None),
        Some(simple) => {
            let stat = statement(alloc, names, tally, answer, simple)?;
            Ok(Some(stat))
        }
    }
}

/// A statement.
#[cycle(bodies)]
fn statement<'a>(
    alloc: Global,
    names: &mut Names<'a>,
    tally: &mut Tally,
    answer: &Answer,
    simple: &'a Simple,
) -> Result<Stat, Memory>
    ensures made { IfOk result (λ x. Gave x tally.new (spec.stat answer.now simple.now names.old tally.old)) }
    ensures kept { OnOk result (names.new ≡ names.old) }
{
    match simple {
        Simple::Call(chain) => tally.stat_or(names.call(alloc, chain)),
        Simple::Assign(to, from, _) => tally.stat_or(names.assignment(alloc, to, from)),
        Simple::AssignVal(to, from, at) => {
            tally.stat_or(names.val_assignment(alloc, *at, to, from))
        }
        Simple::Goto(name, _) => goto(names, tally, name),
        Simple::Return(value, at) => tally.return_or(returned(alloc, names, answer, value, *at)),
        Simple::Switch(value, labels, _) => switch(alloc, names, tally, value, labels.as_slice()),
        Simple::Block(inner, _) => {
            let inner = body(alloc, names, tally, answer, inner)?;
            Ok(Stat::Block(inner))
        }
        Simple::If(tests, otherwise, _) => {
            let tests = branches(alloc, names, tally, answer, tests.as_slice())?;
            match otherwise {
                None => Ok(Stat::If(tests, None)),
                Some(otherwise) => {
                    let made = sequence(alloc, names, tally, answer, otherwise.as_slice());
                    if_else(tests, made)
                }
            }
        }
        Simple::For(control, limit, repeated, _) => match control {
            None => {
                let head = to_head(alloc, names, tally, limit)?;
                let repeated = sequence(alloc, names, tally, answer, repeated.as_slice());
                to_loop(head, repeated)
            }
            Some(control) => {
                let head = for_head(alloc, names, tally, control, limit)?;
                let repeated = sequence(alloc, names, tally, answer, repeated.as_slice());
                for_loop(names, head, repeated)
            }
        },
        Simple::While(condition, repeated, _) => {
            let test = tally.test_or(names.test(alloc, condition))?;
            let repeated = sequence(alloc, names, tally, answer, repeated.as_slice());
            while_loop(test, repeated)
        }
    }
}

/// The branches of an IF.
#[cycle(bodies)]
fn branches<'a>(
    alloc: Global,
    names: &mut Names<'a>,
    tally: &mut Tally,
    answer: &Answer,
    branches: &'a [Branch],
) -> Result<List<BranchMade>, Memory>
    ensures made { IfOk result (λ x. Gave x tally.new (spec.branches names.old [] (map (spec.branch answer.now) branches.now) tally.old)) }
    ensures kept { OnOk result (names.new ≡ names.old) }
{
    let mut made = List::new(alloc, branches.len())?;
    for branch in branches {
        let branch = one_branch(alloc, names, tally, answer, branch)?;
        made.push(branch)?;
    }
    Ok(made)
}

/// A branch of an IF.
#[cycle(bodies)]
fn one_branch<'a>(
    alloc: Global,
    names: &mut Names<'a>,
    tally: &mut Tally,
    answer: &Answer,
    branch: &'a Branch,
) -> Result<BranchMade, Memory>
    ensures made { IfOk result (λ x. Gave x tally.new (spec.branch answer.now branch.now names.old tally.old)) }
    ensures kept { OnOk result (names.new ≡ names.old) }
{
    let test = tally.test_or(names.test(alloc, &branch.test))?;
    let taken = sequence(alloc, names, tally, answer, branch.taken.as_slice());
    let (test, taken) = both(test, taken)?;
    Ok(BranchMade { test, taken })
}
