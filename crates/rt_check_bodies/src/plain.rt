//! The parts of statements that hold no statements.

ghost use Rattle.std.specs.Prelude.{◌≡◌, IfOk, OnOk};
ghost use Rattle.rt_tree_nodes.specs.declared.value.Value.{Value};
ghost use Rattle.rt_check_faults.specs.Outcomes.{Outcome, Gives};
ghost use Rattle.rt_check_bodies.specs.Parts.{Gave, three_locals};
ghost use Rattle.rt_exprs.specs.Sights.{within};
ghost use Rattle.rt_check_bodies.specs.Statements as spec;

use crate::answer::Answer;
use crate::pairs::both;
use crate::{Names, Tally, labels_in};
use rt_check_faults::CheckFault;
use rt_exprs::{Level, Meaning};
use rt_grammar::{At, Ident};
use rt_modes::Mode;
use rt_syntax::Control;
use rt_syntax_exprs::Expr;
use rt_tree_nodes::{Stat, Value};
use rt_words::Memory;
use std::alloc::Global;

/// Where a loop starts, by what it goes on, and where it ends.
#[derive(Drop)]
pub struct Bounds {
    pub start: Value,
    pub step: Option<Value>,
    pub end: Value,
}

/// The number of turns of a TO loop, and the first of its locals.
pub fn to_head(
    alloc: Global,
    names: &Names<'_>,
    tally: &mut Tally,
    limit: &Expr,
) -> Result<(Value, u16), Memory>
    ensures { IfOk result (λ x. Gave (x.0, x.1) tally.new (spec.to_head names.now limit.now tally.old)) }
{
    let count = int(alloc, names, tally, limit)?;
    both(count, tally.add_loop())
}

/// The bounds of a FOR loop, and the first of its locals, which is its variable: the level of the loop is open.
pub fn for_head<'a>(
    alloc: Global,
    names: &mut Names<'a>,
    tally: &mut Tally,
    control: &'a Control,
    limit: &Expr,
) -> Result<(Bounds, u16), Memory>
    ensures made { IfOk result (λ x. Gave (x.0, x.1) tally.new (spec.for_head names.old control.now limit.now tally.old)) }
    ensures seen { IfOk result (λ x. names.new ≡ within (spec.variable_of control.now x.1) names.old) }
{
    let bounds = bounds_of(alloc, names, tally, control, limit)?;
    both(bounds, enter_loop(alloc, names, tally, control))
}

/// The bounds of a FOR loop.
fn bounds_of(
    alloc: Global,
    names: &Names<'_>,
    tally: &mut Tally,
    control: &Control,
    limit: &Expr,
) -> Result<Bounds, Memory>
    ensures { IfOk result (λ b. Gave b tally.new (spec.bounds_in names.now control.now limit.now tally.old)) }
{
    let start = int(alloc, names, tally, &control.start)?;
    let (start, behind) = both(start, bounds_behind(alloc, names, tally, control, limit))?;
    let (step, end) = behind;
    Ok(Bounds { start, step, end })
}

/// By what a FOR loop goes on, and where it ends.
fn bounds_behind(
    alloc: Global,
    names: &Names<'_>,
    tally: &mut Tally,
    control: &Control,
    limit: &Expr,
) -> Result<(Option<Value>, Value), Memory>
    ensures { IfOk result (λ x. Gave (x.0, x.1) tally.new (spec.bounds_behind names.now control.now limit.now tally.old)) }
{
    let step = any_int(alloc, names, tally, &control.step)?;
    both(step, int(alloc, names, tally, limit))
}

/// Opens the level of a FOR loop, which has its variable: the first of the three locals of the loop.
fn enter_loop<'a>(
    alloc: Global,
    names: &mut Names<'a>,
    tally: &mut Tally,
    control: &'a Control,
) -> Result<u16, Memory>
    ensures made { IfOk result (λ k. Gave k tally.new (three_locals tally.old)) }
    ensures seen { IfOk result (λ k. names.new ≡ within (spec.variable_of control.now k) names.old) }
{
    let first = tally.add_loop()?;
    let level = level_of(alloc, control, first)?;
    names.enter(level)?;
    Ok(first)
}

fn level_of<'a>(alloc: Global, control: &'a Control, first: u16) -> Result<Level<'a>, Memory>
    ensures { IfOk result (λ level. level ≡ spec.variable_of control.now first) }
{
    let mut level = Level::new(alloc);
    level.declare(control.name.name.as_slice(), Meaning::Loop(first))?;
    Ok(level)
}

/// GOTO.
pub fn goto(names: &Names<'_>, tally: &mut Tally, name: &Ident) -> Result<Stat, Memory>
    ensures { IfOk result (λ x. Gave x tally.new (spec.goto names.now name.now tally.old)) }
{
    let label = tally.label_or(names.label(name))?;
    Ok(Stat::Goto(label))
}

/// SWITCH.
pub fn switch(
    alloc: Global,
    names: &Names<'_>,
    tally: &mut Tally,
    value: &Expr,
    labels: &[Ident],
) -> Result<Stat, Memory>
    ensures { IfOk result (λ x. Gave x tally.new (spec.switch names.now value.now labels.now tally.old)) }
{
    let value = int(alloc, names, tally, value)?;
    let labels = labels_in(alloc, names, tally, labels)?;
    Ok(Stat::Switch(value, labels))
}

/// An expression of which INT is wanted.
pub fn int(
    alloc: Global,
    names: &Names<'_>,
    tally: &mut Tally,
    expr: &Expr,
) -> Result<Value, Memory>
    ensures { IfOk result (λ x. Gave x tally.new (spec.int_in names.now expr.now tally.old)) }
{
    tally.value_or(names.value(alloc, expr, &Mode::Int))
}

fn any_int(
    alloc: Global,
    names: &Names<'_>,
    tally: &mut Tally,
    expr: &Option<Expr>,
) -> Result<Option<Value>, Memory>
    ensures { IfOk result (λ x. Gave x tally.new (spec.any_int_in names.now expr.now tally.old)) }
{
    match expr {
        None => Ok(None),
        Some(expr) => {
            let value = int(alloc, names, tally, expr)?;
            Ok(Some(value))
        }
    }
}

/// A RETURN, which stands at `at`.
pub fn returned(
    alloc: Global,
    names: &Names<'_>,
    answer: &Answer,
    value: &Option<Expr>,
    at: At,
) -> Result<Stat, CheckFault>
    ensures { Gives (λ x. x) result (spec.returned answer.now names.now value.now at) }
{
    match answer {
        Answer::Nothing => match value {
            None => Ok(Stat::Return(None)),
            Some(value) => Err(names.nothing(alloc, value)),
        },
        Answer::Wanted(mode) => match value {
            None => Err(CheckFault::NoResult(at)),
            Some(value) => return_of(names.value(alloc, value, mode)),
        },
        Answer::Unknown => match value {
            None => Ok(Stat::Return(None)),
            Some(value) => Err(names.alone(alloc, value)),
        },
    }
}

fn return_of(value: Result<Value, CheckFault>) -> Result<Stat, CheckFault>
    ensures { (o : Outcome Value) → Gives (λ v. v) value o → Gives (λ x. x) result (spec.return_of o) }
{
    match value {
        Ok(value) => Ok(Stat::Return(Some(value))),
        Err(fault) => Err(fault),
    }
}
