//! The strings of a body.

ghost use Rattle.std.specs.Prelude.{◌≡◌, map, option_map, OnOk};
ghost use Rattle.rt_syntax.specs.Strings as spec;
ghost use Rattle.rt_syntax.specs.Strings.{text_of};

use crate::{Body, Branch, Control, Local, Locals, Simple, Stmt};
use rt_syntax_exprs::{Chain, Cond, Expr, Link};
use rt_words::{Bytes, List, Memory};

/// A string that stands in an expression: the number of its item, and its bytes.
#[derive(Clone, Copy)]
pub struct Text<'a> {
    pub item: u16,
    pub bytes: &'a Bytes,
}

/// Appends the strings of a body, in the order of their items.
#[cycle(bodies)]
pub fn add_strings<'a>(found: &mut List<Text<'a>>, body: &'a Body) -> Result<(), Memory>
    ensures { OnOk result (map text_of found.new ≡ spec.in_body body.now (map text_of found.old)) }
{
    in_lines(found, body.locals.as_slice())?;
    in_statements(found, body.statements.as_slice())
}

#[cycle(bodies)]
fn in_statements<'a>(found: &mut List<Text<'a>>, statements: &'a [Stmt]) -> Result<(), Memory>
    ensures { OnOk result (map text_of found.new ≡ spec.all (map spec.in_line statements.now) (map text_of found.old)) }
{
    for statement in statements {
        if let Some(simple) = &statement.simple {
            in_simple(found, simple)?;
        }
    }
    Ok(())
}

#[cycle(bodies)]
fn in_simple<'a>(found: &mut List<Text<'a>>, simple: &'a Simple) -> Result<(), Memory>
    ensures { OnOk result (map text_of found.new ≡ spec.in_stat simple.now (map text_of found.old)) }
{
    match simple {
        Simple::Call(chain) => in_chain(found, chain),
        Simple::Assign(to, from, _) | Simple::AssignVal(to, from, _) => {
            in_chain(found, to)?;
            in_expr(found, from)
        }
        Simple::Goto(_, _) => Ok(()),
        Simple::Return(value, _) => in_any(found, value),
        Simple::Switch(value, _, _) => in_expr(found, value),
        Simple::Block(body, _) => add_strings(found, body),
        Simple::If(branches, otherwise, _) => {
            in_branches(found, branches.as_slice())?;
            match otherwise {
                None => Ok(()),
                Some(statements) => in_statements(found, statements.as_slice()),
            }
        }
        Simple::For(control, limit, repeated, _) => {
            in_control(found, control)?;
            in_expr(found, limit)?;
            in_statements(found, repeated.as_slice())
        }
        Simple::While(condition, repeated, _) => {
            in_cond(found, condition)?;
            in_statements(found, repeated.as_slice())
        }
    }
}

#[cycle(bodies)]
fn in_branches<'a>(found: &mut List<Text<'a>>, branches: &'a [Branch]) -> Result<(), Memory>
    ensures { OnOk result (map text_of found.new ≡ spec.all (map spec.in_branch branches.now) (map text_of found.old)) }
{
    for branch in branches {
        in_cond(found, &branch.test)?;
        in_statements(found, branch.taken.as_slice())?;
    }
    Ok(())
}

fn in_control<'a>(found: &mut List<Text<'a>>, control: &'a Option<Control>) -> Result<(), Memory>
    ensures { OnOk result (map text_of found.new ≡ spec.in_control control.now (map text_of found.old)) }
{
    match control {
        None => Ok(()),
        Some(control) => {
            in_expr(found, &control.start)?;
            in_any(found, &control.step)
        }
    }
}

fn in_lines<'a>(found: &mut List<Text<'a>>, lines: &'a [Locals]) -> Result<(), Memory>
    ensures { OnOk result (map text_of found.new ≡ spec.in_lines lines.now (map text_of found.old)) }
{
    for line in lines {
        in_locals(found, line.names.as_slice())?;
    }
    Ok(())
}

fn in_locals<'a>(found: &mut List<Text<'a>>, locals: &'a [Local]) -> Result<(), Memory>
    ensures { OnOk result (map text_of found.new ≡ spec.in_locals locals.now (map text_of found.old)) }
{
    for local in locals {
        in_any(found, &local.start)?;
    }
    Ok(())
}

fn in_any<'a>(found: &mut List<Text<'a>>, expr: &'a Option<Expr>) -> Result<(), Memory>
    ensures { OnOk result (map text_of found.new ≡ spec.in_any expr.now (map text_of found.old)) }
{
    match expr {
        None => Ok(()),
        Some(expr) => in_expr(found, expr),
    }
}

#[cycle(conditions)]
fn in_cond<'a>(found: &mut List<Text<'a>>, condition: &'a Cond) -> Result<(), Memory>
    ensures { OnOk result (map text_of found.new ≡ spec.in_cond condition.now (map text_of found.old)) }
{
    match condition {
        Cond::Or(conditions, _) | Cond::And(conditions, _) => {
            in_conditions(found, conditions.as_slice())
        }
        Cond::Compare(_, left, right, _) => {
            in_expr(found, left)?;
            in_expr(found, right)
        }
    }
}

#[cycle(conditions)]
fn in_conditions<'a>(found: &mut List<Text<'a>>, conditions: &'a [Cond]) -> Result<(), Memory>
    ensures { OnOk result (map text_of found.new ≡ spec.all (map spec.in_cond conditions.now) (map text_of found.old)) }
{
    for condition in conditions {
        in_cond(found, condition)?;
    }
    Ok(())
}

/// Appends the strings of an expression.
#[cycle(expressions)]
pub fn in_expr<'a>(found: &mut List<Text<'a>>, expr: &'a Expr) -> Result<(), Memory>
    ensures { OnOk result (map text_of found.new ≡ spec.in_expr expr.now (map text_of found.old)) }
{
    match expr {
        Expr::Number(_, _) => Ok(()),
        Expr::Text(bytes, at) => add(found, at.item, bytes),
        Expr::Chain(chain) => in_chain(found, chain),
        Expr::Val(chain, _) => in_chain(found, chain),
        Expr::Monadic(_, operand, _) => in_expr(found, operand.get()),
        Expr::Dyadic(_, left, right, _) => {
            in_expr(found, left.get())?;
            in_expr(found, right.get())
        }
    }
}

#[cycle(expressions)]
fn in_chain<'a>(found: &mut List<Text<'a>>, chain: &'a Chain) -> Result<(), Memory>
    ensures { OnOk result (map text_of found.new ≡ spec.in_chain chain.now (map text_of found.old)) }
{
    for link in chain.links.as_slice() {
        in_link(found, link)?;
    }
    Ok(())
}

#[cycle(expressions)]
fn in_link<'a>(found: &mut List<Text<'a>>, link: &'a Link) -> Result<(), Memory>
    ensures { OnOk result (map text_of found.new ≡ spec.in_link link.now (map text_of found.old)) }
{
    match link {
        Link::Dot(_, _) => Ok(()),
        Link::Apply(arguments, _) => in_arguments(found, arguments.as_slice()),
    }
}

#[cycle(expressions)]
fn in_arguments<'a>(found: &mut List<Text<'a>>, arguments: &'a [Expr]) -> Result<(), Memory>
    ensures { OnOk result (map text_of found.new ≡ spec.all (map spec.in_expr arguments.now) (map text_of found.old)) }
{
    for argument in arguments {
        in_expr(found, argument)?;
    }
    Ok(())
}

/// Appends a string.
fn add<'a>(found: &mut List<Text<'a>>, item: u16, bytes: &'a Bytes) -> Result<(), Memory>
    ensures { OnOk result (map text_of found.new ≡ spec.one item bytes.now (map text_of found.old)) }
{
    found.push(Text { item, bytes })
}
