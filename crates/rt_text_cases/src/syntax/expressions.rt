//! Expressions and conditions of the grammar's trees as texts: each node in parentheses with its kind, the number of its first
//! item behind `@`, and its parts in their order.

use crate::expansion::write_bytes;
use crate::stop::Stop;
use rt_grammar::{At, Ident};
use rt_syntax_exprs::{Chain, Cond, Expr, Link};
use std::fmt::{Debug, Write};

/// Opens a node.
pub fn open(out: &mut String, kind: &str, at: At) -> Result<(), Stop> {
    let item = at.item;
    Ok(write!(out, " ({kind}@{item}")?)
}

// Opens the node of an operator.
fn open_by<D: Debug>(out: &mut String, operator: &D, at: At) -> Result<(), Stop> {
    let item = at.item;
    Ok(write!(out, " ({operator:?}@{item}")?)
}

/// Closes a node.
pub fn close(out: &mut String) -> Result<(), Stop> {
    Ok(out.push(')')?)
}

/// Writes a word or a number, and the number of its item.
pub fn leaf<D: Debug>(out: &mut String, told: &D, at: At) -> Result<(), Stop> {
    let item = at.item;
    Ok(write!(out, " {told:?}@{item}")?)
}

/// Writes a name and the number of its item.
pub fn name(out: &mut String, name: &[u8], at: At) -> Result<(), Stop> {
    out.push(' ')?;
    write_bytes(out, name)?;
    let item = at.item;
    Ok(write!(out, "@{item}")?)
}

/// Writes names.
pub fn names(out: &mut String, all: &[Ident]) -> Result<(), Stop> {
    for ident in all {
        name(out, ident.name.as_slice(), ident.at)?;
    }
    Ok(())
}

/// Writes an expression.
#[cycle(expressions)]
pub fn expression(out: &mut String, expr: &Expr) -> Result<(), Stop> {
    match expr {
        Expr::Number(n, at) => leaf(out, n, *at),
        Expr::Text(_, at) => name(out, b"text", *at),
        Expr::Chain(chain) => self::chain(out, chain),
        Expr::Val(chain, at) => {
            name(out, b"VAL", *at)?;
            self::chain(out, chain)
        }
        Expr::Monadic(op, operand, at) => {
            open_by(out, op, *at)?;
            expression(out, operand.get())?;
            close(out)
        }
        Expr::Dyadic(op, left, right, at) => {
            open_by(out, op, *at)?;
            expression(out, left.get())?;
            expression(out, right.get())?;
            close(out)
        }
    }
}

/// Writes a chain.
#[cycle(expressions)]
pub fn chain(out: &mut String, chain: &Chain) -> Result<(), Stop> {
    name(out, chain.name.as_slice(), chain.at)?;
    for link in chain.links.as_slice() {
        self::link(out, link)?;
    }
    Ok(())
}

#[cycle(expressions)]
fn link(out: &mut String, link: &Link) -> Result<(), Stop> {
    match link {
        Link::Dot(field, at) => dot(out, field, *at),
        Link::Apply(arguments, at) => {
            open(out, "apply", *at)?;
            expressions(out, arguments.as_slice())?;
            close(out)
        }
    }
}

#[cycle(expressions)]
fn expressions(out: &mut String, all: &[Expr]) -> Result<(), Stop> {
    for expr in all {
        expression(out, expr)?;
    }
    Ok(())
}

/// Writes the name of a field.
pub fn dot(out: &mut String, field: &Ident, at: At) -> Result<(), Stop> {
    open(out, ".", at)?;
    name(out, field.name.as_slice(), field.at)?;
    close(out)
}

/// Writes an expression, if there is one.
pub fn any_expression(out: &mut String, expr: &Option<Expr>) -> Result<(), Stop> {
    match expr {
        None => Ok(()),
        Some(expr) => expression(out, expr),
    }
}

/// Writes a condition.
#[cycle(conditions)]
pub fn condition(out: &mut String, cond: &Cond) -> Result<(), Stop> {
    match cond {
        Cond::Or(all, at) => {
            open(out, "OR", *at)?;
            conditions(out, all.as_slice())
        }
        Cond::And(all, at) => {
            open(out, "AND", *at)?;
            conditions(out, all.as_slice())
        }
        Cond::Compare(relation, left, right, at) => {
            open_by(out, relation, *at)?;
            pair(out, left, right)
        }
    }
}

#[cycle(conditions)]
fn conditions(out: &mut String, all: &[Cond]) -> Result<(), Stop> {
    for cond in all {
        condition(out, cond)?;
    }
    close(out)
}

// What is compared, and the end of its node.
fn pair(out: &mut String, left: &Expr, right: &Expr) -> Result<(), Stop> {
    expression(out, left)?;
    expression(out, right)?;
    close(out)
}
