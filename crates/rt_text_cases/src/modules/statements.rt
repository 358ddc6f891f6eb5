//! Bodies and statements of typed trees as texts. Each local that has a start and each statement ends with `;`.

use crate::modules::values::{show_place, show_test, show_value};
use crate::stop::Stop;
use rt_tree::{Body, Branch, Labelled, LocalStart, Place, Stat, Test, Value};
use std::fmt::Write;

/// Writes a body: the starts of its locals and its statements.
#[cycle(statements)]
pub fn show_body(out: &mut String, body: &Body) -> Result<(), Stop> {
    show_locals(out, body.locals.as_slice())?;
    show_statements(out, body.statements.as_slice())
}

#[cycle(statements)]
fn show_statements(out: &mut String, statements: &[Labelled]) -> Result<(), Stop> {
    for statement in statements {
        show_labels(out, statement.labels.as_slice())?;
        if let Some(stat) = &statement.stat {
            show_stat(out, stat)?;
        }
    }
    Ok(())
}

#[cycle(statements)]
fn show_stat(out: &mut String, stat: &Stat) -> Result<(), Stop> {
    match stat {
        Stat::Block(body) => {
            out.push_str(" block")?;
            show_body(out, body)?;
        }
        Stat::If(branches, otherwise) => {
            out.push(' ')?;
            show_branches(out, branches.as_slice())?;
            if let Some(statements) = otherwise {
                out.push_str("else")?;
                show_statements(out, statements.as_slice())?;
                out.push(' ')?;
            }
            return Ok(out.push_str("end;")?);
        }
        Stat::For(local, start, step, end, repeated) => {
            show_for(out, *local, start, step, end)?;
            show_statements(out, repeated.as_slice())?;
        }
        Stat::To(local, count, repeated) => {
            show_to(out, *local, count)?;
            show_statements(out, repeated.as_slice())?;
        }
        Stat::While(test, repeated) => {
            show_while(out, test)?;
            show_statements(out, repeated.as_slice())?;
        }
        _ => return show_simple(out, stat),
    }
    Ok(out.push_str(" end;")?)
}

#[cycle(statements)]
fn show_branches(out: &mut String, branches: &[Branch]) -> Result<(), Stop> {
    for branch in branches {
        show_if(out, &branch.test)?;
        show_statements(out, branch.taken.as_slice())?;
        out.push(' ')?;
    }
    Ok(())
}

fn show_locals(out: &mut String, locals: &[LocalStart]) -> Result<(), Stop> {
    for local in locals {
        if let Some(start) = &local.start {
            show_local(out, local.local, start)?;
        }
    }
    Ok(())
}

fn show_local(out: &mut String, number: u16, start: &Value) -> Result<(), Stop> {
    write!(out, " local {number} := ")?;
    show_value(out, start)?;
    Ok(out.push(';')?)
}

fn show_labels(out: &mut String, labels: &[u16]) -> Result<(), Stop> {
    for label in labels {
        write!(out, " {label}:")?;
    }
    Ok(())
}

fn show_if(out: &mut String, test: &Test) -> Result<(), Stop> {
    out.push_str("if ")?;
    show_test(out, test)?;
    Ok(out.push_str(" then")?)
}

fn show_for(
    out: &mut String,
    local: u16,
    start: &Value,
    step: &Option<Value>,
    end: &Value,
) -> Result<(), Stop> {
    write!(out, " for {local} from ")?;
    show_value(out, start)?;
    show_any(out, " by ", step)?;
    out.push_str(" to ")?;
    show_value(out, end)?;
    Ok(out.push_str(" do")?)
}

fn show_to(out: &mut String, local: u16, count: &Value) -> Result<(), Stop> {
    write!(out, " to {local} count ")?;
    show_value(out, count)?;
    Ok(out.push_str(" do")?)
}

fn show_while(out: &mut String, test: &Test) -> Result<(), Stop> {
    out.push_str(" while ")?;
    show_test(out, test)?;
    Ok(out.push_str(" do")?)
}

// A statement that holds no other.
fn show_simple(out: &mut String, stat: &Stat) -> Result<(), Stop> {
    out.push(' ')?;
    show_deed(out, stat)?;
    Ok(out.push(';')?)
}

fn show_deed(out: &mut String, stat: &Stat) -> Result<(), Stop> {
    match stat {
        Stat::Call(value) => show_value(out, value),
        Stat::Assign(place, value) => show_assign(out, place, value),
        Stat::Goto(label) => Ok(write!(out, "goto {label}")?),
        Stat::Return(value) => {
            out.push_str("return")?;
            show_any(out, " ", value)
        }
        Stat::Switch(value, labels) => show_switch(out, value, labels.as_slice()),
        Stat::Recover(label) => Ok(write!(out, "recover {label}")?),
        _ => Ok(()),
    }
}

fn show_assign(out: &mut String, place: &Place, value: &Value) -> Result<(), Stop> {
    show_place(out, place)?;
    out.push_str(" := ")?;
    show_value(out, value)
}

fn show_switch(out: &mut String, value: &Value, labels: &[u16]) -> Result<(), Stop> {
    out.push_str("switch ")?;
    show_value(out, value)?;
    out.push_str(" of")?;
    for label in labels {
        write!(out, " {label}")?;
    }
    Ok(())
}

fn show_any(out: &mut String, word: &str, value: &Option<Value>) -> Result<(), Stop> {
    match value {
        None => Ok(()),
        Some(value) => {
            out.push_str(word)?;
            show_value(out, value)
        }
    }
}
