//! Bodies of the grammar's trees as texts.

use crate::stop::Stop;
use crate::syntax::expressions::{
    any_expression, chain, close, condition, expression, name, names, open,
};
use crate::syntax::modes::mode;
use rt_grammar::{At, Ident};
use rt_syntax::{Body, Branch, Control, Locals, Simple, Stmt};
use rt_syntax_exprs::{Chain, Cond, Expr};

/// Writes a body's tree.
#[cycle(bodies)]
pub fn show_body(out: &mut String, body: &Body) -> Result<(), Stop> {
    open(out, "body", body.at)?;
    all_locals(out, body.locals.as_slice())?;
    statements(out, body.statements.as_slice())?;
    close(out)
}

#[cycle(bodies)]
fn statements(out: &mut String, all: &[Stmt]) -> Result<(), Stop> {
    for one in all {
        statement(out, one)?;
    }
    Ok(())
}

#[cycle(bodies)]
fn statement(out: &mut String, statement: &Stmt) -> Result<(), Stop> {
    open_statement(out, statement.labels.as_slice(), statement.at)?;
    if let Some(simple) = &statement.simple {
        self::simple(out, simple)?;
    }
    close(out)
}

#[cycle(bodies)]
fn simple(out: &mut String, simple: &Simple) -> Result<(), Stop> {
    match simple {
        Simple::Block(body, at) => {
            open(out, "BLOCK", *at)?;
            show_body(out, body)?;
            close(out)
        }
        Simple::If(all, otherwise, at) => {
            open(out, "IF", *at)?;
            branches(out, all.as_slice())?;
            if let Some(all) = otherwise {
                out.push_str(" ELSE")?;
                statements(out, all.as_slice())?;
            }
            close(out)
        }
        Simple::For(control, limit, repeated, at) => {
            open_for(out, control, limit, *at)?;
            statements(out, repeated.as_slice())?;
            close(out)
        }
        Simple::While(test, repeated, at) => {
            open_while(out, test, *at)?;
            statements(out, repeated.as_slice())?;
            close(out)
        }
        _ => deed(out, simple),
    }
}

#[cycle(bodies)]
fn branches(out: &mut String, all: &[Branch]) -> Result<(), Stop> {
    for branch in all {
        open_branch(out, &branch.test, branch.at)?;
        statements(out, branch.taken.as_slice())?;
        close(out)?;
    }
    Ok(())
}

fn all_locals(out: &mut String, all: &[Locals]) -> Result<(), Stop> {
    for locals in all {
        show_locals(out, locals)?;
    }
    Ok(())
}

fn show_locals(out: &mut String, locals: &Locals) -> Result<(), Stop> {
    open(out, "locals", locals.at)?;
    mode(out, &locals.mode)?;
    for local in locals.names.as_slice() {
        name(out, local.name.name.as_slice(), local.name.at)?;
        any_expression(out, &local.start)?;
    }
    close(out)
}

fn open_statement(out: &mut String, labels: &[Ident], at: At) -> Result<(), Stop> {
    open(out, "stmt", at)?;
    for label in labels {
        name(out, label.name.as_slice(), label.at)?;
        out.push(':')?;
    }
    Ok(())
}

fn open_branch(out: &mut String, test: &Cond, at: At) -> Result<(), Stop> {
    open(out, "branch", at)?;
    condition(out, test)?;
    Ok(out.push_str(" THEN")?)
}

fn open_for(out: &mut String, control: &Option<Control>, limit: &Expr, at: At) -> Result<(), Stop> {
    open(out, "FOR", at)?;
    show_control(out, control)?;
    expression(out, limit)?;
    Ok(out.push_str(" DO")?)
}

fn open_while(out: &mut String, test: &Cond, at: At) -> Result<(), Stop> {
    open(out, "WHILE", at)?;
    condition(out, test)?;
    Ok(out.push_str(" DO")?)
}

fn show_control(out: &mut String, control: &Option<Control>) -> Result<(), Stop> {
    match control {
        Some(control) => show_start(out, control),
        None => Ok(()),
    }
}

fn show_start(out: &mut String, control: &Control) -> Result<(), Stop> {
    name(out, control.name.name.as_slice(), control.name.at)?;
    expression(out, &control.start)?;
    if let Some(step) = &control.step {
        out.push_str(" BY")?;
        expression(out, step)?;
    }
    Ok(out.push_str(" TO")?)
}

// A statement that holds no other.
fn deed(out: &mut String, simple: &Simple) -> Result<(), Stop> {
    match simple {
        Simple::Call(called) => chain(out, called),
        Simple::Assign(to, value, at) => assign(out, ":=", to, value, *at),
        Simple::AssignVal(to, value, at) => assign(out, "VAL :=", to, value, *at),
        Simple::Goto(label, at) => goto(out, label, *at),
        Simple::Return(value, at) => {
            open(out, "RETURN", *at)?;
            any_expression(out, value)?;
            close(out)
        }
        Simple::Switch(value, labels, at) => switch(out, value, labels.as_slice(), *at),
        _ => Ok(()),
    }
}

fn assign(out: &mut String, kind: &str, to: &Chain, value: &Expr, at: At) -> Result<(), Stop> {
    open(out, kind, at)?;
    chain(out, to)?;
    expression(out, value)?;
    close(out)
}

fn goto(out: &mut String, label: &Ident, at: At) -> Result<(), Stop> {
    open(out, "GOTO", at)?;
    name(out, label.name.as_slice(), label.at)?;
    close(out)
}

fn switch(out: &mut String, value: &Expr, labels: &[Ident], at: At) -> Result<(), Stop> {
    open(out, "SWITCH", at)?;
    expression(out, value)?;
    names(out, labels)?;
    close(out)
}
