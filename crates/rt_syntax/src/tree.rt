//! The trees of statements and bodies. Each node and each name in a node says where it begins.

use rt_grammar::{At, Ident};
use rt_syntax_exprs::{Chain, Cond, Expr, WrittenMode};
use rt_words::List;

/// A name that a body declares, and its start.
#[derive(Drop)]
pub struct Local {
    pub name: Ident,
    pub start: Option<Expr>,
}

/// A declaration of a body: a mode and names.
#[derive(Drop)]
pub struct Locals {
    pub mode: WrittenMode,
    pub names: List<Local>,
    pub at: At,
}

/// `FOR`, the controlled name, where it starts, and by what it goes on.
#[derive(Drop)]
pub struct Control {
    pub name: Ident,
    pub start: Expr,
    pub step: Option<Expr>,
    pub at: At,
}

/// `IF` or `ELSEIF`, the condition, and what stands behind its THEN.
#[cycle(statements)]
#[derive(Drop)]
pub struct Branch {
    pub test: Cond,
    pub taken: List<Stmt>,
    pub at: At,
}

/// A statement without its labels, one variant for each form.
#[cycle(statements)]
#[derive(Drop)]
pub enum Simple {
    /// A chain alone.
    Call(Chain),
    Assign(Chain, Expr, At),
    /// `VAL`, a chain, `:=` and an expression.
    AssignVal(Chain, Expr, At),
    Goto(Ident, At),
    Return(Option<Expr>, At),
    Switch(Expr, List<Ident>, At),
    Block(Body, At),
    /// The branches in their order, and what stands behind ELSE.
    If(List<Branch>, Option<List<Stmt>>, At),
    /// `[FOR ..] TO` an expression, and what is repeated.
    For(Option<Control>, Expr, List<Stmt>, At),
    While(Cond, List<Stmt>, At),
}

/// A statement: its labels in their order, and what it does, if anything.
#[cycle(statements)]
#[derive(Drop)]
pub struct Stmt {
    pub labels: List<Ident>,
    pub simple: Option<Simple>,
    pub at: At,
}

/// The declarations and the statements of a procedure or a block.
#[cycle(statements)]
#[derive(Drop)]
pub struct Body {
    pub locals: List<Locals>,
    pub statements: List<Stmt>,
    pub at: At,
}
