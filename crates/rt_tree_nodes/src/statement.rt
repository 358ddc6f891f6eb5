//! Conditions, statements and bodies. Locals and labels have numbers in their procedure, each from 0: the parameters
//! first, then the locals in the order of the text; the labels of a sequence in their order, before those of the
//! sequences inside it.

use crate::operators::Rel;
use crate::value::{Place, Value};
use rt_words::List;

/// A condition; `And` and `Or` hold two or more.
#[cycle(tests)]
#[derive(Drop)]
pub enum Test {
    Compare(Rel, Value, Value),
    And(List<Test>),
    Or(List<Test>),
}

/// A statement without its labels, one variant for each form.
#[cycle(statements)]
#[derive(Drop)]
pub enum Stat {
    /// A call that stands alone; a result is dropped.
    Call(Value),
    Assign(Place, Value),
    Goto(u16),
    Return(Option<Value>),
    /// The value and the labels, the first for the value 1.
    Switch(Value, List<u16>),
    Block(Body),
    /// The branches in their order, and what stands behind ELSE.
    If(List<Branch>, Option<List<Labelled>>),
    /// The first of the loop's three locals, which is its variable; start, step, end, and what is repeated.
    For(u16, Value, Option<Value>, Value, List<Labelled>),
    /// The first of the loop's three locals, the number of turns, and what is repeated.
    To(u16, Value, List<Labelled>),
    While(Test, List<Labelled>),
    /// `ERL := label`, a label of the outermost sequence of the body.
    Recover(u16),
}

/// A statement with its labels; an empty one does nothing.
#[cycle(statements)]
#[derive(Drop)]
pub struct Labelled {
    pub labels: List<u16>,
    pub stat: Option<Stat>,
}

/// A condition, and what stands behind its THEN.
#[cycle(statements)]
#[derive(Drop)]
pub struct Branch {
    pub test: Test,
    pub taken: List<Labelled>,
}

/// A local that a body declares; without a start it is 0 at each entry.
#[derive(Drop)]
pub struct LocalStart {
    pub local: u16,
    pub start: Option<Value>,
}

/// The locals of a body in their order, and its statements.
#[cycle(statements)]
#[derive(Drop)]
pub struct Body {
    pub locals: List<LocalStart>,
    pub statements: List<Labelled>,
}
