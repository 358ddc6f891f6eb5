//! The tree of a procedure as the meaning reads it: locals apart from shared places, arrays apart from the rows
//! behind a REF ARRAY. Parts are shared, so that what is still to be done can name them.

use rt_modes::Mode;
use rt_tree::{Op1, Op2, Rel};
use std::rc::Rc;

/// What gives a value.
#[cycle(node)]
#[derive(Drop)]
pub enum TermNode {
    Num(u16),
    Str(u16),
    Name(u16),
    Own(u16),
    Get(Mode, Rc<PathNode>),
    Ref(Rc<PathNode>),
    RefRow(Rc<PathNode>, u16),
    Count(Rc<PathNode>, u16),
    CountRow(Rc<TermNode>),
    One(Op1, Rc<TermNode>),
    Two(Op2, Rc<TermNode>, Rc<TermNode>),
    Over(Op2, Rc<TermNode>, Rc<TermNode>),
    Apply(u16, Rc<TermsNode>),
    ApplyBy(Mode, Rc<TermNode>, Rc<TermsNode>),
}

/// What gives a shared place.
#[cycle(node)]
#[derive(Drop)]
pub enum PathNode {
    ItemAt(u16, u16),
    Svc(u8),
    FieldOf(Rc<PathNode>, u16, u16),
    Elem(Rc<PathNode>, Rc<TermNode>, u16, Mode),
    ElemRow(Rc<TermNode>, Rc<TermNode>, Mode),
    Past(Rc<TermNode>),
}

/// The arguments of a call.
#[cycle(node)]
#[derive(Drop)]
pub enum TermsNode {
    NoTerm,
    MoreTerms(Rc<TermNode>, Rc<TermsNode>),
}

/// A condition.
#[cycle(cond)]
#[derive(Drop)]
pub enum CondNode {
    Is(Rel, Rc<TermNode>, Rc<TermNode>),
    Both(Rc<CondNode>, Rc<CondNode>),
    Either(Rc<CondNode>, Rc<CondNode>),
}

/// A statement.
#[cycle(stmt)]
#[derive(Drop)]
pub enum StmtNode {
    Keep(u16, Rc<TermNode>),
    Clear(u16),
    Put(Mode, Rc<PathNode>, Rc<TermNode>),
    Run(Rc<TermNode>),
    Toss(Rc<TermNode>),
    Goto(u16),
    GiveBack(Rc<TermNode>),
    Back,
    Switch(Rc<TermNode>, Rc<LabelsNode>),
    Inner(Rc<SeqNode>),
    If(Rc<CondNode>, Rc<SeqNode>, Rc<SeqNode>),
    For(u16, Rc<TermNode>, Rc<TermNode>, Rc<TermNode>, Rc<SeqNode>),
    To(u16, Rc<TermNode>, Rc<SeqNode>),
    While(Rc<CondNode>, Rc<SeqNode>),
    Recover(u16),
}

/// Statements and labels, one after the other.
#[cycle(stmt)]
#[derive(Drop)]
pub enum SeqNode {
    Done,
    Then(Rc<StmtNode>, Rc<SeqNode>),
    Mark(u16, Rc<SeqNode>),
}

/// The labels of a SWITCH.
#[cycle(labels)]
#[derive(Drop)]
pub enum LabelsNode {
    NoLabel,
    MoreLabels(u16, Rc<LabelsNode>),
}
