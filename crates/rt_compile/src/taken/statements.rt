//! The names that stand in statements.

ghost use Rattle.std.specs.Prelude.{◌≡◌, OnOk, Some};
ghost use Rattle.rt_compile.specs.Marks.{all_marked};
ghost use Rattle.rt_tree.specs.Taken.{in_sequence, in_statement};
ghost use Rattle.rt_work_state.specs.Nodes as n;

use crate::taken::conditions::condition;
use crate::taken::values::{path, term};
use rt_words::Memory;
use rt_work_state::{SeqNode, StmtNode};

/// Marks the names that stand in a sequence. It recurses as deep as statements are nested, and not along the sequence.
#[cycle(statements)]
pub fn sequence(marks: &mut [bool], q: &SeqNode) -> Result<(), Memory>
    ensures { OnOk result (all_marked (in_sequence (n.seq q.now)) marks.old ≡ Some marks.new) }
{
    let mut rest = q;
    loop {
        match rest {
            SeqNode::Done => return Ok(()),
            SeqNode::Mark(_, behind) => rest = behind,
            SeqNode::Then(s, behind) => {
                statement(marks, s)?;
                rest = behind;
            }
        }
    }
}

/// The same of a statement.
#[cycle(statements)]
fn statement(marks: &mut [bool], s: &StmtNode) -> Result<(), Memory>
    ensures { OnOk result (all_marked (in_statement (n.stmt s.now)) marks.old ≡ Some marks.new) }
{
    match s {
        StmtNode::Clear(_) | StmtNode::Goto(_) | StmtNode::Back | StmtNode::Recover(_) => Ok(()),
        StmtNode::Keep(_, v) => term(marks, v),
        StmtNode::Run(v) => term(marks, v),
        StmtNode::Toss(v) => term(marks, v),
        StmtNode::GiveBack(v) => term(marks, v),
        StmtNode::Switch(v, _) => term(marks, v),
        StmtNode::Put(_, at, v) => {
            path(marks, at)?;
            term(marks, v)
        }
        StmtNode::Inner(q) => sequence(marks, q),
        StmtNode::If(test, taken, other) => {
            condition(marks, test)?;
            sequence(marks, taken)?;
            sequence(marks, other)
        }
        StmtNode::For(_, start, step, end, q) => {
            term(marks, start)?;
            term(marks, step)?;
            term(marks, end)?;
            sequence(marks, q)
        }
        StmtNode::To(_, count, q) => {
            term(marks, count)?;
            sequence(marks, q)
        }
        StmtNode::While(test, q) => {
            condition(marks, test)?;
            sequence(marks, q)
        }
    }
}
