//! The code of conditions and statements.

ghost use Rattle.std.specs.Prelude.{◌≡◌, ◌++◌, ◌∷◌, [], map, length, if◌then◌else◌, OnOk};
ghost use Rattle.rt_work_state.specs.Nodes as n;
ghost use Rattle.rt_lower.specs.Drafts as drafts;
ghost use Rattle.rt_lower.specs.declared.draft.Piece.TheVariants as piece;

use crate::draft::{Draft, Piece};
use crate::laid::number;
use crate::layouts::Layouts;
use crate::values::{alone, assignment, both, followed, for_head, term};
use rt_icode::Ins;
use rt_words::{List, Memory};
use rt_work_state::{CondNode, LabelsNode, SeqNode, StmtNode, TermNode};
use std::alloc::Global;

/// The parts of an IF.
#[derive(Clone, Copy)]
struct Parts<'a> {
    test: &'a CondNode,
    taken: &'a SeqNode,
    other: &'a SeqNode,
}

/// An IF that is all that a sequence has.
fn alone_if(q: &SeqNode) -> Option<Parts<'_>>
    ensures { drafts.parts_seen result ≡ drafts.alone_if (n.seq q.now) }
{
    match q {
        SeqNode::Then(s, behind) => match &**behind {
            SeqNode::Done => parts_of(s),
            _ => None,
        },
        _ => None,
    }
}

fn parts_of(s: &StmtNode) -> Option<Parts<'_>>
    ensures { drafts.parts_seen result ≡ drafts.parts_of (n.stmt s.now) }
{
    match s {
        StmtNode::If(test, taken, other) => Some(Parts { test, taken, other }),
        _ => None,
    }
}

impl Draft {
    /// Appends a condition, which goes to a place where its truth is `when`, and else on to its end. It recurses as deep as left
    /// sides are nested, and not along a row of conditions.
    #[cycle(conditions)]
    fn condition(
        &mut self,
        alloc: Global,
        layouts: &Layouts,
        test: &CondNode,
        when: bool,
        to: usize,
        end: usize,
    ) -> Result<(), Memory>
        ensures { OnOk result (self.new ≡ drafts.condition layouts.now (n.cond test.now) when to end self.old) }
    {
        let mut rest = test;
        loop {
            match rest {
                CondNode::Is(relation, left, right) => {
                    both(alloc, layouts, &mut self.code, left, right)?;
                    return self.add(Piece::Test {
                        relation: *relation,
                        when,
                        to,
                    });
                }
                CondNode::Both(left, right) => {
                    self.side(alloc, layouts, left, false, if when { end } else { to })?;
                    rest = right;
                }
                CondNode::Either(left, right) => {
                    self.side(alloc, layouts, left, true, if when { to } else { end })?;
                    rest = right;
                }
            }
        }
    }

    /// The same with a place of its own for its end.
    #[cycle(conditions)]
    fn side(
        &mut self,
        alloc: Global,
        layouts: &Layouts,
        test: &CondNode,
        when: bool,
        to: usize,
    ) -> Result<(), Memory>
        ensures { OnOk result (self.new ≡ drafts.side layouts.now (n.cond test.now) when to self.old) }
    {
        let end = self.open()?;
        self.condition(alloc, layouts, test, when, to, end)?;
        self.here(end);
        Ok(())
    }

    /// Appends a sequence. It recurses as deep as statements are nested, and not along the sequence.
    #[cycle(statements)]
    pub(crate) fn sequence(
        &mut self,
        alloc: Global,
        layouts: &Layouts,
        q: &SeqNode,
    ) -> Result<(), Memory>
        ensures { OnOk result (self.new ≡ drafts.sequence layouts.now (n.seq q.now) self.old) }
    {
        let mut rest = q;
        loop {
            match rest {
                SeqNode::Done => return Ok(()),
                SeqNode::Mark(label, behind) => {
                    self.note(*label)?;
                    rest = behind;
                }
                SeqNode::Then(s, behind) => {
                    self.statement(alloc, layouts, s)?;
                    rest = behind;
                }
            }
        }
    }

    #[cycle(statements)]
    fn statement(&mut self, alloc: Global, layouts: &Layouts, s: &StmtNode) -> Result<(), Memory>
        ensures { OnOk result (self.new ≡ drafts.statement layouts.now (n.stmt s.now) self.old) }
    {
        match s {
            StmtNode::Inner(q) => self.sequence(alloc, layouts, q),
            StmtNode::If(test, taken, other) => {
                let end = self.open()?;
                self.arm(alloc, layouts, test, taken, end)?;
                self.otherwise(alloc, layouts, other, end)?;
                self.here(end);
                Ok(())
            }
            StmtNode::For(local, start, step, last, q) => {
                let end = self.open()?;
                for_head(alloc, layouts, &mut self.code, *local, start, step, last)?;
                self.add(Piece::CountFor {
                    local: *local,
                    to: end,
                })?;
                let to = number(self.code.len())?;
                self.sequence(alloc, layouts, q)?;
                self.put(Ins::TurnFor { local: *local, to })?;
                self.here(end);
                Ok(())
            }
            StmtNode::To(local, turns, q) => {
                let end = self.open()?;
                term(alloc, layouts, &mut self.code, turns)?;
                self.add(Piece::CountTo {
                    local: *local,
                    to: end,
                })?;
                let to = number(self.code.len())?;
                self.sequence(alloc, layouts, q)?;
                self.put(Ins::TurnTo { local: *local, to })?;
                self.here(end);
                Ok(())
            }
            StmtNode::While(test, q) => {
                let to = number(self.code.len())?;
                let end = self.open()?;
                self.side(alloc, layouts, test, false, end)?;
                self.sequence(alloc, layouts, q)?;
                self.put(Ins::Go { to })?;
                self.here(end);
                Ok(())
            }
            other => self.simple(alloc, layouts, other),
        }
    }

    /// Appends a test, what is done where it holds, and a jump to the end.
    #[cycle(statements)]
    fn arm(
        &mut self,
        alloc: Global,
        layouts: &Layouts,
        test: &CondNode,
        taken: &SeqNode,
        end: usize,
    ) -> Result<(), Memory>
        ensures { OnOk result (self.new ≡ drafts.arm layouts.now end (n.cond test.now) (drafts.sequence layouts.now (n.seq taken.now)) self.old) }
    {
        let other = self.open()?;
        self.side(alloc, layouts, test, false, other)?;
        self.sequence(alloc, layouts, taken)?;
        self.add(Piece::Skip { to: end })?;
        self.here(other);
        Ok(())
    }

    /// Appends what stands behind ELSE. An IF that stands there alone ends where this one does.
    #[cycle(statements)]
    fn otherwise(
        &mut self,
        alloc: Global,
        layouts: &Layouts,
        q: &SeqNode,
        end: usize,
    ) -> Result<(), Memory>
        ensures { OnOk result (self.new ≡ drafts.otherwise layouts.now end (n.seq q.now) self.old) }
    {
        let mut rest = q;
        while let Some(inner) = alone_if(rest) {
            self.arm(alloc, layouts, inner.test, inner.taken, end)?;
            rest = inner.other;
        }
        self.sequence(alloc, layouts, rest)
    }

    /// Appends a statement that has no other in it.
    fn simple(&mut self, alloc: Global, layouts: &Layouts, s: &StmtNode) -> Result<(), Memory>
        ensures { OnOk result (self.new ≡ drafts.simple layouts.now (n.stmt s.now) self.old) }
    {
        match s {
            StmtNode::Keep(local, value) => {
                followed(
                    alloc,
                    layouts,
                    &mut self.code,
                    value,
                    Ins::SaveLocal(*local),
                )
            }
            StmtNode::Clear(local) => self.put(Ins::ClearLocal(*local)),
            StmtNode::Put(mode, path, value) => {
                assignment(alloc, layouts, &mut self.code, mode, path, value)
            }
            StmtNode::Run(call) | StmtNode::Toss(call) => alone(
                alloc,
                layouts,
                &mut self.code,
                call,
            ),
            StmtNode::Goto(label) => self.add(Piece::Go { label: *label }),
            StmtNode::GiveBack(value) => followed(
                alloc,
                layouts,
                &mut self.code,
                value,
                Ins::GiveUp,
            ),
            StmtNode::Back => self.put(Ins::Leave),
            StmtNode::Switch(value, labels) => self.switch(alloc, layouts, value, labels),
            _ => Ok(()),
        }
    }

    fn switch(
        &mut self,
        alloc: Global,
        layouts: &Layouts,
        value: &TermNode,
        labels: &LabelsNode,
    ) -> Result<(), Memory>
        ensures { OnOk result (self.new ≡ drafts.switch layouts.now (n.term value.now) (n.labels labels.now) self.old) }
    {
        term(alloc, layouts, &mut self.code, value)?;
        cases(&mut self.code, labels)?;
        self.put(Ins::Discard)
    }
}

/// Appends a case for each label.
fn cases(code: &mut List<Piece>, labels: &LabelsNode) -> Result<(), Memory>
    ensures { OnOk result (code.new ≡ code.old ++ map piece.Case (n.labels labels.now)) }
{
    let mut rest = labels;
    while let LabelsNode::MoreLabels(label, behind) = rest {
        code.push(Piece::Case { label: *label })?;
        rest = behind;
    }
    Ok(())
}
