//! What statements take, and the frame of a procedure.

ghost use Rattle.std.specs.Prelude.{◌≡◌, OnOk, map};
ghost use Rattle.rt_tree_nodes.specs.Code as seen;
ghost use Rattle.rt_frames.specs.Saturated.{saturated};
ghost use Rattle.rt_frames.specs.Walks as spec;

use crate::frame::CallPoint;
use crate::measure::{Address, above, behind, greater};
use crate::values::{place, value};
use rt_tree::{Body, Branch, Labelled, LocalStart, Place, Scope, Stat, Test, Value};
use rt_words::{List, Memory};
use std::alloc::Global;

/// What is taken so far.
#[derive(Drop)]
pub(crate) struct Walk {
    /// The greatest depth.
    pub(crate) deep: u16,
    /// Whether the procedure recovers.
    pub(crate) recovers: bool,
    pub(crate) calls: List<CallPoint>,
}

impl Walk {
    fn note(&mut self, depth: u16)
        ensures { self.new ≡ spec.deeper self.old depth }
    {
        self.deep = greater(self.deep, depth);
    }

    /// A value of which nothing waits below.
    fn value(&mut self, alloc: Global, scope: &Scope<'_>, value: &Value) -> Result<(), Memory>
        ensures { OnOk result (self.new ≡ spec.value_part (seen.scope scope.now) value.now self.old) }
    {
        let measured = crate::values::value(alloc, scope, &mut self.calls, 0, value)?;
        self.note(measured.depth);
        Ok(())
    }

    fn value_or_none(
        &mut self,
        alloc: Global,
        scope: &Scope<'_>,
        value: &Option<Value>,
    ) -> Result<(), Memory>
        ensures { OnOk result (self.new ≡ spec.value_or_none (seen.scope scope.now) value.now self.old) }
    {
        match value {
            Some(value) => self.value(alloc, scope, value),
            None => Ok(()),
        }
    }

    fn step(&mut self, alloc: Global, scope: &Scope<'_>, step: &Option<Value>) -> Result<(), Memory>
        ensures { OnOk result (self.new ≡ spec.step_part (seen.scope scope.now) step.now self.old) }
    {
        match step {
            Some(value) => self.value(alloc, scope, value),
            None => {
                self.note(1);
                Ok(())
            }
        }
    }

    fn comparison(
        &mut self,
        alloc: Global,
        scope: &Scope<'_>,
        left: &Value,
        right: &Value,
    ) -> Result<(), Memory>
        ensures { OnOk result (self.new ≡ spec.comparison (seen.scope scope.now) left.now right.now self.old) }
    {
        let first = value(alloc, scope, &mut self.calls, 0, left)?;
        let second = value(alloc, scope, &mut self.calls, 1, right)?;
        self.note(above(first.depth, second.depth));
        Ok(())
    }

    fn assignment(
        &mut self,
        alloc: Global,
        scope: &Scope<'_>,
        to: &Place,
        assigned: &Value,
    ) -> Result<(), Memory>
        ensures { OnOk result (self.new ≡ spec.assignment (seen.scope scope.now) to.now assigned.now self.old) }
    {
        let reached = place(alloc, scope, &mut self.calls, 0, to)?;
        let measured = value(
            alloc,
            scope,
            &mut self.calls,
            reached.address.words(),
            assigned,
        )?;
        self.note(over(reached.address, measured.depth));
        Ok(())
    }

    #[cycle(tests)]
    fn test(&mut self, alloc: Global, scope: &Scope<'_>, test: &Test) -> Result<(), Memory>
        ensures { OnOk result (self.new ≡ spec.test_part (seen.scope scope.now) test.now self.old) }
    {
        match test {
            Test::Compare(_, left, right) => self.comparison(alloc, scope, left, right),
            Test::And(tests) => self.tests(alloc, scope, tests.as_slice()),
            Test::Or(tests) => self.tests(alloc, scope, tests.as_slice()),
        }
    }

    #[cycle(tests)]
    fn tests(&mut self, alloc: Global, scope: &Scope<'_>, tests: &[Test]) -> Result<(), Memory>
        ensures { OnOk result (self.new ≡ spec.joined (map (spec.test_part (seen.scope scope.now)) tests.now) self.old) }
    {
        match tests {
            [] => {
                self.note(2);
                Ok(())
            }
            [_, ..] => self.each_test(alloc, scope, tests),
        }
    }

    #[cycle(tests)]
    fn each_test(&mut self, alloc: Global, scope: &Scope<'_>, tests: &[Test]) -> Result<(), Memory>
        ensures { OnOk result (self.new ≡ spec.in_turn (map (spec.test_part (seen.scope scope.now)) tests.now) self.old) }
    {
        for test in tests {
            self.test(alloc, scope, test)?;
        }
        Ok(())
    }

    fn starts(
        &mut self,
        alloc: Global,
        scope: &Scope<'_>,
        locals: &[LocalStart],
    ) -> Result<(), Memory>
        ensures { OnOk result (self.new ≡ spec.in_turn (map (spec.start_part (seen.scope scope.now)) locals.now) self.old) }
    {
        for local in locals {
            self.value_or_none(alloc, scope, &local.start)?;
        }
        Ok(())
    }

    #[cycle(bodies)]
    pub(crate) fn body(
        &mut self,
        alloc: Global,
        scope: &Scope<'_>,
        body: &Body,
    ) -> Result<(), Memory>
        ensures { OnOk result (self.new ≡ spec.body_part (seen.scope scope.now) body.now self.old) }
    {
        self.starts(alloc, scope, body.locals.as_slice())?;
        self.sequence(alloc, scope, body.statements.as_slice())
    }

    #[cycle(bodies)]
    fn sequence(
        &mut self,
        alloc: Global,
        scope: &Scope<'_>,
        lines: &[Labelled],
    ) -> Result<(), Memory>
        ensures { OnOk result (self.new ≡ spec.in_turn (map (spec.labelled_part (seen.scope scope.now)) lines.now) self.old) }
    {
        for line in lines {
            if let Some(stat) = &line.stat {
                self.statement(alloc, scope, stat)?;
            }
        }
        Ok(())
    }

    #[cycle(bodies)]
    fn branches(
        &mut self,
        alloc: Global,
        scope: &Scope<'_>,
        branches: &[Branch],
    ) -> Result<(), Memory>
        ensures { OnOk result (self.new ≡ spec.in_turn (map (spec.branch_part (seen.scope scope.now)) branches.now) self.old) }
    {
        for branch in branches {
            self.test(alloc, scope, &branch.test)?;
            self.sequence(alloc, scope, branch.taken.as_slice())?;
        }
        Ok(())
    }

    #[cycle(bodies)]
    fn statement(&mut self, alloc: Global, scope: &Scope<'_>, stat: &Stat) -> Result<(), Memory>
        ensures { OnOk result (self.new ≡ spec.stat_part (seen.scope scope.now) stat.now self.old) }
    {
        match stat {
            Stat::Call(value) => self.value(alloc, scope, value),
            Stat::Assign(place, value) => self.assignment(alloc, scope, place, value),
            Stat::Goto(_) => Ok(()),
            Stat::Return(value) => self.value_or_none(alloc, scope, value),
            Stat::Switch(value, _) => self.value(alloc, scope, value),
            Stat::Block(inner) => self.body(alloc, scope, inner),
            Stat::If(branches, otherwise) => {
                self.branches(alloc, scope, branches.as_slice())?;
                match otherwise {
                    Some(lines) => self.sequence(alloc, scope, lines.as_slice()),
                    None => Ok(()),
                }
            }
            Stat::For(_, start, step, end, lines) => {
                self.value(alloc, scope, start)?;
                self.step(alloc, scope, step)?;
                self.value(alloc, scope, end)?;
                self.sequence(alloc, scope, lines.as_slice())
            }
            Stat::To(_, count, lines) => {
                self.value(alloc, scope, count)?;
                self.sequence(alloc, scope, lines.as_slice())
            }
            Stat::While(test, lines) => {
                self.test(alloc, scope, test)?;
                self.sequence(alloc, scope, lines.as_slice())
            }
            Stat::Recover(_) => {
                self.recovers = true;
                Ok(())
            }
        }
    }
}

/// The depth of a value behind the place to which it is assigned.
fn over(place: Address, value: u16) -> u16
    ensures { result ≡ saturated (spec.over place value) }
{
    match place {
        Address::Path(depth) => behind(depth, value),
        _ => value,
    }
}
