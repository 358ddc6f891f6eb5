//! Which conditions, statements and bodies fit.

ghost use Rattle.std.specs.Prelude.{◌≡◌, map, slice_get};
ghost use Rattle.rt_tree_nodes.specs.Code as seen;
ghost use Rattle.rt_tree_nodes.specs.Scopes.{only, with};
ghost use Rattle.rt_tree_nodes.specs.Typing as typing;
ghost use Rattle.rt_tree.specs.Sights as sights;
ghost use Rattle.rt_tree.specs.Statements as statements;

use crate::sight::{Labels, Next, Seen, Sight};
use rt_modes::Mode;
use rt_tree_nodes::{
    Body, Branch, Labelled, Local, LocalStart, Place, Rel, Scope, Stat, Test, Value, ValueMode,
    compares, found_at, mode_of, result_of, suits, suits_as,
};

/// Whether a condition fits.
#[cycle(conditions)]
fn test_fits(scope: &Scope<'_>, test: &Test) -> bool
    ensures { result ≡ (statements.tested (seen.scope scope.now) test.now).fits }
{
    match test {
        Test::Compare(relation, left, right) => comparison_fits(scope, *relation, left, right),
        Test::And(tests) => tests.len() >= 2 && all_fit(scope, tests.as_slice()),
        Test::Or(tests) => tests.len() >= 2 && all_fit(scope, tests.as_slice()),
    }
}

#[cycle(conditions)]
fn all_fit(scope: &Scope<'_>, tests: &[Test]) -> bool
    ensures { result ≡ statements.all_fit (map (statements.tested (seen.scope scope.now)) tests.now) }
{
    for test in tests {
        if !test_fits(scope, test) {
            return false;
        }
    }
    true
}

fn comparison_fits(scope: &Scope<'_>, relation: Rel, left: &Value, right: &Value) -> bool
    ensures { result ≡ statements.comparison_fits relation (typing.valued (seen.scope scope.now) left.now) (typing.valued (seen.scope scope.now) right.now) }
{
    match mode_of(scope, left) {
        None => false,
        Some(left) => match mode_of(scope, right) {
            None => false,
            Some(right) => compares(relation, left, right),
        },
    }
}

/// Where the numbers go on behind a body that fits.
#[cycle(bodies)]
pub(crate) fn body(scope: &Scope<'_>, sight: &Sight<'_>, body: &Body, next: Next) -> Option<Next>
    ensures { result ≡ statements.body_part (seen.scope scope.now) body.now (sights.sight sight.now) next }
{
    let next = declares(scope, body.locals.as_slice(), next)?;
    sequence(scope, sight, body.statements.as_slice(), next)
}

/// Where the numbers go on behind a sequence that fits.
#[cycle(bodies)]
fn sequence(scope: &Scope<'_>, sight: &Sight<'_>, lines: &[Labelled], next: Next) -> Option<Next>
    ensures { result ≡ statements.sequence (map (statements.marked (seen.scope scope.now)) lines.now) (sights.sight sight.now) next }
{
    let end = labels_end(scope, lines, next.label)?;
    let labels = Labels {
        first: next.label,
        end,
    };
    let seen = Seen::Sequence(labels, sight.seen);
    let inner = Sight {
        seen: &seen,
        outermost: sight.outermost,
        answer: sight.answer,
    };
    let behind = Next {
        label: end,
        local: next.local,
    };
    in_order(scope, &inner, lines, behind)
}

#[cycle(bodies)]
fn in_order(scope: &Scope<'_>, sight: &Sight<'_>, lines: &[Labelled], next: Next) -> Option<Next>
    ensures { result ≡ statements.in_order (map (statements.marked (seen.scope scope.now)) lines.now) (sights.sight sight.now) next }
{
    let mut behind = next;
    for line in lines {
        if let Some(stat) = &line.stat {
            behind = statement(scope, sight, stat, behind)?;
        }
    }
    Some(behind)
}

/// Where the numbers go on behind a statement that fits.
#[cycle(bodies)]
fn statement(scope: &Scope<'_>, sight: &Sight<'_>, stat: &Stat, next: Next) -> Option<Next>
    ensures { result ≡ statements.stat_part (seen.scope scope.now) stat.now (sights.sight sight.now) next }
{
    match stat {
        Stat::Call(value) => only(result_of(scope, value).is_some(), next),
        Stat::Assign(place, value) => only(assigns(scope, place, value), next),
        Stat::Goto(l) => only(sight.seen.sees(*l), next),
        Stat::Return(value) => only(returns(scope, &sight.answer, value), next),
        Stat::Switch(value, labels) => only(
            is_int(scope, value) && labels.len() > 0 && all_seen(sight.seen, labels.as_slice()),
            next,
        ),
        Stat::Block(inner) => body(scope, sight, inner, next),
        Stat::If(branches, otherwise) => {
            let next = only(branches.len() > 0, next)?;
            let behind = branches_in_order(scope, sight, branches.as_slice(), next)?;
            match otherwise {
                None => Some(behind),
                Some(lines) => sequence(scope, sight, lines.as_slice(), behind),
            }
        }
        Stat::For(i, start, step, end, lines) => {
            let next = only(
                is_int(scope, start) && is_int_step(scope, step) && is_int(scope, end),
                next,
            )?;
            sequence(
                scope,
                sight,
                lines.as_slice(),
                takes_three(scope, *i, next)?,
            )
        }
        Stat::To(i, count, lines) => {
            let next = only(is_int(scope, count), next)?;
            sequence(
                scope,
                sight,
                lines.as_slice(),
                takes_three(scope, *i, next)?,
            )
        }
        Stat::While(test, lines) => {
            let next = only(test_fits(scope, test), next)?;
            sequence(scope, sight, lines.as_slice(), next)
        }
        Stat::Recover(l) => only(u32::from(*l) < sight.outermost, next),
    }
}

#[cycle(bodies)]
fn branches_in_order(
    scope: &Scope<'_>,
    sight: &Sight<'_>,
    branches: &[Branch],
    next: Next,
) -> Option<Next>
    ensures { result ≡ statements.branches_in_order (map (statements.branch_part (seen.scope scope.now)) branches.now) (sights.sight sight.now) next }
{
    let mut behind = next;
    for branch in branches {
        let tested = only(test_fits(scope, &branch.test), behind)?;
        behind = sequence(scope, sight, branch.taken.as_slice(), tested)?;
    }
    Some(behind)
}

fn only(fits: bool, next: Next) -> Option<Next>
    ensures { result ≡ only fits next }
{
    if fits { Some(next) } else { None }
}

/// The number behind the labels of a sequence, where they count on from `first`.
pub(crate) fn labels_end(scope: &Scope<'_>, lines: &[Labelled], first: u32) -> Option<u32>
    ensures { result ≡ statements.labels_end first (map (statements.marked (seen.scope scope.now)) lines.now) }
{
    let mut next = first;
    for line in lines {
        next = count(line.labels.as_slice(), next)?;
    }
    Some(next)
}

/// The number behind some labels, where they count on from `first`.
fn count(labels: &[u16], first: u32) -> Option<u32>
    ensures { result ≡ statements.counted first labels.now }
{
    let mut next = first;
    for label in labels {
        if u32::from(*label) != next {
            return None;
        }
        next += 1;
    }
    Some(next)
}

/// Where the numbers go on behind locals that are declared.
fn declares(scope: &Scope<'_>, locals: &[LocalStart], next: Next) -> Option<Next>
    ensures { result ≡ statements.declares (seen.scope scope.now) locals.now next }
{
    let mut behind = next;
    for local in locals {
        if usize::from(local.local) != behind.local || !start_fits(scope, local) {
            return None;
        }
        behind = Next {
            label: behind.label,
            local: behind.local + 1,
        };
    }
    Some(behind)
}

fn start_fits(scope: &Scope<'_>, declared: &LocalStart) -> bool
    ensures { result ≡ statements.start_fits (seen.scope scope.now) (slice_get scope.now.locals.now declared.now.local) declared.now.start }
{
    match scope.locals.get(usize::from(declared.local)) {
        None => false,
        Some(local) => match local {
            Local::Loop => false,
            Local::Variable(mode) => match &declared.start {
                None => matches!(mode, Mode::Byte | Mode::Int | Mode::Frac),
                Some(value) => suits(scope, value, mode),
            },
        },
    }
}

/// Where the numbers go on behind a loop's three locals.
fn takes_three(scope: &Scope<'_>, i: u16, next: Next) -> Option<Next>
    ensures { result ≡ statements.takes_three (seen.scope scope.now) i next }
{
    let first = usize::from(i);
    if first == next.local
        && is_loop(scope, first)
        && is_loop(scope, first + 1)
        && is_loop(scope, first + 2)
    {
        Some(Next {
            label: next.label,
            local: first + 3,
        })
    } else {
        None
    }
}

fn is_loop(scope: &Scope<'_>, i: usize) -> bool
    ensures { result ≡ statements.is_loop (slice_get scope.now.locals.now i) }
{
    matches!(scope.locals.get(i), Some(Local::Loop))
}

fn is_int(scope: &Scope<'_>, value: &Value) -> bool
    ensures { result ≡ statements.is_int_value (seen.scope scope.now) value.now }
{
    match mode_of(scope, value) {
        None => false,
        Some(mode) => mode.is_int(),
    }
}

fn is_int_step(scope: &Scope<'_>, step: &Option<Value>) -> bool
    ensures { result ≡ statements.is_int_step (seen.scope scope.now) step.now }
{
    match step {
        None => true,
        Some(value) => is_int(scope, value),
    }
}

/// Whether a value may be assigned to a place.
fn assigns(scope: &Scope<'_>, place: &Place, value: &Value) -> bool
    ensures { result ≡ statements.assigns (seen.scope scope.now) (with (typing.placed (seen.scope scope.now) place.now).found typing.assigned_mode) value.now }
{
    match found_at(scope, place) {
        None => false,
        Some(place) => match place.assigned() {
            None => false,
            Some(wanted) => suits_as(scope, value, &wanted),
        },
    }
}

/// Whether a RETURN fits.
fn returns(scope: &Scope<'_>, answer: &Option<ValueMode<'_>>, value: &Option<Value>) -> bool
    ensures { result ≡ statements.returns (seen.mode_found answer.now) (statements.value_returned (seen.scope scope.now) value.now) }
{
    match answer {
        None => value.is_none(),
        Some(mode) => match value {
            None => false,
            Some(value) => suits_as(scope, value, mode),
        },
    }
}

fn all_seen(seen_here: &Seen<'_>, labels: &[u16]) -> bool
    ensures { result ≡ statements.all_seen (sights.labels seen_here.now) labels.now }
{
    for label in labels {
        if !seen_here.sees(*label) {
            return false;
        }
    }
    true
}
