//! Conditions.

ghost use Rattle.std.specs.Prelude.{◌≡◌, Ok, Some, [], map, option_map, IfOk, IfErr};
ghost use Rattle.rt_tree_nodes.specs.declared.statement.Test.{Test};
ghost use Rattle.rt_check_faults.specs.Outcomes.{Settles, IsAnswered, Gives};
ghost use Rattle.rt_exprs.specs.Fitting.{TestIs, FaultInTest};
ghost use Rattle.rt_modes.specs.declared.mode.Mode.TheVariants as mode;
ghost use Rattle.rt_modes.specs.declared.mode.Mode.{out-Mode};
ghost use Rattle.rt_exprs.specs.Judging as spec;
ghost use Rattle.rt_exprs.specs.Operands.{judged_of, seen, want_of};

use crate::expression::{fit_by_itself, fit_wanted, judge};
use crate::operators::{base_in, frac_or_int};
use crate::{Base, Meant, Operand, Scope, Wanted, suits};
use rt_check_faults::{CheckFault, after, both};
use rt_modes::Mode;
use rt_syntax_exprs::{Cond, Expr, Rel};
use rt_tree::{Rel as MadeRel, Test};
use rt_words::List;
use std::alloc::Global;

/// The test that a condition is.
///
/// # Errors
///
/// The fault of the least item, and of those of that item the one of least number; or want of memory.
pub fn fit_condition(alloc: Global, condition: &Cond, scope: &Scope<'_>) -> Result<Test, CheckFault>
    ensures fits { IfOk result (TestIs scope.now condition.now) }
    ensures only { (t : Test) → TestIs scope.now condition.now t → IsAnswered t result }
    ensures fault { IfErr result (Settles (FaultInTest scope.now condition.now)) }
    ensures value { Gives (λ t. t) result (spec.tested scope.now condition.now) }
{
    test(alloc, condition, scope)
}

#[cycle(condition)]
fn test(alloc: Global, condition: &Cond, scope: &Scope<'_>) -> Result<Test, CheckFault>
    ensures { Gives (λ t. t) result (spec.tested scope.now condition.now) }
{
    match condition {
        Cond::Or(conditions, _) => match fit_all(alloc, conditions.as_slice(), scope) {
            Ok(tests) => Ok(Test::Or(tests)),
            Err(fault) => Err(fault),
        },
        Cond::And(conditions, _) => match fit_all(alloc, conditions.as_slice(), scope) {
            Ok(tests) => Ok(Test::And(tests)),
            Err(fault) => Err(fault),
        },
        Cond::Compare(relation, left, right, _) => compare(alloc, *relation, left, right, scope),
    }
}

/// The tests of conditions.
#[cycle(condition)]
fn fit_all(alloc: Global, conditions: &[Cond], scope: &Scope<'_>) -> Result<List<Test>, CheckFault>
    ensures { Gives (λ x. x) result (spec.all_from (Ok []) (map (spec.tested scope.now) conditions.now)) }
{
    let mut tests = Ok(List::new(alloc, conditions.len())?);
    for condition in conditions {
        let next = test(alloc, condition, scope);
        tests = after(tests, next);
    }
    tests
}

/// A comparison.
fn compare(
    alloc: Global,
    relation: Rel,
    left: &Expr,
    right: &Expr,
    scope: &Scope<'_>,
) -> Result<Test, CheckFault>
    ensures { Gives (λ t. t) result (spec.compare relation (spec.judged scope.now left.now) (spec.judged scope.now right.now)) }
{
    let operand = match judge(alloc, scope, left) {
        Ok(operand) => operand,
        Err(fault) => return Err(fault.sooner(fit_by_itself(alloc, right, scope))),
    };
    let first = operand.at;
    let byte = Mode::Byte;
    let int = Mode::Int;
    match compared(relation, &operand.is, &byte, &int) {
        None => {
            let fault = CheckFault::WrongMode(first);
            Err(fault.sooner(fit_by_itself(alloc, right, scope)))
        }
        Some(wanted) => compare_with(alloc, relation, operand, right, wanted, scope),
    }
}

/// A comparison, by what it wants of both sides.
fn compare_with(
    alloc: Global,
    relation: Rel,
    left: Operand<'_>,
    right: &Expr,
    wanted: Wanted<'_>,
    scope: &Scope<'_>,
) -> Result<Test, CheckFault>
    ensures { Gives (λ t. t) result (spec.compare_by relation (judged_of left.entry) (spec.judged scope.now right.now) (Some (want_of wanted.entry))) }
{
    let x = suits(alloc, left, wanted);
    let y = fit_wanted(alloc, scope, right, wanted);
    let (x, y) = both(x, y)?;
    Ok(Test::Compare(made_relation(relation), x, y))
}

/// What a relation wants of both sides, by its left side.
fn compared<'a>(relation: Rel, is: &Meant<'a>, byte: &'a Mode, int: &'a Mode) -> Option<Wanted<'a>>
    requires byte_is { byte.now ≡ mode.Byte }
    requires int_is { int.now ≡ mode.Int }
    ensures { option_map want_of result ≡ spec.compares relation (seen is.now) }
{
    match relation {
        Rel::Same | Rel::Different => reference_in(is, byte, int),
        _ => Some(Wanted::Basic(frac_or_int(base_in(is)))),
    }
}

/// The reference that a comparison of references wants, by its left side.
fn reference_in<'a>(is: &Meant<'a>, byte: &'a Mode, int: &'a Mode) -> Option<Wanted<'a>>
    requires byte_is { byte.now ≡ mode.Byte }
    requires int_is { int.now ≡ mode.Int }
    ensures { option_map want_of result ≡ spec.reference_in (seen is.now) }
{
    match is {
        Meant::Text(_) => Some(Wanted::Row(byte)),
        Meant::Place(_, mode, _) => Some(place_compared(mode)),
        Meant::Loop(_) => Some(Wanted::Ref(int)),
        Meant::Result(_, mode) => result_compared(mode),
        _ => None,
    }
}

fn place_compared(mode: &Mode) -> Wanted<'_>
    ensures { want_of result ≡ spec.place_compares mode.now (out-Mode mode.now) }
{
    match mode {
        Mode::Ref(to) => Wanted::Ref(to.get()),
        Mode::RefArray(of) => Wanted::Row(of.get()),
        Mode::Array(_, of) => Wanted::Row(of.get()),
        _ => Wanted::Ref(mode),
    }
}

fn result_compared(mode: &Mode) -> Option<Wanted<'_>>
    ensures { option_map want_of result ≡ spec.result_compares (out-Mode mode.now) }
{
    match mode {
        Mode::Ref(to) => Some(Wanted::Ref(to.get())),
        Mode::RefArray(of) => Some(Wanted::Row(of.get())),
        _ => None,
    }
}

fn made_relation(relation: Rel) -> MadeRel
    ensures { result ≡ spec.made_rel relation }
{
    match relation {
        Rel::Equal => MadeRel::Equal,
        Rel::Unequal => MadeRel::Unequal,
        Rel::Less => MadeRel::Less,
        Rel::LessOrEqual => MadeRel::LessOrEqual,
        Rel::Greater => MadeRel::Greater,
        Rel::GreaterOrEqual => MadeRel::GreaterOrEqual,
        Rel::Same => MadeRel::Same,
        Rel::Different => MadeRel::Different,
    }
}
