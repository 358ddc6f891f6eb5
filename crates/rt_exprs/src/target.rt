//! Places that are assigned, and calls that stand alone.

ghost use Rattle.std.specs.Prelude.{◌≡◌, Option, IfOk, IfErr};
ghost use Rattle.rt_modes.specs.declared.mode.Mode.{Mode};
ghost use Rattle.rt_tree_nodes.specs.declared.value.Place.{Place};
ghost use Rattle.rt_check_faults.specs.Outcomes.{Settles, IsAnswered, IsAnsweredAs, Gives};
ghost use Rattle.rt_exprs.specs.Fitting.{AssignsAs, NotAssigned, AssignsValAs, NotAssignedVal, CallIs, NoCall};
ghost use Rattle.std.specs.Option.{option_copied};
ghost use Rattle.rt_modes.specs.declared.mode.Mode.{out-Mode};
ghost use Rattle.rt_syntax_exprs.specs.declared.tree.Link.{out-Link};
ghost use Rattle.rt_exprs.specs.Judging as spec;
ghost use Rattle.rt_exprs.specs.Operands.{judged_of};

use crate::expression::judge_chain;
use crate::links::val;
use crate::{Meaning, Meant, Operand, Scope, find};
use rt_check_faults::CheckFault;
use rt_grammar::At;
use rt_modes::Mode;
use rt_syntax_exprs::{Chain, Link};
use rt_tree::{Place, Value};
use std::alloc::Global;

/// The place that a chain assigns, and its mode; the mode alone where the place can't be known.
///
/// # Errors
///
/// The fault of the least item, and of those of that item the one of least number; or want of memory.
pub fn fit_target<'a>(
    alloc: Global,
    chain: &Chain,
    scope: &Scope<'a>,
) -> Result<(Option<Place>, &'a Mode), CheckFault>
    ensures fits { IfOk result (λ x. AssignsAs scope.now chain.now (x.0, x.1.now)) }
    ensures only { (x : Option Place × Mode) → AssignsAs scope.now chain.now x → IsAnsweredAs (λ y. (y.0, y.1.now)) x result }
    ensures fault { IfErr result (Settles (NotAssigned scope.now chain.now)) }
    ensures value { Gives (λ x. (x.0, x.1.now)) result (spec.target scope.now chain.now) }
{
    target(alloc, chain, scope)
}

fn target<'a>(
    alloc: Global,
    chain: &Chain,
    scope: &Scope<'a>,
) -> Result<(Option<Place>, &'a Mode), CheckFault>
    ensures { Gives (λ x. (x.0, x.1.now)) result (spec.target scope.now chain.now) }
{
    if is_brick(find(scope, chain.name.as_slice()), chain.links.as_slice()) {
        return Err(CheckFault::NotAssignable(chain.at));
    }
    assigned(judge_chain(alloc, scope, chain)?)
}

/// The place that VAL, which stands at `at`, and a chain assign, and its mode; the mode alone where the place can't be known.
///
/// # Errors
///
/// As those of `fit_target`.
pub fn fit_val_target<'a>(
    alloc: Global,
    at: At,
    chain: &Chain,
    scope: &Scope<'a>,
) -> Result<(Option<Place>, &'a Mode), CheckFault>
    ensures fits { IfOk result (λ x. AssignsValAs scope.now at chain.now (x.0, x.1.now)) }
    ensures only { (x : Option Place × Mode) → AssignsValAs scope.now at chain.now x → IsAnsweredAs (λ y. (y.0, y.1.now)) x result }
    ensures fault { IfErr result (Settles (NotAssignedVal scope.now at chain.now)) }
    ensures value { Gives (λ x. (x.0, x.1.now)) result (spec.val_target scope.now at chain.now) }
{
    val_target(alloc, at, chain, scope)
}

fn val_target<'a>(
    alloc: Global,
    at: At,
    chain: &Chain,
    scope: &Scope<'a>,
) -> Result<(Option<Place>, &'a Mode), CheckFault>
    ensures { Gives (λ x. (x.0, x.1.now)) result (spec.val_target scope.now at chain.now) }
{
    let operand = judge_chain(alloc, scope, chain);
    assigned(val(alloc, at, operand)?)
}

/// The call that a chain is which stands as a statement.
///
/// # Errors
///
/// As those of `fit_target`.
pub fn fit_call(alloc: Global, chain: &Chain, scope: &Scope<'_>) -> Result<Value, CheckFault>
    ensures fits { IfOk result (CallIs scope.now chain.now) }
    ensures only { (x : Value) → CallIs scope.now chain.now x → IsAnswered x result }
    ensures fault { IfErr result (Settles (NoCall scope.now chain.now)) }
    ensures value { Gives (λ v. v) result (spec.alone scope.now chain.now) }
{
    call_alone(alloc, chain, scope)
}

fn call_alone(alloc: Global, chain: &Chain, scope: &Scope<'_>) -> Result<Value, CheckFault>
    ensures { Gives (λ v. v) result (spec.alone scope.now chain.now) }
{
    match judge_chain(alloc, scope, chain) {
        Ok(operand) => call_of(operand),
        Err(CheckFault::Unknown) if !ends_in_call(chain.links.as_slice()) => {
            Err(CheckFault::WrongMode(chain.at))
        }
        Err(fault) => Err(fault),
    }
}

fn call_of(operand: Operand<'_>) -> Result<Value, CheckFault>
    ensures { Gives (λ v. v) result (spec.call_of (judged_of operand.entry)) }
{
    let Operand { at, is, known } = operand;
    match is {
        Meant::Result(call, _) | Meant::Done(call) if known => Ok(call),
        Meant::Result(_, _) | Meant::Done(_) => Err(CheckFault::Unknown),
        _ => Err(CheckFault::WrongMode(at)),
    }
}

/// Whether the last link is parentheses, as that of every call is.
fn ends_in_call(links: &[Link]) -> bool
    ensures { result ≡ spec.ends_in_apply links.now }
{
    match links.get(links.len().saturating_sub(1)) {
        Some(link) => is_apply(link),
        None => false,
    }
}

fn is_apply(link: &Link) -> bool
    ensures { result ≡ spec.is_apply_link (out-Link link.now) }
{
    match link {
        Link::Apply(_, _) => true,
        Link::Dot(_, _) => false,
    }
}

/// Whether a chain is the name of a data or stack brick alone.
fn is_brick(meaning: Option<&Meaning>, links: &[Link]) -> bool
    ensures { result ≡ spec.is_brick (option_copied meaning.entry) links.now }
{
    match meaning {
        Some(Meaning::Data(_)) => links.is_empty(),
        Some(Meaning::Stack(_)) => links.is_empty(),
        Some(Meaning::UnknownProc) => links.is_empty(),
        _ => false,
    }
}

/// The place that an operand assigns.
fn assigned<'a>(operand: Operand<'a>) -> Result<(Option<Place>, &'a Mode), CheckFault>
    ensures { Gives (λ x. (x.0, x.1.now)) result (spec.assigned (judged_of operand.entry)) }
{
    let Operand { at, is, known } = operand;
    match is {
        Meant::Place(place, mode, _) => {
            if is_whole(mode) {
                return Err(CheckFault::NotAssignable(at));
            }
            Ok((if known { Some(place) } else { None }, mode))
        }
        Meant::Loop(_) | Meant::Brick(_, _) => Err(CheckFault::NotAssignable(at)),
        _ => Err(CheckFault::WrongMode(at)),
    }
}

/// Whether a mode is a record or an array, which isn't assigned as a whole.
fn is_whole(mode: &Mode) -> bool
    ensures { result ≡ spec.is_whole (out-Mode mode.now) }
{
    match mode {
        Mode::Record(_) => true,
        Mode::Array(_, _) => true,
        _ => false,
    }
}
