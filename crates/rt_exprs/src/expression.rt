//! Expressions and chains.

ghost use Rattle.std.specs.Prelude.{◌≡◌, map, IfOk, IfErr};
ghost use Rattle.rt_check_faults.specs.Outcomes.{Settles, IsAnswered, Outcome, Gives, UnlessMemory};
ghost use Rattle.rt_exprs.specs.Fitting.{Fits, Faulty};
ghost use Rattle.rt_syntax_exprs.specs.declared.tree.Expr.{out-Expr};
ghost use Rattle.rt_exprs.specs.Judging as spec;
ghost use Rattle.rt_exprs.specs.Modes.{want};
ghost use Rattle.rt_exprs.specs.Sights.{Sight};
ghost use Rattle.std.specs.Option.{option_copied};
ghost use Rattle.rt_exprs.specs.Operands.{Judged, judged_of, want_of};

use crate::links::{Reach, called, dot, element, reached, val};
use crate::operators::{dyadic, monadic};
use crate::suit::by_itself;
use crate::{
    Base, Meaning, Meant, Operand, Scope, Wanted, find, fits, name_at, text_at, wanted as wanted_of,
};
use rt_check_faults::{CheckFault, after};
use rt_grammar::At;
use rt_modes::Mode;
use rt_syntax_exprs::{Chain, Expr, Link};
use rt_tree::Value;
use rt_words::List;
use std::alloc::Global;

/// What an expression is by itself.
#[cycle(judge)]
pub fn judge<'a>(alloc: Global, scope: &Scope<'a>, expr: &Expr) -> Result<Operand<'a>, CheckFault>
    ensures { Gives judged_of result (spec.judged scope.now expr.now) }
{
    match expr {
        Expr::Number(n, at) => Ok(Operand {
            at: *at,
            is: Meant::Number(*n),
            known: true,
        }),
        Expr::Text(_, at) => text_at(scope, *at),
        Expr::Chain(chain) => judge_chain(alloc, scope, chain),
        Expr::Val(chain, at) => {
            let operand = judge_chain(alloc, scope, chain);
            val(alloc, *at, operand)
        }
        Expr::Monadic(op, inner, at) => {
            let operand = judge(alloc, scope, inner.get());
            monadic(alloc, *at, *op, operand)
        }
        Expr::Dyadic(op, left, right, at) => {
            let left = judge(alloc, scope, left.get());
            let right = judge(alloc, scope, right.get());
            dyadic(alloc, *at, *op, left, right)
        }
    }
}

/// What a chain is by itself.
#[cycle(judge)]
pub fn judge_chain<'a>(
    alloc: Global,
    scope: &Scope<'a>,
    chain: &Chain,
) -> Result<Operand<'a>, CheckFault>
    ensures { Gives judged_of result (spec.judged_chain scope.now chain.now) }
{
    let mut operand = named(find(scope, chain.name.as_slice()), chain.at);
    for link in chain.links.as_slice() {
        operand = follow(alloc, scope, link, operand);
    }
    operand
}

/// What the name of a chain is by itself.
fn named<'a>(meaning: Option<&'a Meaning>, at: At) -> Result<Operand<'a>, CheckFault>
    ensures { Gives judged_of result (spec.begun at (option_copied meaning.entry)) }
{
    let is = name_at(meaning, at)?;
    Ok(Operand {
        at,
        is,
        known: true,
    })
}

/// Where a link leads. Behind what isn't known what stands between parentheses is judged by itself.
#[cycle(judge)]
fn follow<'a>(
    alloc: Global,
    scope: &Scope<'a>,
    link: &Link,
    operand: Result<Operand<'a>, CheckFault>,
) -> Result<Operand<'a>, CheckFault>
    ensures { (t : Outcome Judged) → Gives judged_of operand.entry t → Gives judged_of result (spec.linked scope.now link.now t) }
{
    match link {
        Link::Dot(name, at) => dot(alloc, scope.modes(), name, *at, operand),
        Link::Apply(arguments, at) => {
            let arguments = arguments.as_slice();
            match operand {
                Ok(operand) => apply(alloc, scope, *at, arguments, operand),
                Err(fault) => Err(all_alone(alloc, scope, fault, arguments)),
            }
        }
    }
}

/// What parentheses, of which the first stands at `mark`, select or call.
#[cycle(judge)]
fn apply<'a>(
    alloc: Global,
    scope: &Scope<'a>,
    mark: At,
    arguments: &[Expr],
    operand: Operand<'a>,
) -> Result<Operand<'a>, CheckFault>
    ensures { Gives judged_of result (spec.apply mark (map (spec.judged scope.now) arguments.now) (judged_of operand.entry)) }
{
    let Operand {
        at: begins,
        is,
        known,
    } = operand;
    match reached(alloc, is)? {
        Reach::Rows(place, mode, standing) => {
            let subscript = fit_subscript(alloc, scope, mark, arguments);
            element(alloc, begins, place, mode, standing, known, subscript)
        }
        Reach::Calls(callee, parameters, answer) => {
            let arguments = fit_counted(alloc, scope, begins, arguments, parameters);
            called(alloc, begins, callee, answer, known, arguments)
        }
        Reach::Neither => Err(CheckFault::WrongMode(mark)),
    }
}

/// The fault that counts of a fault and of expressions that are judged by themselves.
#[cycle(judge)]
fn all_alone(alloc: Global, scope: &Scope<'_>, fault: CheckFault, exprs: &[Expr]) -> CheckFault
    ensures { UnlessMemory result (result ≡ spec.all_alone fault (map (spec.judged scope.now) exprs.now)) }
{
    let mut first = fault;
    for expr in exprs {
        first = first.sooner(by_itself(judge(alloc, scope, expr)));
    }
    first
}

/// A subscript, which stands alone between parentheses.
#[cycle(judge)]
fn fit_subscript(
    alloc: Global,
    scope: &Scope<'_>,
    mark: At,
    arguments: &[Expr],
) -> Result<Value, CheckFault>
    ensures { Gives (λ v. v) result (spec.subscript mark (map (spec.judged scope.now) arguments.now)) }
{
    match arguments {
        [only] => {
            let only = judge(alloc, scope, only);
            fits(alloc, only, Wanted::Basic(Base::Int))
        }
        _ => Err(CheckFault::WrongMode(mark)),
    }
}

/// The arguments of a call, as many as there are parameters.
#[cycle(judge)]
fn fit_counted(
    alloc: Global,
    scope: &Scope<'_>,
    at: At,
    arguments: &[Expr],
    parameters: &[Mode],
) -> Result<List<Value>, CheckFault>
    ensures { Gives (λ x. x) result (spec.counted at (map (spec.judged scope.now) arguments.now) parameters.now) }
{
    let values = fit_arguments(alloc, scope, arguments, parameters);
    match values {
        Ok(_) | Err(CheckFault::Unknown) if arguments.len() != parameters.len() => {
            Err(CheckFault::WrongCount(at))
        }
        _ => values,
    }
}

/// The arguments that have a parameter, each where its mode is wanted.
#[cycle(judge)]
fn fit_arguments(
    alloc: Global,
    scope: &Scope<'_>,
    arguments: &[Expr],
    parameters: &[Mode],
) -> Result<List<Value>, CheckFault>
    ensures { Gives (λ x. x) result (spec.arguments (map (spec.judged scope.now) arguments.now) parameters.now) }
{
    let count = arguments.len().min(parameters.len());
    let mut values = Ok(List::new(alloc, count)?);
    for i in 0..count {
        let argument = judge(alloc, scope, &arguments[i]);
        let next = fits(alloc, argument, wanted_of(&parameters[i]));
        values = after(values, next);
    }
    values
}

/// The value of an expression where a mode is wanted.
pub fn fit_wanted(
    alloc: Global,
    scope: &Scope<'_>,
    expr: &Expr,
    wanted: Wanted<'_>,
) -> Result<Value, CheckFault>
    ensures { Gives (λ v. v) result (spec.fitted scope.now expr.now (want_of wanted.entry)) }
{
    let operand = judge(alloc, scope, expr);
    fits(alloc, operand, wanted)
}

/// The fault of an expression of which no mode is known to be wanted: it is judged by itself. Where none stands, that is what
/// can't be known.
pub fn fit_by_itself(alloc: Global, expr: &Expr, scope: &Scope<'_>) -> CheckFault
    ensures value { UnlessMemory result (result ≡ spec.fitted_alone scope.now expr.now) }
{
    by_itself(judge(alloc, scope, expr))
}

/// The fault of an expression where nothing is wanted: it fits nothing.
pub fn fit_nothing(alloc: Global, expr: &Expr, scope: &Scope<'_>) -> CheckFault
    ensures value { UnlessMemory result (result ≡ spec.fitted_nowhere scope.now expr.now) }
{
    match judge(alloc, scope, expr) {
        Ok(operand) => CheckFault::WrongMode(operand.at),
        Err(CheckFault::Unknown) => CheckFault::WrongMode(begins(expr)),
        Err(fault) => fault,
    }
}

/// Where an expression begins.
fn begins(expr: &Expr) -> At
    ensures { result ≡ spec.begins_at (out-Expr expr.now) }
{
    match expr {
        Expr::Number(_, at)
        | Expr::Text(_, at)
        | Expr::Val(_, at)
        | Expr::Monadic(_, _, at)
        | Expr::Dyadic(_, _, _, at) => *at,
        Expr::Chain(chain) => chain.at,
    }
}

/// The value that an expression is where a mode is wanted.
///
/// # Errors
///
/// The fault of the least item, and of those of that item the one of least number; or want of memory.
pub fn fit(
    alloc: Global,
    expr: &Expr,
    wanted: &Mode,
    scope: &Scope<'_>,
) -> Result<Value, CheckFault>
    // What is answered fits.
    ensures fits { IfOk result (Fits scope.now expr.now wanted.now) }
    // What fits is answered, unless memory runs out.
    ensures only { (x : Value) → Fits scope.now expr.now wanted.now x → IsAnswered x result }
    // A fault stands, and counts of all that stand.
    ensures fault { IfErr result (Settles (Faulty scope.now expr.now wanted.now)) }
    // It is the value that is computed, or the fault.
    ensures value { Gives (λ v. v) result (spec.fitted scope.now expr.now (want wanted.now)) }
{
    fit_wanted(alloc, scope, expr, wanted_of(wanted))
}

/// At most one value fits, and none where a fault stands.
pub fn one_value()
    ensures one { (s : Sight) → (e : Expr) → (m : Mode) → (x y : Value) → Fits s e m x → Fits s e m y → x ≡ y }
    ensures none { (s : Sight) → (e : Expr) → (m : Mode) → (x : Value) → (g : CheckFault) → Fits s e m x → Faulty s e m g → ⊥ }
{}
