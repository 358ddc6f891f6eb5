//! Expressions (BS 5904, expressions).

ghost use Rattle.std.specs.Prelude.{◌≡◌, ◌++◌, IfOk};
ghost use Rattle.rt_grammar.specs.Parsing as parse;
ghost use Rattle.rt_grammar.specs.Parsing.{Gives};
ghost use Rattle.rt_syntax_exprs.specs.Expressions as line;
ghost use Rattle.rt_syntax_exprs.specs.ExpressionParser as reads;
ghost use Rattle.rt_syntax_exprs.specs.Tables as tables;

use crate::limits::Context;
use crate::table::{
    Level, begins_expression, dyadic_of, is_dyadic, is_link, is_monadic, monadic_of,
};
use crate::tree::{Chain, Expr, Link, Op1, Op2};
use rt_grammar::{
    At, Ident, Next, Stop, after_mark, after_word, at_of, found_in, ident, mark_comes, next_of,
    number, open_mark, text,
};
use rt_pieces::{Item, Mark, Word};
use rt_words::{Boxed, List, Memory};
use std::alloc::Global;

#[tactic(auto, unfolding(crate::specs::ExpressionParser::literal))]
fn literal(context: Context, items: &[Item]) -> Result<(Expr, &[Item]), Stop>
    ensures { Gives (λ x. (x.0, x.1.now)) result (reads.literal context items.now) }
{
    let at = at_of(context.total, items);
    let (n, rest) = number(items)?;
    Ok((Expr::Number(n, at), rest))
}

#[tactic(auto, unfolding(crate::specs::ExpressionParser::string))]
fn string(alloc: Global, context: Context, items: &[Item]) -> Result<(Expr, &[Item]), Stop>
    ensures { Gives (λ x. (x.0, x.1.now)) result (reads.string context items.now) }
{
    let at = at_of(context.total, items);
    let (bytes, rest) = text(alloc, items)?;
    Ok((Expr::Text(bytes, at), rest))
}

#[tactic(auto, unfolding(crate::specs::ExpressionParser::dot))]
fn dot(alloc: Global, context: Context, items: &[Item]) -> Result<(Link, &[Item]), Stop>
    ensures { Gives (λ x. (x.0, x.1.now)) result (reads.dot context items.now) }
{
    let at = at_of(context.total, items);
    let rest = after_mark(Mark::Dot, items)?;
    let (name, rest) = ident(alloc, context.total, rest)?;
    Ok((Link::Dot(name, at), rest))
}

#[tactic(auto, unfolding(crate::specs::ExpressionParser::operator))]
fn operator(context: Context, items: &[Item]) -> Result<((Op1, At), &[Item]), Stop>
    ensures { Gives (λ x. (x.0, x.1.now)) result (reads.operator context items.now) }
{
    let at = at_of(context.total, items);
    let (op, rest) = found_in(monadic_of(next_of(items)), items)?;
    Ok(((op, at), rest))
}

/// The monadic operators in a row.
#[tactic(auto, unfolding(crate::specs::ExpressionParser::operators))]
fn operators(
    alloc: Global,
    context: Context,
    items: &[Item],
) -> Result<(List<(Op1, At)>, &[Item]), Stop>
    ensures { Gives (λ x. (x.0, x.1.now)) result (reads.operators context items.now) }
{
    let mut rest = items;
    let mut found = List::new(alloc, 0)?;
    for _turn in 0..items.len() {
        if !is_monadic(next_of(rest)) {
            return Ok((found, rest));
        }
        let (op, after) = operator(context, rest)?;
        found.push(op)?;
        rest = after;
    }
    Ok((found, rest))
}

/// The operators, the first one outermost, over an operand.
fn applied(alloc: Global, mut operators: List<(Op1, At)>, operand: Expr) -> Result<Expr, Memory>
    ensures { IfOk result (λ e. e ≡ line.applied operators operand) }
{
    let mut whole = operand;
    while let Some((op, at)) = operators.pop() {
        whole = Expr::Monadic(op, Boxed::new(alloc, whole)?, at);
    }
    Ok(whole)
}

fn dyadic(alloc: Global, op: Op2, left: Expr, right: Expr, at: At) -> Result<Expr, Memory>
    ensures { IfOk result (λ e. e ≡ Expr.Dyadic op left right at) }
{
    Ok(Expr::Dyadic(op, Boxed::new(alloc, left)?, Boxed::new(alloc, right)?, at))
}

fn chain_of(first: Ident, links: List<Link>) -> Chain
    ensures { result ≡ reads.chain_as first links }
{
    Chain {
        name: first.name,
        links,
        at: first.at,
    }
}

/// An expression, where so many parentheses may still open.
#[cycle(expression)]
#[tactic(auto, unfolding(crate::specs::ExpressionParser::nested))]
fn nested(
    alloc: Global,
    context: Context,
    levels: usize,
    items: &[Item],
) -> Result<(Expr, &[Item]), Stop>
    ensures { Gives (λ x. (x.0, x.1.now)) result (reads.nested context levels items.now) }
{
    let least = items.len().saturating_sub(context.limits.items);
    match dyadics(alloc, context, levels, Level::Sum, items) {
        Ok((found, rest)) => {
            if least <= rest.len() {
                Ok((found, rest))
            } else {
                Err(Stop::Unfit(least))
            }
        }
        Err(Stop::Unfit(left)) => {
            if least <= left {
                Err(Stop::Unfit(left))
            } else {
                Err(Stop::Unfit(least))
            }
        }
        Err(Stop::Memory) => Err(Stop::Memory),
    }
}

/// An expression behind a parenthesis that opened one of so many levels.
#[cycle(expression)]
#[tactic(auto, unfolding(crate::specs::ExpressionParser::inside, crate::specs::ExpressionParser::nested))]
fn inside(
    alloc: Global,
    context: Context,
    levels: usize,
    items: &[Item],
) -> Result<(Expr, &[Item]), Stop>
    ensures { Gives (λ x. (x.0, x.1.now)) result (reads.inside context levels items.now) }
{
    if levels == 0 {
        return Err(Stop::Unfit(items.len()));
    }
    nested(alloc, context, levels - 1, items)
}

/// Operands with operators of one level between them.
#[cycle(expression)]
#[tactic(auto, unfolding(crate::specs::ExpressionParser::dyadics))]
fn dyadics(
    alloc: Global,
    context: Context,
    levels: usize,
    level: Level,
    items: &[Item],
) -> Result<(Expr, &[Item]), Stop>
    ensures { Gives (λ x. (x.0, x.1.now)) result (reads.dyadics context levels (reads.inside context levels) level (reads.below context levels (reads.inside context levels) level) items.now) }
{
    let at = at_of(context.total, items);
    let (mut whole, mut rest) = below(alloc, context, levels, level, items)?;
    for _turn in 0..rest.len() {
        if !is_dyadic(level, next_of(rest)) {
            return Ok((whole, rest));
        }
        let ((op, right), after) = right_of(alloc, context, levels, level, rest)?;
        whole = dyadic(alloc, op, whole, right, at)?;
        rest = after;
    }
    Ok((whole, rest))
}

/// An operator of the level and its right operand.
#[cycle(expression)]
#[tactic(auto, unfolding(crate::specs::ExpressionParser::right_of))]
fn right_of(
    alloc: Global,
    context: Context,
    levels: usize,
    level: Level,
    items: &[Item],
) -> Result<((Op2, Expr), &[Item]), Stop>
    ensures { Gives (λ x. (x.0, x.1.now)) result (reads.right_of context levels (reads.inside context levels) level (reads.below context levels (reads.inside context levels) level) items.now) }
{
    let (op, rest) = found_in(dyadic_of(level, next_of(items)), items)?;
    let (right, rest) = below(alloc, context, levels, level, rest)?;
    Ok(((op, right), rest))
}

/// What stands between the operators of a level.
#[cycle(expression)]
fn below(
    alloc: Global,
    context: Context,
    levels: usize,
    level: Level,
    items: &[Item],
) -> Result<(Expr, &[Item]), Stop>
    ensures { Gives (λ x. (x.0, x.1.now)) result (reads.below context levels (reads.inside context levels) level items.now) }
{
    match level {
        Level::Shift => primary(alloc, context, levels, items),
        Level::Product => dyadics(alloc, context, levels, Level::Shift, items),
        Level::Land => dyadics(alloc, context, levels, Level::Product, items),
        Level::Sum => dyadics(alloc, context, levels, Level::Land, items),
    }
}

#[cycle(expression)]
#[tactic(auto, unfolding(crate::specs::ExpressionParser::primary))]
fn primary(
    alloc: Global,
    context: Context,
    levels: usize,
    items: &[Item],
) -> Result<(Expr, &[Item]), Stop>
    ensures { Gives (λ x. (x.0, x.1.now)) result (reads.primary context levels (reads.inside context levels) items.now) }
{
    let (operators, rest) = operators(alloc, context, items)?;
    let (operand, rest) = operand(alloc, context, levels, rest)?;
    Ok((applied(alloc, operators, operand)?, rest))
}

#[cycle(expression)]
#[tactic(auto, unfolding(crate::specs::ExpressionParser::operand))]
fn operand(
    alloc: Global,
    context: Context,
    levels: usize,
    items: &[Item],
) -> Result<(Expr, &[Item]), Stop>
    ensures { Gives (λ x. (x.0, x.1.now)) result (reads.operand context levels (reads.inside context levels) items.now) }
{
    match next_of(items) {
        Next::Name => chained(alloc, context, levels, items),
        Next::Number => literal(context, items),
        Next::Text => string(alloc, context, items),
        Next::Word(Word::Val) => valued(alloc, context, levels, items),
        _ => parenthesized(alloc, context, levels, items),
    }
}

#[cycle(expression)]
#[tactic(auto, unfolding(crate::specs::ExpressionParser::chained))]
fn chained(
    alloc: Global,
    context: Context,
    levels: usize,
    items: &[Item],
) -> Result<(Expr, &[Item]), Stop>
    ensures { Gives (λ x. (x.0, x.1.now)) result (reads.chained context levels (reads.inside context levels) items.now) }
{
    let (found, rest) = chain(alloc, context, levels, items)?;
    Ok((Expr::Chain(found), rest))
}

/// `VAL` and a chain.
#[cycle(expression)]
#[tactic(auto, unfolding(crate::specs::ExpressionParser::valued))]
fn valued(
    alloc: Global,
    context: Context,
    levels: usize,
    items: &[Item],
) -> Result<(Expr, &[Item]), Stop>
    ensures { Gives (λ x. (x.0, x.1.now)) result (reads.valued context levels (reads.inside context levels) items.now) }
{
    let at = at_of(context.total, items);
    let rest = after_word(Word::Val, items)?;
    let (found, rest) = chain(alloc, context, levels, rest)?;
    Ok((Expr::Val(found, at), rest))
}

#[cycle(expression)]
#[tactic(auto, unfolding(crate::specs::ExpressionParser::parenthesized))]
fn parenthesized(
    alloc: Global,
    context: Context,
    levels: usize,
    items: &[Item],
) -> Result<(Expr, &[Item]), Stop>
    ensures { Gives (λ x. (x.0, x.1.now)) result (reads.parenthesized context levels (reads.inside context levels) items.now) }
{
    let rest = open_mark(levels, Mark::Open, items)?;
    let (found, rest) = inside(alloc, context, levels, rest)?;
    let rest = after_mark(Mark::Close, rest)?;
    Ok((found, rest))
}

/// A name and its links.
#[cycle(expression)]
#[tactic(auto, unfolding(crate::specs::ExpressionParser::chain))]
fn chain(
    alloc: Global,
    context: Context,
    levels: usize,
    items: &[Item],
) -> Result<(Chain, &[Item]), Stop>
    ensures { Gives (λ x. (x.0, x.1.now)) result (reads.chain context levels (reads.inside context levels) items.now) }
{
    let (first, mut rest) = ident(alloc, context.total, items)?;
    let mut links = List::new(alloc, 0)?;
    for _turn in 0..rest.len() {
        if !is_link(next_of(rest)) {
            return Ok((chain_of(first, links), rest));
        }
        let (link, after) = link(alloc, context, levels, rest)?;
        links.push(link)?;
        rest = after;
    }
    Ok((chain_of(first, links), rest))
}

#[cycle(expression)]
#[tactic(auto, unfolding(crate::specs::ExpressionParser::link_of))]
fn link(
    alloc: Global,
    context: Context,
    levels: usize,
    items: &[Item],
) -> Result<(Link, &[Item]), Stop>
    ensures { Gives (λ x. (x.0, x.1.now)) result (reads.link_of context levels (reads.inside context levels) items.now) }
{
    match next_of(items) {
        Next::Mark(Mark::Dot) => dot(alloc, context, items),
        _ => apply(alloc, context, levels, items),
    }
}

/// Subscripts or arguments in parentheses.
#[cycle(expression)]
#[tactic(auto, unfolding(crate::specs::ExpressionParser::apply))]
fn apply(
    alloc: Global,
    context: Context,
    levels: usize,
    items: &[Item],
) -> Result<(Link, &[Item]), Stop>
    ensures { Gives (λ x. (x.0, x.1.now)) result (reads.apply context levels (reads.inside context levels) items.now) }
{
    let at = at_of(context.total, items);
    let rest = open_mark(levels, Mark::Open, items)?;
    let (found, rest) = arguments(alloc, context, levels, rest)?;
    let rest = after_mark(Mark::Close, rest)?;
    Ok((Link::Apply(found, at), rest))
}

#[cycle(expression)]
#[tactic(auto, unfolding(crate::specs::ExpressionParser::arguments, crate::specs::ExpressionParser::listed, crate::specs::ExpressionParser::another))]
fn arguments(
    alloc: Global,
    context: Context,
    levels: usize,
    items: &[Item],
) -> Result<(List<Expr>, &[Item]), Stop>
    ensures { Gives (λ x. (x.0, x.1.now)) result (reads.arguments context levels (reads.inside context levels) items.now) }
{
    let mut found = List::new(alloc, 0)?;
    if !begins_expression(next_of(items)) {
        return Ok((found, items));
    }
    let (first, mut rest) = inside(alloc, context, levels, items)?;
    found.push(first)?;
    for _turn in 0..rest.len() {
        if !mark_comes(Mark::Comma, rest) {
            return Ok((found, rest));
        }
        let after = after_mark(Mark::Comma, rest)?;
        let (more, after) = inside(alloc, context, levels, after)?;
        found.push(more)?;
        rest = after;
    }
    Ok((found, rest))
}

/// An expression that stands in no parenthesis.
#[tactic(auto, unfolding(crate::specs::ExpressionParser::expression))]
pub fn expression(alloc: Global, context: Context, items: &[Item]) -> Result<(Expr, &[Item]), Stop>
    ensures { Gives (λ x. (x.0, x.1.now)) result (reads.expression context items.now) }
{
    nested(alloc, context, context.limits.parentheses, items)
}

/// The chain that a statement assigns to or calls.
#[tactic(auto, unfolding(crate::specs::ExpressionParser::place))]
pub fn place(alloc: Global, context: Context, items: &[Item]) -> Result<(Chain, &[Item]), Stop>
    ensures { Gives (λ x. (x.0, x.1.now)) result (reads.place context items.now) }
{
    chain(alloc, context, context.limits.parentheses, items)
}
