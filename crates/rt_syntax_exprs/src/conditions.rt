//! Conditions (BS 5904, conditions).

ghost use Rattle.std.specs.Prelude.{◌≡◌, IfOk, ◌∷◌, []};
ghost use Rattle.rt_grammar.specs.Parsing.{Gives};
ghost use Rattle.rt_syntax_exprs.specs.ExpressionParser as reads;

use crate::expressions::expression;
use crate::limits::Context;
use crate::table::relation_of;
use crate::tree::Cond;
use rt_grammar::{At, Stop, after_word, at_of, found_in, next_of, word_comes};
use rt_pieces::{Item, Word};
use rt_words::{List, Memory};
use std::alloc::Global;

/// Two expressions with a relation between them.
#[tactic(auto, unfolding(crate::specs::ExpressionParser::comparison))]
fn comparison(alloc: Global, context: Context, items: &[Item]) -> Result<(Cond, &[Item]), Stop>
    ensures { Gives (λ x. (x.0, x.1.now)) result (reads.comparison context items.now) }
{
    let at = at_of(context.total, items);
    let (left, rest) = expression(alloc, context, items)?;
    let (relation, rest) = found_in(relation_of(next_of(rest)), rest)?;
    let (right, rest) = expression(alloc, context, rest)?;
    Ok((Cond::Compare(relation, left, right, at), rest))
}

#[tactic(auto, unfolding(crate::specs::ExpressionParser::and_comparison))]
fn and_comparison(alloc: Global, context: Context, items: &[Item]) -> Result<(Cond, &[Item]), Stop>
    ensures { Gives (λ x. (x.0, x.1.now)) result (reads.and_comparison context items.now) }
{
    let rest = after_word(Word::And, items)?;
    comparison(alloc, context, rest)
}

/// A list of one condition.
fn alone(alloc: Global, first: Cond) -> Result<List<Cond>, Memory>
    ensures { IfOk result (λ l. l ≡ first ∷ []) }
{
    let mut all = List::new(alloc, 2)?;
    all.push(first)?;
    Ok(all)
}

/// The rest of comparisons with AND between them.
#[tactic(auto, unfolding(crate::specs::ExpressionParser::conjunction_from))]
fn conjunction_from<'a>(
    alloc: Global,
    context: Context,
    at: At,
    found: List<Cond>,
    items: &'a [Item],
) -> Result<(Cond, &'a [Item]), Stop>
    ensures { Gives (λ x. (x.0, x.1.now)) result (reads.conjunction_from context at found items.now) }
{
    let mut all = found;
    let (second, mut rest) = and_comparison(alloc, context, items)?;
    all.push(second)?;
    for _turn in 0..rest.len() {
        if !word_comes(Word::And, rest) {
            return Ok((Cond::And(all, at), rest));
        }
        let (more, after) = and_comparison(alloc, context, rest)?;
        all.push(more)?;
        rest = after;
    }
    Ok((Cond::And(all, at), rest))
}

/// Comparisons with AND between them; one alone is that comparison.
#[tactic(auto, unfolding(crate::specs::ExpressionParser::conjunction))]
fn conjunction(alloc: Global, context: Context, items: &[Item]) -> Result<(Cond, &[Item]), Stop>
    ensures { Gives (λ x. (x.0, x.1.now)) result (reads.conjunction context items.now) }
{
    let at = at_of(context.total, items);
    let (first, rest) = comparison(alloc, context, items)?;
    if !word_comes(Word::And, rest) {
        return Ok((first, rest));
    }
    conjunction_from(alloc, context, at, alone(alloc, first)?, rest)
}

#[tactic(auto, unfolding(crate::specs::ExpressionParser::or_conjunction))]
fn or_conjunction(alloc: Global, context: Context, items: &[Item]) -> Result<(Cond, &[Item]), Stop>
    ensures { Gives (λ x. (x.0, x.1.now)) result (reads.or_conjunction context items.now) }
{
    let rest = after_word(Word::Or, items)?;
    conjunction(alloc, context, rest)
}

/// The rest of conjunctions with OR between them.
#[tactic(auto, unfolding(crate::specs::ExpressionParser::condition_from))]
fn condition_from<'a>(
    alloc: Global,
    context: Context,
    at: At,
    found: List<Cond>,
    items: &'a [Item],
) -> Result<(Cond, &'a [Item]), Stop>
    ensures { Gives (λ x. (x.0, x.1.now)) result (reads.condition_from context at found items.now) }
{
    let mut all = found;
    let (second, mut rest) = or_conjunction(alloc, context, items)?;
    all.push(second)?;
    for _turn in 0..rest.len() {
        if !word_comes(Word::Or, rest) {
            return Ok((Cond::Or(all, at), rest));
        }
        let (more, after) = or_conjunction(alloc, context, rest)?;
        all.push(more)?;
        rest = after;
    }
    Ok((Cond::Or(all, at), rest))
}

/// Conjunctions with OR between them; one alone is that conjunction.
#[tactic(auto, unfolding(crate::specs::ExpressionParser::condition))]
pub fn condition(alloc: Global, context: Context, items: &[Item]) -> Result<(Cond, &[Item]), Stop>
    ensures { Gives (λ x. (x.0, x.1.now)) result (reads.condition context items.now) }
{
    let at = at_of(context.total, items);
    let (first, rest) = conjunction(alloc, context, items)?;
    if !word_comes(Word::Or, rest) {
        return Ok((first, rest));
    }
    condition_from(alloc, context, at, alone(alloc, first)?, rest)
}
