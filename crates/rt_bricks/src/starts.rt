//! What data items hold at the start (BS 5904, data bricks).

ghost use Rattle.std.specs.Prelude.{◌≡◌};
ghost use Rattle.rt_grammar.specs.Parsing.{Gives};
ghost use Rattle.rt_bricks.specs.StartParser as reads;

use crate::table::{is_sign, sign_of};
use crate::tree::{Parenthesized, Selector, Sign, Start};
use rt_grammar::{
    Next, Stop, after_mark, at_of, found_in, ident, mark_comes, next_of, number, open_mark, text,
};
use rt_pieces::{Item, Mark};
use rt_syntax::Context;
use rt_syntax_exprs::is_link;
use rt_words::List;
use std::alloc::Global;

/// A number in parentheses.
#[tactic(auto, unfolding(crate::specs::StartParser::parenthesized))]
fn parenthesized(
    context: Context,
    levels: usize,
    items: &[Item],
) -> Result<(Parenthesized, &[Item]), Stop>
    ensures { Gives (λ x. (x.0, x.1.now)) result (reads.parenthesized context levels items.now) }
{
    let at = at_of(context.total, items);
    let rest = open_mark(levels, Mark::Open, items)?;
    let (number, rest) = number(rest)?;
    let rest = after_mark(Mark::Close, rest)?;
    Ok((Parenthesized { number, at }, rest))
}

/// How many copies, if that is written.
#[tactic(auto, unfolding(crate::specs::StartParser::any_copies))]
fn any_copies(
    context: Context,
    levels: usize,
    items: &[Item],
) -> Result<(Option<Parenthesized>, &[Item]), Stop>
    ensures { Gives (λ x. (x.0, x.1.now)) result (reads.any_copies context levels items.now) }
{
    if !mark_comes(Mark::Open, items) {
        return Ok((None, items));
    }
    let (copies, rest) = parenthesized(context, levels, items)?;
    Ok((Some(copies), rest))
}

/// A sign, if there is one.
#[tactic(auto, unfolding(crate::specs::StartParser::any_sign))]
fn any_sign(items: &[Item]) -> Result<(Option<Sign>, &[Item]), Stop>
    ensures { Gives (λ x. (x.0, x.1.now)) result (reads.any_sign items.now) }
{
    if !is_sign(next_of(items)) {
        return Ok((None, items));
    }
    let (sign, rest) = found_in(sign_of(next_of(items)), items)?;
    Ok((Some(sign), rest))
}

/// A number with its sign and how many copies of it.
#[tactic(auto, unfolding(crate::specs::StartParser::numeral))]
fn numeral(context: Context, levels: usize, items: &[Item]) -> Result<(Start, &[Item]), Stop>
    ensures { Gives (λ x. (x.0, x.1.now)) result (reads.numeral context levels items.now) }
{
    let at = at_of(context.total, items);
    let (sign, rest) = any_sign(items)?;
    let (number, rest) = number(rest)?;
    let (copies, rest) = any_copies(context, levels, rest)?;
    Ok((Start::Number(sign, number, copies, at), rest))
}

/// A string.
#[tactic(auto, unfolding(crate::specs::StartParser::string))]
fn string(alloc: Global, context: Context, items: &[Item]) -> Result<(Start, &[Item]), Stop>
    ensures { Gives (λ x. (x.0, x.1.now)) result (reads.string context items.now) }
{
    let at = at_of(context.total, items);
    let (bytes, rest) = text(alloc, items)?;
    Ok((Start::Text(bytes, at), rest))
}

/// `.` and a field's name.
#[tactic(auto, unfolding(crate::specs::StartParser::dot))]
fn dot(alloc: Global, context: Context, items: &[Item]) -> Result<(Selector, &[Item]), Stop>
    ensures { Gives (λ x. (x.0, x.1.now)) result (reads.dot context items.now) }
{
    let at = at_of(context.total, items);
    let rest = after_mark(Mark::Dot, items)?;
    let (name, rest) = ident(alloc, context.total, rest)?;
    Ok((Selector::Dot(name, at), rest))
}

/// A subscript.
#[tactic(auto, unfolding(crate::specs::StartParser::subscript))]
fn subscript(context: Context, levels: usize, items: &[Item]) -> Result<(Selector, &[Item]), Stop>
    ensures { Gives (λ x. (x.0, x.1.now)) result (reads.subscript context levels items.now) }
{
    let (found, rest) = parenthesized(context, levels, items)?;
    Ok((Selector::Subscript(found), rest))
}

/// One step from a name.
#[tactic(auto, unfolding(crate::specs::StartParser::selector_of))]
fn selector(
    alloc: Global,
    context: Context,
    levels: usize,
    items: &[Item],
) -> Result<(Selector, &[Item]), Stop>
    ensures { Gives (λ x. (x.0, x.1.now)) result (reads.selector_of context levels items.now) }
{
    match next_of(items) {
        Next::Mark(Mark::Dot) => dot(alloc, context, items),
        _ => subscript(context, levels, items),
    }
}

/// The steps from a name.
#[tactic(auto, unfolding(crate::specs::StartParser::selectors))]
fn selectors(
    alloc: Global,
    context: Context,
    levels: usize,
    items: &[Item],
) -> Result<(List<Selector>, &[Item]), Stop>
    ensures { Gives (λ x. (x.0, x.1.now)) result (reads.selectors context levels items.now) }
{
    let mut rest = items;
    let mut all = List::new(alloc, 0)?;
    for _turn in 0..items.len() {
        if !is_link(next_of(rest)) {
            return Ok((all, rest));
        }
        let (more, after) = selector(alloc, context, levels, rest)?;
        all.push(more)?;
        rest = after;
    }
    Ok((all, rest))
}

/// A name and what is selected from there.
#[tactic(auto, unfolding(crate::specs::StartParser::place))]
fn place(
    alloc: Global,
    context: Context,
    levels: usize,
    items: &[Item],
) -> Result<(Start, &[Item]), Stop>
    ensures { Gives (λ x. (x.0, x.1.now)) result (reads.place context levels items.now) }
{
    let (name, rest) = ident(alloc, context.total, items)?;
    let (all, rest) = selectors(alloc, context, levels, rest)?;
    Ok((Start::Place(name, all), rest))
}

/// A start that stands in one of so many parentheses.
#[cycle(start)]
#[tactic(auto, unfolding(crate::specs::StartParser::inside))]
fn inside(
    alloc: Global,
    context: Context,
    levels: usize,
    items: &[Item],
) -> Result<(Start, &[Item]), Stop>
    ensures { Gives (λ x. (x.0, x.1.now)) result (reads.inside context levels items.now) }
{
    if levels == 0 {
        return Err(Stop::Unfit(items.len()));
    }
    start_of(alloc, context, levels - 1, items)
}

/// Starts with commas between them.
#[cycle(start)]
#[tactic(auto, unfolding(crate::specs::StartParser::listed, crate::specs::StartParser::next_start))]
fn listed(
    alloc: Global,
    context: Context,
    levels: usize,
    items: &[Item],
) -> Result<(List<Start>, &[Item]), Stop>
    ensures { Gives (λ x. (x.0, x.1.now)) result (reads.listed context levels (reads.inside context levels) items.now) }
{
    let mut all = List::new(alloc, 1)?;
    let (first, mut rest) = inside(alloc, context, levels, items)?;
    all.push(first)?;
    for _turn in 0..rest.len() {
        if !mark_comes(Mark::Comma, rest) {
            return Ok((all, rest));
        }
        let after = after_mark(Mark::Comma, rest)?;
        let (more, after) = inside(alloc, context, levels, after)?;
        all.push(more)?;
        rest = after;
    }
    Ok((all, rest))
}

/// Starts in parentheses and how many copies of the list.
#[cycle(start)]
#[tactic(auto, unfolding(crate::specs::StartParser::list))]
fn list(
    alloc: Global,
    context: Context,
    levels: usize,
    items: &[Item],
) -> Result<(Start, &[Item]), Stop>
    ensures { Gives (λ x. (x.0, x.1.now)) result (reads.list context levels (reads.inside context levels) items.now) }
{
    let at = at_of(context.total, items);
    let rest = open_mark(levels, Mark::Open, items)?;
    let (all, rest) = listed(alloc, context, levels, rest)?;
    let rest = after_mark(Mark::Close, rest)?;
    let (copies, rest) = any_copies(context, levels, rest)?;
    Ok((Start::List(all, copies, at), rest))
}

/// A start, where so many more parentheses may open.
#[cycle(start)]
#[tactic(auto, unfolding(crate::specs::StartParser::start_of))]
fn start_of(
    alloc: Global,
    context: Context,
    levels: usize,
    items: &[Item],
) -> Result<(Start, &[Item]), Stop>
    ensures { Gives (λ x. (x.0, x.1.now)) result (reads.start_of context levels (reads.inside context levels) items.now) }
{
    match next_of(items) {
        Next::Name => place(alloc, context, levels, items),
        Next::Text => string(alloc, context, items),
        Next::Mark(Mark::Open) => list(alloc, context, levels, items),
        _ => numeral(context, levels, items),
    }
}

/// A start.
#[tactic(auto, unfolding(crate::specs::StartParser::start))]
pub fn start(alloc: Global, context: Context, items: &[Item]) -> Result<(Start, &[Item]), Stop>
    ensures { Gives (λ x. (x.0, x.1.now)) result (reads.start context items.now) }
{
    start_of(alloc, context, context.limits.parentheses, items)
}
