//! Modes as they are written (BS 5904, modes).

ghost use Rattle.std.specs.Prelude.{◌≡◌, ◌-◌, IfOk};
ghost use Rattle.rt_grammar.specs.Parsing as parse;
ghost use Rattle.rt_grammar.specs.Parsing.{Gives};
ghost use Rattle.rt_pieces.specs.declared.item.Word.TheVariants as word;
ghost use Rattle.rt_syntax_exprs.specs.ModeParser as reads;

use crate::limits::Context;
use crate::table::{basic_of, begins_mode, begins_mode_by_word, begins_result};
use crate::tree::WrittenMode;
use rt_grammar::{
    At, Next, Stop, after_mark, after_word, at_of, found_in, ident, mark_comes, next_of, number,
    open_mark, open_word, word_comes,
};
use rt_pieces::{Item, Mark, Word};
use rt_words::{Boxed, List, Memory};
use std::alloc::Global;

/// A record's name.
#[tactic(auto, unfolding(crate::specs::ModeParser::named))]
fn named(alloc: Global, context: Context, items: &[Item]) -> Result<(WrittenMode, &[Item]), Stop>
    ensures { Gives (λ x. (x.0, x.1.now)) result (reads.named context items.now) }
{
    let (name, rest) = ident(alloc, context.total, items)?;
    Ok((WrittenMode::Name(name), rest))
}

/// BYTE, INT, FRAC or LABEL.
#[tactic(auto, unfolding(crate::specs::ModeParser::basic))]
fn basic(context: Context, items: &[Item]) -> Result<(WrittenMode, &[Item]), Stop>
    ensures { Gives (λ x. (x.0, x.1.now)) result (reads.basic context items.now) }
{
    let at = at_of(context.total, items);
    let (mode, rest) = found_in(basic_of(next_of(items)), items)?;
    Ok((WrittenMode::Basic(mode, at), rest))
}

fn array_of(alloc: Global, length: u16, of: WrittenMode, at: At) -> Result<WrittenMode, Memory>
    ensures { IfOk result (λ m. m ≡ WrittenMode.Array length of at) }
{
    Ok(WrittenMode::Array(length, Boxed::new(alloc, of)?, at))
}

fn ref_to(alloc: Global, to: WrittenMode, at: At) -> Result<WrittenMode, Memory>
    ensures { IfOk result (λ m. m ≡ WrittenMode.Ref to at) }
{
    Ok(WrittenMode::Ref(Boxed::new(alloc, to)?, at))
}

fn ref_array_of(alloc: Global, of: WrittenMode, at: At) -> Result<WrittenMode, Memory>
    ensures { IfOk result (λ m. m ≡ WrittenMode.RefArray of at) }
{
    Ok(WrittenMode::RefArray(Boxed::new(alloc, of)?, at))
}

fn proc_of(
    alloc: Global,
    parameters: List<WrittenMode>,
    result_mode: Option<WrittenMode>,
    at: At,
) -> Result<WrittenMode, Memory>
    ensures { IfOk result (λ m. m ≡ WrittenMode.Proc parameters result_mode at) }
{
    match result_mode {
        Some(mode) => Ok(WrittenMode::Proc(parameters, Some(Boxed::new(alloc, mode)?), at)),
        None => Ok(WrittenMode::Proc(parameters, None, at)),
    }
}

/// The REF that opens one more of so many modes and stands in a row with as many more at most.
#[tactic(auto, unfolding(rt_grammar::specs::Parsing::within))]
fn open_ref(modes: usize, references: usize, items: &[Item]) -> Result<&[Item], Stop>
    ensures { Gives (λ r. (tt, r.now)) result (parse.within modes (parse.within references (parse.word word.Ref)) items.now) }
{
    if modes == 0 {
        return Err(Stop::Unfit(items.len()));
    }
    open_word(references, Word::Ref, items)
}

/// A mode that stands in one of so many modes.
#[cycle(mode)]
#[tactic(auto, unfolding(crate::specs::ModeParser::inside))]
fn inside(
    alloc: Global,
    context: Context,
    modes: usize,
    parentheses: usize,
    references: usize,
    items: &[Item],
) -> Result<(WrittenMode, &[Item]), Stop>
    ensures { Gives (λ x. (x.0, x.1.now)) result (reads.inside context modes parentheses references items.now) }
{
    if modes == 0 {
        return Err(Stop::Unfit(items.len()));
    }
    mode_of(alloc, context, modes - 1, parentheses, references, items)
}

/// A mode, where so many modes and parentheses may open, and so many more REF stand in the row.
#[cycle(mode)]
#[tactic(auto, unfolding(crate::specs::ModeParser::mode_of))]
fn mode_of(
    alloc: Global,
    context: Context,
    modes: usize,
    parentheses: usize,
    references: usize,
    items: &[Item],
) -> Result<(WrittenMode, &[Item]), Stop>
    ensures { Gives (λ x. (x.0, x.1.now)) result (reads.mode_of context modes parentheses (reads.inside context modes) references items.now) }
{
    match next_of(items) {
        Next::Name => named(alloc, context, items),
        Next::Word(Word::Array) => array(alloc, context, modes, parentheses, items),
        Next::Word(Word::Ref) => reference(alloc, context, modes, parentheses, references, items),
        Next::Word(Word::Proc) => procedure(alloc, context, modes, parentheses, items),
        _ => basic(context, items),
    }
}

/// ARRAY, the length in parentheses, and a mode.
#[cycle(mode)]
#[tactic(auto, unfolding(crate::specs::ModeParser::array))]
fn array(
    alloc: Global,
    context: Context,
    modes: usize,
    parentheses: usize,
    items: &[Item],
) -> Result<(WrittenMode, &[Item]), Stop>
    ensures { Gives (λ x. (x.0, x.1.now)) result (reads.array context modes parentheses (reads.inside context modes) items.now) }
{
    let at = at_of(context.total, items);
    let rest = open_word(modes, Word::Array, items)?;
    let rest = open_mark(parentheses, Mark::Open, rest)?;
    let (length, rest) = number(rest)?;
    let rest = after_mark(Mark::Close, rest)?;
    let (of, rest) = inside(
        alloc,
        context,
        modes,
        parentheses,
        context.limits.references,
        rest,
    )?;
    Ok((array_of(alloc, length, of, at)?, rest))
}

/// REF and what it refers to.
#[cycle(mode)]
#[tactic(auto, unfolding(crate::specs::ModeParser::reference, crate::specs::ModeParser::plain_reference))]
fn reference(
    alloc: Global,
    context: Context,
    modes: usize,
    parentheses: usize,
    references: usize,
    items: &[Item],
) -> Result<(WrittenMode, &[Item]), Stop>
    ensures { Gives (λ x. (x.0, x.1.now)) result (reads.reference context modes parentheses (reads.inside context modes) references items.now) }
{
    let at = at_of(context.total, items);
    let rest = open_ref(modes, references, items)?;
    if word_comes(Word::Array, rest) {
        return array_reference(alloc, context, modes, parentheses, at, rest);
    }
    let (to, rest) = inside(
        alloc,
        context,
        modes,
        parentheses,
        references.saturating_sub(1),
        rest,
    )?;
    Ok((ref_to(alloc, to, at)?, rest))
}

/// ARRAY and a mode, behind REF.
#[cycle(mode)]
#[tactic(auto, unfolding(crate::specs::ModeParser::array_reference))]
fn array_reference<'a>(
    alloc: Global,
    context: Context,
    modes: usize,
    parentheses: usize,
    at: At,
    items: &'a [Item],
) -> Result<(WrittenMode, &'a [Item]), Stop>
    ensures { Gives (λ x. (x.0, x.1.now)) result (reads.array_reference context modes parentheses (reads.inside context modes) at items.now) }
{
    let rest = after_word(Word::Array, items)?;
    let (of, rest) = inside(
        alloc,
        context,
        modes,
        parentheses,
        context.limits.references,
        rest,
    )?;
    Ok((ref_array_of(alloc, of, at)?, rest))
}

/// PROC, the parameters in parentheses, and the result, if there is one.
#[cycle(mode)]
#[tactic(auto, unfolding(crate::specs::ModeParser::procedure))]
pub fn procedure(
    alloc: Global,
    context: Context,
    modes: usize,
    parentheses: usize,
    items: &[Item],
) -> Result<(WrittenMode, &[Item]), Stop>
    ensures { Gives (λ x. (x.0, x.1.now)) result (reads.procedure context modes parentheses (reads.inside context modes) items.now) }
{
    let at = at_of(context.total, items);
    let rest = open_word(modes, Word::Proc, items)?;
    let rest = open_mark(parentheses, Mark::Open, rest)?;
    let (found, rest) = parameters(alloc, context, modes, parentheses, rest)?;
    let rest = after_mark(Mark::Close, rest)?;
    let (answer, rest) = result_of(alloc, context, modes, parentheses, rest)?;
    Ok((proc_of(alloc, found, answer, at)?, rest))
}

/// The modes of the parameters.
#[cycle(mode)]
#[tactic(auto, unfolding(crate::specs::ModeParser::any_parameters, crate::specs::ModeParser::parameters, crate::specs::ModeParser::next_parameter))]
fn parameters(
    alloc: Global,
    context: Context,
    modes: usize,
    parentheses: usize,
    items: &[Item],
) -> Result<(List<WrittenMode>, &[Item]), Stop>
    ensures { Gives (λ x. (x.0, x.1.now)) result (reads.any_parameters context modes parentheses (reads.inside context modes) items.now) }
{
    let mut found = List::new(alloc, 0)?;
    if !begins_mode(next_of(items)) {
        return Ok((found, items));
    }
    let (first, mut rest) = parameter(alloc, context, modes, parentheses, items)?;
    found.push(first)?;
    for _turn in 0..context.limits.parameters.saturating_sub(1) {
        if !mark_comes(Mark::Comma, rest) {
            return Ok((found, rest));
        }
        let after = after_mark(Mark::Comma, rest)?;
        let (next, after) = parameter(alloc, context, modes, parentheses, after)?;
        found.push(next)?;
        rest = after;
    }
    Ok((found, rest))
}

/// A parameter's mode.
#[cycle(mode)]
#[tactic(auto, unfolding(crate::specs::ModeParser::parameter))]
fn parameter(
    alloc: Global,
    context: Context,
    modes: usize,
    parentheses: usize,
    items: &[Item],
) -> Result<(WrittenMode, &[Item]), Stop>
    ensures { Gives (λ x. (x.0, x.1.now)) result (reads.parameter context modes parentheses (reads.inside context modes) items.now) }
{
    inside(
        alloc,
        context,
        modes,
        parentheses.saturating_sub(1),
        context.limits.references,
        items,
    )
}

/// The result's mode, if there is one.
#[cycle(mode)]
#[tactic(auto, unfolding(crate::specs::ModeParser::any_result, crate::specs::ModeParser::result_inside))]
fn result_of(
    alloc: Global,
    context: Context,
    modes: usize,
    parentheses: usize,
    items: &[Item],
) -> Result<(Option<WrittenMode>, &[Item]), Stop>
    ensures { Gives (λ x. (x.0, x.1.now)) result (reads.any_result context modes parentheses (reads.inside context modes) items.now) }
{
    if !begins_result(next_of(items)) {
        return Ok((None, items));
    }
    let (found, rest) = inside(
        alloc,
        context,
        modes,
        parentheses,
        context.limits.references,
        items,
    )?;
    Ok((Some(found), rest))
}

/// A mode, where so many modes and parentheses may open.
#[tactic(auto, unfolding(crate::specs::ModeParser::written_mode))]
pub fn written_mode(
    alloc: Global,
    context: Context,
    modes: usize,
    parentheses: usize,
    items: &[Item],
) -> Result<(WrittenMode, &[Item]), Stop>
    ensures { Gives (λ x. (x.0, x.1.now)) result (reads.written_mode context modes parentheses items.now) }
{
    mode_of(
        alloc,
        context,
        modes,
        parentheses,
        context.limits.references,
        items,
    )
}

/// A mode that begins with a reserved word.
#[tactic(auto, unfolding(crate::specs::ModeParser::mode_by_word))]
pub fn mode_by_word(
    alloc: Global,
    context: Context,
    items: &[Item],
) -> Result<(WrittenMode, &[Item]), Stop>
    ensures { Gives (λ x. (x.0, x.1.now)) result (reads.mode_by_word context items.now) }
{
    if !begins_mode_by_word(next_of(items)) {
        return Err(Stop::Unfit(items.len()));
    }
    written_mode(
        alloc,
        context,
        context.limits.modes,
        context.limits.parentheses,
        items,
    )
}
