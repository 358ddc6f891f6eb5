//! Statements and bodies (BS 5904, statements).

ghost use Rattle.std.specs.Prelude.{◌≡◌};
ghost use Rattle.rt_grammar.specs.Parsing as parse;
ghost use Rattle.rt_grammar.specs.Parsing.{Gives};
ghost use Rattle.rt_syntax.specs.StatementParser as reads;

use crate::table::begins_simple;
use crate::tree::{Body, Branch, Control, Local, Locals, Simple, Stmt};
use rt_grammar::{
    At, Ident, Next, Stop, after_mark, after_word, at_of, ident, label, label_comes, mark_comes,
    next_of, open_word, word_comes,
};
use rt_pieces::{Item, Mark, Word};
use rt_syntax_exprs::{
    Chain, Cond, Context, Expr, begins_expression, begins_mode_by_word, condition, expression,
    mode_by_word, place,
};
use rt_words::List;
use std::alloc::Global;

/// What was read, where this word comes behind it.
fn up_to<'a, T: Drop>(word: Word, found: T, items: &'a [Item]) -> Result<(T, &'a [Item]), Stop>
    ensures { Gives (λ x. (x.0, x.1.now)) result (reads.up_to word found items.now) }
{
    let rest = after_word(word, items)?;
    Ok((found, rest))
}

/// What was read before, and what was read behind it.
fn beside<'a, A: Drop, B>(
    before: A,
    found: Result<(B, &'a [Item]), Stop>,
) -> Result<((A, B), &'a [Item]), Stop>
    ensures { result ≡ reads.beside before found.entry }
{
    let (found, rest) = found?;
    Ok(((before, found), rest))
}

/// `:=` and an expression.
#[tactic(auto, unfolding(crate::specs::StatementParser::becomes))]
fn becomes(alloc: Global, context: Context, items: &[Item]) -> Result<(Expr, &[Item]), Stop>
    ensures { Gives (λ x. (x.0, x.1.now)) result (reads.becomes context items.now) }
{
    let rest = after_mark(Mark::Becomes, items)?;
    expression(alloc, context, rest)
}

#[tactic(auto, unfolding(crate::specs::StatementParser::any_start))]
fn any_start(
    alloc: Global,
    context: Context,
    items: &[Item],
) -> Result<(Option<Expr>, &[Item]), Stop>
    ensures { Gives (λ x. (x.0, x.1.now)) result (reads.any_start context items.now) }
{
    if !mark_comes(Mark::Becomes, items) {
        return Ok((None, items));
    }
    let (start, rest) = becomes(alloc, context, items)?;
    Ok((Some(start), rest))
}

/// A name of a declaration, and its start.
#[tactic(auto, unfolding(crate::specs::StatementParser::local))]
fn local(alloc: Global, context: Context, items: &[Item]) -> Result<(Local, &[Item]), Stop>
    ensures { Gives (λ x. (x.0, x.1.now)) result (reads.local context items.now) }
{
    let (name, rest) = ident(alloc, context.total, items)?;
    let (start, rest) = any_start(alloc, context, rest)?;
    Ok((Local { name, start }, rest))
}

#[tactic(auto, unfolding(crate::specs::StatementParser::next_local))]
fn next_local(alloc: Global, context: Context, items: &[Item]) -> Result<(Local, &[Item]), Stop>
    ensures { Gives (λ x. (x.0, x.1.now)) result (reads.next_local context items.now) }
{
    let rest = after_mark(Mark::Comma, items)?;
    local(alloc, context, rest)
}

/// The names of a declaration.
#[tactic(auto, unfolding(crate::specs::StatementParser::local_list))]
fn local_list(
    alloc: Global,
    context: Context,
    items: &[Item],
) -> Result<(List<Local>, &[Item]), Stop>
    ensures { Gives (λ x. (x.0, x.1.now)) result (reads.local_list context items.now) }
{
    let mut all = List::new(alloc, 1)?;
    let (first, mut rest) = local(alloc, context, items)?;
    all.push(first)?;
    for _turn in 0..rest.len() {
        if !mark_comes(Mark::Comma, rest) {
            return Ok((all, rest));
        }
        let (more, after) = next_local(alloc, context, rest)?;
        all.push(more)?;
        rest = after;
    }
    Ok((all, rest))
}

/// A declaration of a body.
#[tactic(auto, unfolding(crate::specs::StatementParser::locals))]
fn locals(alloc: Global, context: Context, items: &[Item]) -> Result<(Locals, &[Item]), Stop>
    ensures { Gives (λ x. (x.0, x.1.now)) result (reads.locals context items.now) }
{
    let at = at_of(context.total, items);
    let (mode, rest) = mode_by_word(alloc, context, items)?;
    let (names, rest) = local_list(alloc, context, rest)?;
    let rest = after_mark(Mark::Semicolon, rest)?;
    Ok((Locals { mode, names, at }, rest))
}

/// The declarations of a body.
#[tactic(auto, unfolding(crate::specs::StatementParser::declarations))]
fn declarations(
    alloc: Global,
    context: Context,
    items: &[Item],
) -> Result<(List<Locals>, &[Item]), Stop>
    ensures { Gives (λ x. (x.0, x.1.now)) result (reads.declarations context items.now) }
{
    let mut rest = items;
    let mut all = List::new(alloc, 0)?;
    for _turn in 0..items.len() {
        if !begins_mode_by_word(next_of(rest)) {
            return Ok((all, rest));
        }
        let (more, after) = locals(alloc, context, rest)?;
        all.push(more)?;
        rest = after;
    }
    Ok((all, rest))
}

#[tactic(auto, unfolding(crate::specs::StatementParser::assigned))]
fn assigned<'a>(
    alloc: Global,
    context: Context,
    at: At,
    to: Chain,
    items: &'a [Item],
) -> Result<(Simple, &'a [Item]), Stop>
    ensures { Gives (λ x. (x.0, x.1.now)) result (reads.assigned context at to items.now) }
{
    let (value, rest) = becomes(alloc, context, items)?;
    Ok((Simple::Assign(to, value, at), rest))
}

/// A chain, and what is assigned to it, if anything.
#[tactic(auto, unfolding(crate::specs::StatementParser::chained))]
fn chained(alloc: Global, context: Context, items: &[Item]) -> Result<(Simple, &[Item]), Stop>
    ensures { Gives (λ x. (x.0, x.1.now)) result (reads.chained context items.now) }
{
    let at = at_of(context.total, items);
    let (to, rest) = place(alloc, context, items)?;
    if mark_comes(Mark::Becomes, rest) {
        return assigned(alloc, context, at, to, rest);
    }
    Ok((Simple::Call(to), rest))
}

/// `VAL`, a chain and what is assigned.
#[tactic(auto, unfolding(crate::specs::StatementParser::assignment_by_val))]
fn assignment_by_val(
    alloc: Global,
    context: Context,
    items: &[Item],
) -> Result<(Simple, &[Item]), Stop>
    ensures { Gives (λ x. (x.0, x.1.now)) result (reads.assignment_by_val context items.now) }
{
    let at = at_of(context.total, items);
    let rest = after_word(Word::Val, items)?;
    let (to, rest) = place(alloc, context, rest)?;
    let (value, rest) = becomes(alloc, context, rest)?;
    Ok((Simple::AssignVal(to, value, at), rest))
}

/// GOTO and a label.
#[tactic(auto, unfolding(crate::specs::StatementParser::jump))]
fn jump(alloc: Global, context: Context, items: &[Item]) -> Result<(Simple, &[Item]), Stop>
    ensures { Gives (λ x. (x.0, x.1.now)) result (reads.jump context items.now) }
{
    let at = at_of(context.total, items);
    let rest = after_word(Word::Goto, items)?;
    let (name, rest) = ident(alloc, context.total, rest)?;
    Ok((Simple::Goto(name, at), rest))
}

#[tactic(auto, unfolding(crate::specs::StatementParser::any_expression))]
fn any_expression(
    alloc: Global,
    context: Context,
    items: &[Item],
) -> Result<(Option<Expr>, &[Item]), Stop>
    ensures { Gives (λ x. (x.0, x.1.now)) result (reads.any_expression context items.now) }
{
    if !begins_expression(next_of(items)) {
        return Ok((None, items));
    }
    let (value, rest) = expression(alloc, context, items)?;
    Ok((Some(value), rest))
}

/// RETURN and what is returned, if anything.
#[tactic(auto, unfolding(crate::specs::StatementParser::returned))]
fn returned(alloc: Global, context: Context, items: &[Item]) -> Result<(Simple, &[Item]), Stop>
    ensures { Gives (λ x. (x.0, x.1.now)) result (reads.returned context items.now) }
{
    let at = at_of(context.total, items);
    let rest = after_word(Word::Return, items)?;
    let (value, rest) = any_expression(alloc, context, rest)?;
    Ok((Simple::Return(value, at), rest))
}

#[tactic(auto, unfolding(crate::specs::StatementParser::next_name))]
fn next_name(alloc: Global, context: Context, items: &[Item]) -> Result<(Ident, &[Item]), Stop>
    ensures { Gives (λ x. (x.0, x.1.now)) result (reads.next_name context items.now) }
{
    let rest = after_mark(Mark::Comma, items)?;
    ident(alloc, context.total, rest)
}

/// Names with commas between them.
#[tactic(auto, unfolding(crate::specs::StatementParser::names))]
pub fn names(
    alloc: Global,
    context: Context,
    items: &[Item],
) -> Result<(List<Ident>, &[Item]), Stop>
    ensures { Gives (λ x. (x.0, x.1.now)) result (reads.names context items.now) }
{
    let mut all = List::new(alloc, 1)?;
    let (first, mut rest) = ident(alloc, context.total, items)?;
    all.push(first)?;
    for _turn in 0..rest.len() {
        if !mark_comes(Mark::Comma, rest) {
            return Ok((all, rest));
        }
        let (more, after) = next_name(alloc, context, rest)?;
        all.push(more)?;
        rest = after;
    }
    Ok((all, rest))
}

/// SWITCH, an expression, OF and labels.
#[tactic(auto, unfolding(crate::specs::StatementParser::switch))]
fn switch(alloc: Global, context: Context, items: &[Item]) -> Result<(Simple, &[Item]), Stop>
    ensures { Gives (λ x. (x.0, x.1.now)) result (reads.switch context items.now) }
{
    let at = at_of(context.total, items);
    let rest = after_word(Word::Switch, items)?;
    let (value, rest) = expression(alloc, context, rest)?;
    let (value, rest) = up_to(Word::Of, value, rest)?;
    let ((value, labels), rest) = beside(value, names(alloc, context, rest))?;
    Ok((Simple::Switch(value, labels, at), rest))
}

#[tactic(auto, unfolding(crate::specs::StatementParser::any_step))]
fn any_step(
    alloc: Global,
    context: Context,
    items: &[Item],
) -> Result<(Option<Expr>, &[Item]), Stop>
    ensures { Gives (λ x. (x.0, x.1.now)) result (reads.any_step context items.now) }
{
    if !word_comes(Word::By, items) {
        return Ok((None, items));
    }
    let rest = after_word(Word::By, items)?;
    let (step, rest) = expression(alloc, context, rest)?;
    Ok((Some(step), rest))
}

/// FOR, the controlled name, where it starts, and by what it goes on.
#[tactic(auto, unfolding(crate::specs::StatementParser::control))]
fn control(
    alloc: Global,
    context: Context,
    levels: usize,
    items: &[Item],
) -> Result<(Control, &[Item]), Stop>
    ensures { Gives (λ x. (x.0, x.1.now)) result (reads.control context levels items.now) }
{
    let at = at_of(context.total, items);
    let rest = open_word(levels, Word::For, items)?;
    let (name, rest) = ident(alloc, context.total, rest)?;
    let (head, rest) = beside(name, becomes(alloc, context, rest))?;
    let (((name, start), step), rest) = beside(head, any_step(alloc, context, rest))?;
    Ok((
        Control {
            name,
            start,
            step,
            at,
        },
        rest,
    ))
}

/// FOR and its TO, or TO alone.
#[tactic(auto, unfolding(crate::specs::StatementParser::loop_head, crate::specs::StatementParser::control_head, crate::specs::StatementParser::to_head))]
fn loop_head(
    alloc: Global,
    context: Context,
    levels: usize,
    items: &[Item],
) -> Result<(Option<Control>, &[Item]), Stop>
    ensures { Gives (λ x. (x.0, x.1.now)) result (reads.loop_head context levels items.now) }
{
    if !word_comes(Word::For, items) {
        let rest = open_word(levels, Word::To, items)?;
        return Ok((None, rest));
    }
    let (found, rest) = control(alloc, context, levels, items)?;
    up_to(Word::To, Some(found), rest)
}

/// The labels of a statement.
#[tactic(auto, unfolding(crate::specs::StatementParser::labels))]
fn labels(alloc: Global, context: Context, items: &[Item]) -> Result<(List<Ident>, &[Item]), Stop>
    ensures { Gives (λ x. (x.0, x.1.now)) result (reads.labels context items.now) }
{
    let mut rest = items;
    let mut all = List::new(alloc, 0)?;
    for _turn in 0..items.len() {
        if !label_comes(rest) {
            return Ok((all, rest));
        }
        let (more, after) = label(alloc, context.total, rest)?;
        all.push(more)?;
        rest = after;
    }
    Ok((all, rest))
}

/// FOR and its TO, or TO alone, the limit and DO.
#[tactic(auto, unfolding(crate::specs::StatementParser::for_head))]
fn for_head(
    alloc: Global,
    context: Context,
    levels: usize,
    items: &[Item],
) -> Result<((Option<Control>, Expr), &[Item]), Stop>
    ensures { Gives (λ x. (x.0, x.1.now)) result (reads.for_head context levels items.now) }
{
    let (control, rest) = loop_head(alloc, context, levels, items)?;
    let (head, rest) = beside(control, expression(alloc, context, rest))?;
    up_to(Word::Do, head, rest)
}

/// A condition, and this word behind it.
#[tactic(auto, unfolding(crate::specs::StatementParser::condition_up_to))]
fn condition_up_to(
    alloc: Global,
    context: Context,
    word: Word,
    items: &[Item],
) -> Result<(Cond, &[Item]), Stop>
    ensures { Gives (λ x. (x.0, x.1.now)) result (reads.condition_up_to context word items.now) }
{
    let (test, rest) = condition(alloc, context, items)?;
    up_to(word, test, rest)
}

/// A sequence that stands in one of so many statements.
#[cycle(statement)]
#[tactic(auto, unfolding(crate::specs::StatementParser::inside))]
fn inside(
    alloc: Global,
    context: Context,
    levels: usize,
    items: &[Item],
) -> Result<(List<Stmt>, &[Item]), Stop>
    ensures { Gives (λ x. (x.0, x.1.now)) result (reads.inside context levels items.now) }
{
    if levels == 0 {
        return Err(Stop::Unfit(items.len()));
    }
    sequence_of(alloc, context, levels - 1, items)
}

/// Statements with semicolons between them, where so many statements may open.
#[cycle(statement)]
#[tactic(auto, unfolding(crate::specs::StatementParser::sequence_of, crate::specs::StatementParser::next_statement))]
fn sequence_of(
    alloc: Global,
    context: Context,
    levels: usize,
    items: &[Item],
) -> Result<(List<Stmt>, &[Item]), Stop>
    ensures { Gives (λ x. (x.0, x.1.now)) result (reads.sequence_of context levels (reads.inside context levels) items.now) }
{
    let mut all = List::new(alloc, 1)?;
    let (first, mut rest) = statement(alloc, context, levels, items)?;
    all.push(first)?;
    for _turn in 0..rest.len() {
        if !mark_comes(Mark::Semicolon, rest) {
            return Ok((all, rest));
        }
        let after = after_mark(Mark::Semicolon, rest)?;
        let (more, after) = statement(alloc, context, levels, after)?;
        all.push(more)?;
        rest = after;
    }
    Ok((all, rest))
}

/// Labels and what follows them.
#[cycle(statement)]
#[tactic(auto, unfolding(crate::specs::StatementParser::statement, crate::specs::StatementParser::unlabelled))]
fn statement(
    alloc: Global,
    context: Context,
    levels: usize,
    items: &[Item],
) -> Result<(Stmt, &[Item]), Stop>
    ensures { Gives (λ x. (x.0, x.1.now)) result (reads.statement context levels (reads.inside context levels) items.now) }
{
    let at = at_of(context.total, items);
    let (labels, rest) = labels(alloc, context, items)?;
    let (simple, rest) = any_simple(alloc, context, levels, rest)?;
    Ok((Stmt { labels, simple, at }, rest))
}

#[cycle(statement)]
#[tactic(auto, unfolding(crate::specs::StatementParser::any_simple))]
fn any_simple(
    alloc: Global,
    context: Context,
    levels: usize,
    items: &[Item],
) -> Result<(Option<Simple>, &[Item]), Stop>
    ensures { Gives (λ x. (x.0, x.1.now)) result (reads.any_simple context levels (reads.inside context levels) items.now) }
{
    if !begins_simple(next_of(items)) {
        return Ok((None, items));
    }
    let (found, rest) = simple(alloc, context, levels, items)?;
    Ok((Some(found), rest))
}

/// A statement without its labels.
#[cycle(statement)]
#[tactic(auto, unfolding(crate::specs::StatementParser::simple))]
fn simple(
    alloc: Global,
    context: Context,
    levels: usize,
    items: &[Item],
) -> Result<(Simple, &[Item]), Stop>
    ensures { Gives (λ x. (x.0, x.1.now)) result (reads.simple context levels (reads.inside context levels) items.now) }
{
    match next_of(items) {
        Next::Name => chained(alloc, context, items),
        Next::Word(Word::Val) => assignment_by_val(alloc, context, items),
        Next::Word(Word::Goto) => jump(alloc, context, items),
        Next::Word(Word::Return) => returned(alloc, context, items),
        Next::Word(Word::Switch) => switch(alloc, context, items),
        Next::Word(Word::Block) => block(alloc, context, levels, items),
        Next::Word(Word::If) => conditional(alloc, context, levels, items),
        Next::Word(Word::While) => while_loop(alloc, context, levels, items),
        _ => for_loop(alloc, context, levels, items),
    }
}

/// BLOCK, a body and ENDBLOCK.
#[cycle(statement)]
#[tactic(auto, unfolding(crate::specs::StatementParser::block, crate::specs::StatementParser::body_of))]
fn block(
    alloc: Global,
    context: Context,
    levels: usize,
    items: &[Item],
) -> Result<(Simple, &[Item]), Stop>
    ensures { Gives (λ x. (x.0, x.1.now)) result (reads.block context levels (reads.inside context levels) items.now) }
{
    let at = at_of(context.total, items);
    let rest = open_word(levels, Word::Block, items)?;
    let inner_at = at_of(context.total, rest);
    let (locals, rest) = declarations(alloc, context, rest)?;
    let (statements, rest) = inside(alloc, context, levels, rest)?;
    let rest = after_word(Word::EndBlock, rest)?;
    let body = Body {
        locals,
        statements,
        at: inner_at,
    };
    Ok((Simple::Block(body, at), rest))
}

/// A condition, THEN and a sequence.
#[cycle(statement)]
#[tactic(auto, unfolding(crate::specs::StatementParser::branch_from, crate::specs::StatementParser::condition_up_to))]
fn branch_from<'a>(
    alloc: Global,
    context: Context,
    levels: usize,
    at: At,
    items: &'a [Item],
) -> Result<(Branch, &'a [Item]), Stop>
    ensures { Gives (λ x. (x.0, x.1.now)) result (reads.branch_from context levels (reads.inside context levels) at items.now) }
{
    let (test, rest) = condition_up_to(alloc, context, Word::Then, items)?;
    let ((test, taken), rest) = beside(test, inside(alloc, context, levels, rest))?;
    Ok((Branch { test, taken, at }, rest))
}

/// The branches of IF and ELSEIF.
#[cycle(statement)]
#[tactic(auto, unfolding(crate::specs::StatementParser::branches, crate::specs::StatementParser::first_branch, crate::specs::StatementParser::next_branch))]
fn branches(
    alloc: Global,
    context: Context,
    levels: usize,
    items: &[Item],
) -> Result<(List<Branch>, &[Item]), Stop>
    ensures { Gives (λ x. (x.0, x.1.now)) result (reads.branches context levels (reads.inside context levels) items.now) }
{
    let at = at_of(context.total, items);
    let rest = open_word(levels, Word::If, items)?;
    let mut all = List::new(alloc, 1)?;
    let (first, mut rest) = branch_from(alloc, context, levels, at, rest)?;
    all.push(first)?;
    for _turn in 0..rest.len() {
        if !word_comes(Word::ElseIf, rest) {
            return Ok((all, rest));
        }
        let at = at_of(context.total, rest);
        let after = after_word(Word::ElseIf, rest)?;
        let (more, after) = branch_from(alloc, context, levels, at, after)?;
        all.push(more)?;
        rest = after;
    }
    Ok((all, rest))
}

/// What stands behind ELSE.
#[cycle(statement)]
#[tactic(auto, unfolding(crate::specs::StatementParser::any_otherwise))]
fn any_otherwise(
    alloc: Global,
    context: Context,
    levels: usize,
    items: &[Item],
) -> Result<(Option<List<Stmt>>, &[Item]), Stop>
    ensures { Gives (λ x. (x.0, x.1.now)) result (reads.any_otherwise context levels (reads.inside context levels) items.now) }
{
    if !word_comes(Word::Else, items) {
        return Ok((None, items));
    }
    let rest = after_word(Word::Else, items)?;
    let (found, rest) = inside(alloc, context, levels, rest)?;
    Ok((Some(found), rest))
}

/// IF to END.
#[cycle(statement)]
#[tactic(auto, unfolding(crate::specs::StatementParser::conditional))]
fn conditional(
    alloc: Global,
    context: Context,
    levels: usize,
    items: &[Item],
) -> Result<(Simple, &[Item]), Stop>
    ensures { Gives (λ x. (x.0, x.1.now)) result (reads.conditional context levels (reads.inside context levels) items.now) }
{
    let at = at_of(context.total, items);
    let (all, rest) = branches(alloc, context, levels, items)?;
    let (otherwise, rest) = any_otherwise(alloc, context, levels, rest)?;
    let rest = after_word(Word::End, rest)?;
    Ok((Simple::If(all, otherwise, at), rest))
}

/// FOR or TO, to REP.
#[cycle(statement)]
#[tactic(auto, unfolding(crate::specs::StatementParser::for_loop, crate::specs::StatementParser::for_head))]
fn for_loop(
    alloc: Global,
    context: Context,
    levels: usize,
    items: &[Item],
) -> Result<(Simple, &[Item]), Stop>
    ensures { Gives (λ x. (x.0, x.1.now)) result (reads.for_loop context levels (reads.inside context levels) items.now) }
{
    let at = at_of(context.total, items);
    let (head, rest) = for_head(alloc, context, levels, items)?;
    let (parts, rest) = beside(head, inside(alloc, context, levels, rest))?;
    let (((control, limit), statements), rest) = up_to(Word::Rep, parts, rest)?;
    Ok((Simple::For(control, limit, statements, at), rest))
}

/// WHILE to REP.
#[cycle(statement)]
#[tactic(auto, unfolding(crate::specs::StatementParser::while_loop, crate::specs::StatementParser::condition_up_to))]
fn while_loop(
    alloc: Global,
    context: Context,
    levels: usize,
    items: &[Item],
) -> Result<(Simple, &[Item]), Stop>
    ensures { Gives (λ x. (x.0, x.1.now)) result (reads.while_loop context levels (reads.inside context levels) items.now) }
{
    let at = at_of(context.total, items);
    let rest = open_word(levels, Word::While, items)?;
    let (test, rest) = condition_up_to(alloc, context, Word::Do, rest)?;
    let (parts, rest) = beside(test, inside(alloc, context, levels, rest))?;
    let ((test, statements), rest) = up_to(Word::Rep, parts, rest)?;
    Ok((Simple::While(test, statements, at), rest))
}

/// A body's declarations and statements.
#[tactic(auto, unfolding(crate::specs::StatementParser::body, crate::specs::StatementParser::body_of, crate::specs::StatementParser::sequence))]
pub fn body(alloc: Global, context: Context, items: &[Item]) -> Result<(Body, &[Item]), Stop>
    ensures { Gives (λ x. (x.0, x.1.now)) result (reads.body context items.now) }
{
    let at = at_of(context.total, items);
    let (locals, rest) = declarations(alloc, context, items)?;
    let (statements, rest) = sequence_of(alloc, context, context.limits.statements, rest)?;
    Ok((
        Body {
            locals,
            statements,
            at,
        },
        rest,
    ))
}
