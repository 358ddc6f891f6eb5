//! Declarations: records, and bricks of the module and of others (BS 5904, bricks).

ghost use Rattle.std.specs.Prelude.{◌≡◌};
ghost use Rattle.rt_grammar.specs.Parsing.{Gives};
ghost use Rattle.rt_bricks.specs.DeclarationParser as reads;

use crate::fields::{fields, fields_up_to};
use crate::starts::start;
use crate::tree::{
    DataBrick, DataItem, DataLine, Declaration, Fields, Import, ImportedData, ImportedProcedures,
    ImportedStacks, ProcedureBrick, RecordMode, StackBrick, Start,
};
use rt_grammar::{
    At, Next, Stop, after_mark, after_word, at_of, ident, mark_comes, next_of, number, open_mark,
    open_word, word_comes,
};
use rt_pieces::{Item, Mark, Word};
use rt_syntax::{Body, Context, WrittenMode, body, names};
use rt_syntax_exprs::{begins_mode, begins_result, procedure, written_mode};
use rt_words::List;
use std::alloc::Global;

/// MODE, a record's name and its fields.
#[tactic(auto, unfolding(crate::specs::DeclarationParser::record_mode))]
fn record_mode(
    alloc: Global,
    context: Context,
    items: &[Item],
) -> Result<(Declaration, &[Item]), Stop>
    ensures { Gives (λ x. (x.0, x.1.now)) result (reads.record_mode context items.now) }
{
    let at = at_of(context.total, items);
    let levels = context.limits.parentheses;
    let rest = after_word(Word::Mode, items)?;
    let (name, rest) = ident(alloc, context.total, rest)?;
    let rest = open_mark(levels, Mark::Open, rest)?;
    let inner = levels.saturating_sub(1);
    let (fields, rest) = fields(alloc, context, context.limits.modes, inner, rest)?;
    let rest = after_mark(Mark::Close, rest)?;
    let rest = after_mark(Mark::Semicolon, rest)?;
    Ok((Declaration::Record(RecordMode { name, fields, at }), rest))
}

/// Whether ENT stands here.
#[tactic(auto, unfolding(crate::specs::DeclarationParser::entry))]
fn entry(items: &[Item]) -> Result<(bool, &[Item]), Stop>
    ensures { Gives (λ x. (x.0, x.1.now)) result (reads.entry items.now) }
{
    if !word_comes(Word::Ent, items) {
        return Ok((false, items));
    }
    let rest = after_word(Word::Ent, items)?;
    Ok((true, rest))
}

/// Where a brick of the module begins, and whether ENT stands there.
#[tactic(auto, unfolding(crate::specs::DeclarationParser::own))]
fn own(context: Context, items: &[Item]) -> Result<((At, bool), &[Item]), Stop>
    ensures { Gives (λ x. (x.0, x.1.now)) result (reads.own context items.now) }
{
    let at = at_of(context.total, items);
    let (entry, rest) = entry(items)?;
    Ok(((at, entry), rest))
}

/// A mode.
#[tactic(auto, unfolding(crate::specs::DeclarationParser::mode))]
fn mode(alloc: Global, context: Context, items: &[Item]) -> Result<(WrittenMode, &[Item]), Stop>
    ensures { Gives (λ x. (x.0, x.1.now)) result (reads.mode context items.now) }
{
    let limits = context.limits;
    written_mode(alloc, context, limits.modes, limits.parentheses, items)
}

/// `:=` and a start, if it stands there.
#[tactic(auto, unfolding(crate::specs::DeclarationParser::any_start))]
fn any_start(
    alloc: Global,
    context: Context,
    items: &[Item],
) -> Result<(Option<Start>, &[Item]), Stop>
    ensures { Gives (λ x. (x.0, x.1.now)) result (reads.any_start context items.now) }
{
    if !mark_comes(Mark::Becomes, items) {
        return Ok((None, items));
    }
    let rest = after_mark(Mark::Becomes, items)?;
    let (found, rest) = start(alloc, context, rest)?;
    Ok((Some(found), rest))
}

/// A name in a data brick, and its start.
#[tactic(auto, unfolding(crate::specs::DeclarationParser::data_item))]
fn data_item(alloc: Global, context: Context, items: &[Item]) -> Result<(DataItem, &[Item]), Stop>
    ensures { Gives (λ x. (x.0, x.1.now)) result (reads.data_item context items.now) }
{
    let (name, rest) = ident(alloc, context.total, items)?;
    let (start, rest) = any_start(alloc, context, rest)?;
    Ok((DataItem { name, start }, rest))
}

#[tactic(auto, unfolding(crate::specs::DeclarationParser::next_data_item))]
fn next_data_item(
    alloc: Global,
    context: Context,
    items: &[Item],
) -> Result<(DataItem, &[Item]), Stop>
    ensures { Gives (λ x. (x.0, x.1.now)) result (reads.next_data_item context items.now) }
{
    let rest = after_mark(Mark::Comma, items)?;
    data_item(alloc, context, rest)
}

/// The names of a line of a data brick.
#[tactic(auto, unfolding(crate::specs::DeclarationParser::data_items))]
fn data_items(
    alloc: Global,
    context: Context,
    items: &[Item],
) -> Result<(List<DataItem>, &[Item]), Stop>
    ensures { Gives (λ x. (x.0, x.1.now)) result (reads.data_items context items.now) }
{
    let mut all = List::new(alloc, 1)?;
    let (first, mut rest) = data_item(alloc, context, items)?;
    all.push(first)?;
    for _turn in 0..rest.len() {
        if !mark_comes(Mark::Comma, rest) {
            return Ok((all, rest));
        }
        let (more, after) = next_data_item(alloc, context, rest)?;
        all.push(more)?;
        rest = after;
    }
    Ok((all, rest))
}

/// A line of a data brick of the module.
#[tactic(auto, unfolding(crate::specs::DeclarationParser::data_line))]
fn data_line(alloc: Global, context: Context, items: &[Item]) -> Result<(DataLine, &[Item]), Stop>
    ensures { Gives (λ x. (x.0, x.1.now)) result (reads.data_line context items.now) }
{
    let at = at_of(context.total, items);
    let (mode, rest) = mode(alloc, context, items)?;
    let (items, rest) = data_items(alloc, context, rest)?;
    let rest = after_mark(Mark::Semicolon, rest)?;
    Ok((DataLine { mode, items, at }, rest))
}

/// The lines of a data brick of the module.
#[tactic(auto, unfolding(crate::specs::DeclarationParser::data_lines))]
fn data_lines(
    alloc: Global,
    context: Context,
    items: &[Item],
) -> Result<(List<DataLine>, &[Item]), Stop>
    ensures { Gives (λ x. (x.0, x.1.now)) result (reads.data_lines context items.now) }
{
    let mut rest = items;
    let mut all = List::new(alloc, 0)?;
    for _turn in 0..items.len() {
        if !begins_mode(next_of(rest)) {
            return Ok((all, rest));
        }
        let (more, after) = data_line(alloc, context, rest)?;
        all.push(more)?;
        rest = after;
    }
    Ok((all, rest))
}

/// DATA to ENDDATA.
#[tactic(auto, unfolding(crate::specs::DeclarationParser::data_brick))]
fn data_brick<'a>(
    alloc: Global,
    context: Context,
    own: (At, bool),
    items: &'a [Item],
) -> Result<(Declaration, &'a [Item]), Stop>
    ensures { Gives (λ x. (x.0, x.1.now)) result (reads.data_brick context own items.now) }
{
    let (at, entry) = own;
    let rest = after_word(Word::Data, items)?;
    let (name, rest) = ident(alloc, context.total, rest)?;
    let rest = after_mark(Mark::Semicolon, rest)?;
    let (lines, rest) = data_lines(alloc, context, rest)?;
    let rest = after_word(Word::EndData, rest)?;
    let rest = after_mark(Mark::Semicolon, rest)?;
    let brick = DataBrick {
        entry,
        name,
        lines,
        at,
    };
    Ok((Declaration::Data(brick), rest))
}

/// STACK, a name and a length.
#[tactic(auto, unfolding(crate::specs::DeclarationParser::stack_brick))]
fn stack_brick<'a>(
    alloc: Global,
    context: Context,
    own: (At, bool),
    items: &'a [Item],
) -> Result<(Declaration, &'a [Item]), Stop>
    ensures { Gives (λ x. (x.0, x.1.now)) result (reads.stack_brick context own items.now) }
{
    let (at, entry) = own;
    let rest = after_word(Word::Stack, items)?;
    let (name, rest) = ident(alloc, context.total, rest)?;
    let (length, rest) = number(rest)?;
    let rest = after_mark(Mark::Semicolon, rest)?;
    let brick = StackBrick {
        entry,
        name,
        length,
        at,
    };
    Ok((Declaration::Stack(brick), rest))
}

/// Parameters, if any stand there.
#[tactic(auto, unfolding(crate::specs::DeclarationParser::any_parameters))]
fn any_parameters(
    alloc: Global,
    context: Context,
    items: &[Item],
) -> Result<(List<Fields>, &[Item]), Stop>
    ensures { Gives (λ x. (x.0, x.1.now)) result (reads.any_parameters context items.now) }
{
    if !begins_mode(next_of(items)) {
        return Ok((List::new(alloc, 0)?, items));
    }
    let limits = context.limits;
    let modes = limits.modes.saturating_sub(1);
    let levels = limits.parentheses.saturating_sub(1);
    fields_up_to(alloc, context, modes, levels, limits.parameters, items)
}

/// The parameters of a procedure in their parentheses.
#[tactic(auto, unfolding(crate::specs::DeclarationParser::parameters))]
fn parameters(
    alloc: Global,
    context: Context,
    items: &[Item],
) -> Result<(List<Fields>, &[Item]), Stop>
    ensures { Gives (λ x. (x.0, x.1.now)) result (reads.parameters context items.now) }
{
    let rest = open_mark(context.limits.parentheses, Mark::Open, items)?;
    let (found, rest) = any_parameters(alloc, context, rest)?;
    let rest = after_mark(Mark::Close, rest)?;
    Ok((found, rest))
}

/// The result of a procedure, whose PROC has opened one mode.
#[tactic(auto, unfolding(crate::specs::DeclarationParser::answer))]
fn answer(alloc: Global, context: Context, items: &[Item]) -> Result<(WrittenMode, &[Item]), Stop>
    ensures { Gives (λ x. (x.0, x.1.now)) result (reads.answer context items.now) }
{
    if !begins_result(next_of(items)) {
        return Err(Stop::Unfit(items.len()));
    }
    let limits = context.limits;
    let modes = limits.modes.saturating_sub(1);
    written_mode(alloc, context, modes, limits.parentheses, items)
}

/// The result of a procedure behind its parameters, if it stands there.
#[tactic(auto, unfolding(crate::specs::DeclarationParser::any_answer))]
fn any_answer(
    alloc: Global,
    context: Context,
    items: &[Item],
) -> Result<(Option<WrittenMode>, &[Item]), Stop>
    ensures { Gives (λ x. (x.0, x.1.now)) result (reads.any_answer context items.now) }
{
    if !begins_result(next_of(items)) {
        return Ok((None, items));
    }
    let (found, rest) = answer(alloc, context, items)?;
    Ok((Some(found), rest))
}

/// The body of a procedure, and where its ENDPROC stands.
#[tactic(auto, unfolding(crate::specs::DeclarationParser::closing))]
fn closing(alloc: Global, context: Context, items: &[Item]) -> Result<((Body, At), &[Item]), Stop>
    ensures { Gives (λ x. (x.0, x.1.now)) result (reads.closing context items.now) }
{
    let rest = after_mark(Mark::Semicolon, items)?;
    let (found, rest) = body(alloc, context, rest)?;
    let ends = at_of(context.total, rest);
    let rest = after_word(Word::EndProc, rest)?;
    let rest = after_mark(Mark::Semicolon, rest)?;
    Ok(((found, ends), rest))
}

/// A procedure behind its PROC, whose result stands before its name.
#[tactic(auto, unfolding(crate::specs::DeclarationParser::result_first))]
fn result_first<'a>(
    alloc: Global,
    context: Context,
    own: (At, bool),
    opens: At,
    items: &'a [Item],
) -> Result<(Declaration, &'a [Item]), Stop>
    ensures { Gives (λ x. (x.0, x.1.now)) result (reads.result_first context own opens items.now) }
{
    let (at, entry) = own;
    let (found, rest) = answer(alloc, context, items)?;
    let (name, rest) = ident(alloc, context.total, rest)?;
    let (fields, rest) = parameters(alloc, context, rest)?;
    let ((body, ends), rest) = closing(alloc, context, rest)?;
    let brick = ProcedureBrick {
        entry,
        name,
        fields,
        result: Some(found),
        body,
        opens,
        ends,
        at,
    };
    Ok((Declaration::Procedure(brick), rest))
}

/// A procedure behind its PROC, whose result, if it has one, stands behind its parameters.
#[tactic(auto, unfolding(crate::specs::DeclarationParser::name_first))]
fn name_first<'a>(
    alloc: Global,
    context: Context,
    own: (At, bool),
    opens: At,
    items: &'a [Item],
) -> Result<(Declaration, &'a [Item]), Stop>
    ensures { Gives (λ x. (x.0, x.1.now)) result (reads.name_first context own opens items.now) }
{
    let (at, entry) = own;
    let (name, rest) = ident(alloc, context.total, items)?;
    let (fields, rest) = parameters(alloc, context, rest)?;
    let (found, rest) = any_answer(alloc, context, rest)?;
    let ((body, ends), rest) = closing(alloc, context, rest)?;
    let brick = ProcedureBrick {
        entry,
        name,
        fields,
        result: found,
        body,
        opens,
        ends,
        at,
    };
    Ok((Declaration::Procedure(brick), rest))
}

/// The PROC of a procedure, which opens one mode.
#[tactic(auto, unfolding(crate::specs::DeclarationParser::opens))]
fn opens(context: Context, items: &[Item]) -> Result<(At, &[Item]), Stop>
    ensures { Gives (λ x. (x.0, x.1.now)) result (reads.opens context items.now) }
{
    let at = at_of(context.total, items);
    let rest = open_word(context.limits.modes, Word::Proc, items)?;
    Ok((at, rest))
}

/// PROC to ENDPROC.
#[tactic(auto, unfolding(crate::specs::DeclarationParser::procedure_brick))]
fn procedure_brick<'a>(
    alloc: Global,
    context: Context,
    own: (At, bool),
    items: &'a [Item],
) -> Result<(Declaration, &'a [Item]), Stop>
    ensures { Gives (λ x. (x.0, x.1.now)) result (reads.procedure_brick context own items.now) }
{
    let (opens, rest) = opens(context, items)?;
    if begins_result(next_of(rest)) {
        return result_first(alloc, context, own, opens, rest);
    }
    name_first(alloc, context, own, opens, rest)
}

/// A brick of the module.
#[tactic(auto, unfolding(crate::specs::DeclarationParser::own_brick))]
fn own_brick(
    alloc: Global,
    context: Context,
    items: &[Item],
) -> Result<(Declaration, &[Item]), Stop>
    ensures { Gives (λ x. (x.0, x.1.now)) result (reads.own_brick context items.now) }
{
    let (own, rest) = own(context, items)?;
    match next_of(rest) {
        Next::Word(Word::Data) => data_brick(alloc, context, own, rest),
        Next::Word(Word::Stack) => stack_brick(alloc, context, own, rest),
        _ => procedure_brick(alloc, context, own, rest),
    }
}

/// A word, and where it stands.
#[tactic(auto, unfolding(crate::specs::DeclarationParser::at_word))]
fn at_word(context: Context, word: Word, items: &[Item]) -> Result<(At, &[Item]), Stop>
    ensures { Gives (λ x. (x.0, x.1.now)) result (reads.at_word context word items.now) }
{
    let at = at_of(context.total, items);
    let rest = after_word(word, items)?;
    Ok((at, rest))
}

/// A procedure's mode and names, behind EXT or SVC.
#[tactic(auto, unfolding(crate::specs::DeclarationParser::imported_procedures))]
fn imported_procedures<'a>(
    alloc: Global,
    context: Context,
    import: Import,
    at: At,
    items: &'a [Item],
) -> Result<(Declaration, &'a [Item]), Stop>
    ensures { Gives (λ x. (x.0, x.1.now)) result (reads.imported_procedures context import at items.now) }
{
    let limits = context.limits;
    let (mode, rest) = procedure(alloc, context, limits.modes, limits.parentheses, items)?;
    let (names, rest) = names(alloc, context, rest)?;
    let rest = after_mark(Mark::Semicolon, rest)?;
    let bricks = ImportedProcedures {
        import,
        mode,
        names,
        at,
    };
    Ok((Declaration::ImportedProcedures(bricks), rest))
}

/// A line of a data brick of another module.
#[tactic(auto, unfolding(crate::specs::DeclarationParser::imported_line))]
fn imported_line(alloc: Global, context: Context, items: &[Item]) -> Result<(Fields, &[Item]), Stop>
    ensures { Gives (λ x. (x.0, x.1.now)) result (reads.imported_line context items.now) }
{
    let at = at_of(context.total, items);
    let (mode, rest) = mode(alloc, context, items)?;
    let (names, rest) = names(alloc, context, rest)?;
    let rest = after_mark(Mark::Semicolon, rest)?;
    Ok((Fields { mode, names, at }, rest))
}

/// The lines of a data brick of another module.
#[tactic(auto, unfolding(crate::specs::DeclarationParser::imported_lines))]
fn imported_lines(
    alloc: Global,
    context: Context,
    items: &[Item],
) -> Result<(List<Fields>, &[Item]), Stop>
    ensures { Gives (λ x. (x.0, x.1.now)) result (reads.imported_lines context items.now) }
{
    let mut rest = items;
    let mut all = List::new(alloc, 0)?;
    for _turn in 0..items.len() {
        if !begins_mode(next_of(rest)) {
            return Ok((all, rest));
        }
        let (more, after) = imported_line(alloc, context, rest)?;
        all.push(more)?;
        rest = after;
    }
    Ok((all, rest))
}

/// DATA to ENDDATA, behind EXT or SVC.
#[tactic(auto, unfolding(crate::specs::DeclarationParser::imported_data))]
fn imported_data<'a>(
    alloc: Global,
    context: Context,
    import: Import,
    at: At,
    items: &'a [Item],
) -> Result<(Declaration, &'a [Item]), Stop>
    ensures { Gives (λ x. (x.0, x.1.now)) result (reads.imported_data context import at items.now) }
{
    let rest = after_word(Word::Data, items)?;
    let (name, rest) = ident(alloc, context.total, rest)?;
    let rest = after_mark(Mark::Semicolon, rest)?;
    let (lines, rest) = imported_lines(alloc, context, rest)?;
    let rest = after_word(Word::EndData, rest)?;
    let rest = after_mark(Mark::Semicolon, rest)?;
    let brick = ImportedData {
        import,
        name,
        lines,
        at,
    };
    Ok((Declaration::ImportedData(brick), rest))
}

/// STACK and names, behind EXT.
#[tactic(auto, unfolding(crate::specs::DeclarationParser::imported_stacks))]
fn imported_stacks<'a>(
    alloc: Global,
    context: Context,
    at: At,
    items: &'a [Item],
) -> Result<(Declaration, &'a [Item]), Stop>
    ensures { Gives (λ x. (x.0, x.1.now)) result (reads.imported_stacks context at items.now) }
{
    let rest = after_word(Word::Stack, items)?;
    let (names, rest) = names(alloc, context, rest)?;
    let rest = after_mark(Mark::Semicolon, rest)?;
    Ok((
        Declaration::ImportedStacks(ImportedStacks { names, at }),
        rest,
    ))
}

/// Bricks that are entries of other modules.
#[tactic(auto, unfolding(crate::specs::DeclarationParser::external_bricks))]
fn external_bricks(
    alloc: Global,
    context: Context,
    items: &[Item],
) -> Result<(Declaration, &[Item]), Stop>
    ensures { Gives (λ x. (x.0, x.1.now)) result (reads.external_bricks context items.now) }
{
    let (at, rest) = at_word(context, Word::Ext, items)?;
    match next_of(rest) {
        Next::Word(Word::Proc) => imported_procedures(alloc, context, Import::External, at, rest),
        Next::Word(Word::Data) => imported_data(alloc, context, Import::External, at, rest),
        _ => imported_stacks(alloc, context, at, rest),
    }
}

/// Bricks that the supervisor supplies.
#[tactic(auto, unfolding(crate::specs::DeclarationParser::service_bricks))]
fn service_bricks(
    alloc: Global,
    context: Context,
    items: &[Item],
) -> Result<(Declaration, &[Item]), Stop>
    ensures { Gives (λ x. (x.0, x.1.now)) result (reads.service_bricks context items.now) }
{
    let (at, rest) = at_word(context, Word::Svc, items)?;
    if word_comes(Word::Proc, rest) {
        return imported_procedures(alloc, context, Import::Service, at, rest);
    }
    imported_data(alloc, context, Import::Service, at, rest)
}

/// A declaration.
#[tactic(auto, unfolding(crate::specs::DeclarationParser::declaration))]
pub fn declaration(
    alloc: Global,
    context: Context,
    items: &[Item],
) -> Result<(Declaration, &[Item]), Stop>
    ensures { Gives (λ x. (x.0, x.1.now)) result (reads.declaration context items.now) }
{
    match next_of(items) {
        Next::Word(Word::Mode) => record_mode(alloc, context, items),
        Next::Word(Word::Ext) => external_bricks(alloc, context, items),
        Next::Word(Word::Svc) => service_bricks(alloc, context, items),
        _ => own_brick(alloc, context, items),
    }
}
