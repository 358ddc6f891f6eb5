//! Modes and the names that have them: fields of records and parameters (BS 5904, modes and procedures).

ghost use Rattle.std.specs.Prelude.{◌≡◌, ℕ, [], ◌∷◌, IfOk};
ghost use Rattle.rt_syntax_exprs.specs.declared.limits.Context.{Context as Limited};
ghost use Rattle.rt_grammar.specs.Parsing.{Gives};
ghost use Rattle.rt_bricks.specs.Declarations as line;
ghost use Rattle.rt_bricks.specs.DeclarationParser as reads;
ghost use Rattle.rt_bricks.specs.FieldGroups.{FieldsAreGroups};

use crate::tree::Fields;
use rt_grammar::{At, Ident, Stop, after_mark, at_of, ident, mark_comes, name_comes, next_of};
use rt_pieces::{Item, Mark};
use rt_syntax::{Context, WrittenMode};
use rt_syntax_exprs::{begins_mode_by_word, written_mode};
use rt_words::{List, Memory};
use std::alloc::Global;

/// A field as it is written: its name, and its mode where one stands there.
#[derive(Drop)]
pub struct Field {
    pub mode: Option<WrittenMode>,
    pub name: Ident,
    pub at: At,
}

/// The fields that were read so far: those of the modes before, and those of the last one, which a further
/// name may join.
#[derive(Drop)]
pub struct Collected {
    pub before: List<Fields>,
    pub last: Fields,
}

/// A mode and its first name.
fn fields_of(alloc: Global, mode: WrittenMode, name: Ident, at: At) -> Result<Fields, Memory>
    ensures { IfOk result (λ f. (f.mode ≡ mode) × (f.names ≡ name ∷ []) × (f.at ≡ at)) }
{
    let mut names = List::new(alloc, 1)?;
    names.push(name)?;
    Ok(Fields { mode, names, at })
}

/// One more field.
fn with_field(alloc: Global, so_far: Collected, field: Field) -> Result<Collected, Memory>
    ensures { IfOk result (λ x. x ≡ line.with_field so_far field) }
{
    let Collected {
        mut before,
        mut last,
    } = so_far;
    let Field { mode, name, at } = field;
    match mode {
        None => {
            last.names.push(name)?;
            Ok(Collected { before, last })
        }
        Some(mode) => {
            before.push(last)?;
            let last = fields_of(alloc, mode, name, at)?;
            Ok(Collected { before, last })
        }
    }
}

/// All fields that were read.
fn all_fields(read: Collected) -> Result<List<Fields>, Memory>
    ensures { IfOk result (λ all. all ≡ line.all_fields read) }
{
    let Collected { mut before, last } = read;
    before.push(last)?;
    Ok(before)
}

/// A mode and a name.
#[tactic(auto, unfolding(crate::specs::DeclarationParser::first_field))]
fn first_field(
    alloc: Global,
    context: Context,
    modes: usize,
    parentheses: usize,
    items: &[Item],
) -> Result<(Collected, &[Item]), Stop>
    ensures { Gives (λ x. (x.0, x.1.now)) result (reads.first_field context modes parentheses items.now) }
{
    let before = List::new(alloc, 0)?;
    let at = at_of(context.total, items);
    let (mode, rest) = written_mode(alloc, context, modes, parentheses, items)?;
    let (name, rest) = ident(alloc, context.total, rest)?;
    let last = fields_of(alloc, mode, name, at)?;
    Ok((Collected { before, last }, rest))
}

/// A name, which is a record's name where another name follows.
#[tactic(auto, unfolding(crate::specs::DeclarationParser::field_by_name))]
fn field_by_name<'a>(
    alloc: Global,
    context: Context,
    at: At,
    items: &'a [Item],
) -> Result<(Field, &'a [Item]), Stop>
    ensures { Gives (λ x. (x.0, x.1.now)) result (reads.field_by_name context at items.now) }
{
    let (first, rest) = ident(alloc, context.total, items)?;
    if !name_comes(rest) {
        let field = Field {
            mode: None,
            name: first,
            at,
        };
        return Ok((field, rest));
    }
    let (name, rest) = ident(alloc, context.total, rest)?;
    let mode = Some(WrittenMode::Name(first));
    Ok((Field { mode, name, at }, rest))
}

/// A mode that begins with a reserved word, and a name.
#[tactic(auto, unfolding(crate::specs::DeclarationParser::field_by_mode))]
fn field_by_mode<'a>(
    alloc: Global,
    context: Context,
    modes: usize,
    parentheses: usize,
    at: At,
    items: &'a [Item],
) -> Result<(Field, &'a [Item]), Stop>
    ensures { Gives (λ x. (x.0, x.1.now)) result (reads.field_by_mode context modes parentheses at items.now) }
{
    if !begins_mode_by_word(next_of(items)) {
        return Err(Stop::Unfit(items.len()));
    }
    let (mode, rest) = written_mode(alloc, context, modes, parentheses, items)?;
    let (name, rest) = ident(alloc, context.total, rest)?;
    let mode = Some(mode);
    Ok((Field { mode, name, at }, rest))
}

/// A comma and a field.
#[tactic(auto, unfolding(crate::specs::DeclarationParser::next_field))]
fn next_field(
    alloc: Global,
    context: Context,
    modes: usize,
    parentheses: usize,
    items: &[Item],
) -> Result<(Field, &[Item]), Stop>
    ensures { Gives (λ x. (x.0, x.1.now)) result (reads.next_field context modes parentheses items.now) }
{
    let rest = after_mark(Mark::Comma, items)?;
    let at = at_of(context.total, rest);
    if name_comes(rest) {
        return field_by_name(alloc, context, at, rest);
    }
    field_by_mode(alloc, context, modes, parentheses, at, rest)
}

/// At most so many more fields.
#[tactic(auto, unfolding(crate::specs::DeclarationParser::more_fields))]
fn more_fields<'a>(
    alloc: Global,
    context: Context,
    modes: usize,
    parentheses: usize,
    most: usize,
    first: Collected,
    items: &'a [Item],
) -> Result<(Collected, &'a [Item]), Stop>
    ensures { Gives (λ x. (x.0, x.1.now)) result (reads.more_fields context modes parentheses most first items.now) }
{
    let mut so_far = first;
    let mut rest = items;
    for _turn in 0..most {
        if !mark_comes(Mark::Comma, rest) {
            return Ok((so_far, rest));
        }
        let (field, after) = next_field(alloc, context, modes, parentheses, rest)?;
        so_far = with_field(alloc, so_far, field)?;
        rest = after;
    }
    Ok((so_far, rest))
}

/// The fields of a record, where so many modes and parentheses may open.
#[tactic(auto, unfolding(crate::specs::DeclarationParser::fields))]
pub fn fields(
    alloc: Global,
    context: Context,
    modes: usize,
    parentheses: usize,
    items: &[Item],
) -> Result<(List<Fields>, &[Item]), Stop>
    ensures { Gives (λ x. (x.0, x.1.now)) result (reads.fields context modes parentheses items.now) }
{
    let (first, rest) = first_field(alloc, context, modes, parentheses, items)?;
    let most = rest.len();
    let (read, rest) = more_fields(alloc, context, modes, parentheses, most, first, rest)?;
    Ok((all_fields(read)?, rest))
}

/// At most so many fields.
#[tactic(auto, unfolding(crate::specs::DeclarationParser::fields_up_to))]
pub fn fields_up_to(
    alloc: Global,
    context: Context,
    modes: usize,
    parentheses: usize,
    most: usize,
    items: &[Item],
) -> Result<(List<Fields>, &[Item]), Stop>
    ensures { Gives (λ x. (x.0, x.1.now)) result (reads.fields_up_to context modes parentheses most items.now) }
{
    let (first, rest) = first_field(alloc, context, modes, parentheses, items)?;
    let most = most.saturating_sub(1);
    let (read, rest) = more_fields(alloc, context, modes, parentheses, most, first, rest)?;
    Ok((all_fields(read)?, rest))
}

/// Fields name by name are fields mode by mode, as the language has them: `mode name {, [mode] name}` is
/// `mode name {, name} {, mode name {, name}}`.
pub fn fields_are_groups()
    ensures { (c : Limited) → (modes parentheses : ℕ) → FieldsAreGroups c modes parentheses }
{}
