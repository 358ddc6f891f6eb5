//! A body from a place in a list of items.

ghost use Rattle.std.specs.Prelude.{◌≡◌, ◌≤◌, ℕ, List, length, drop, IfOk, IfErr};
ghost use Rattle.rt_pieces.specs.declared.item.Item.{Item};
ghost use Rattle.rt_syntax.specs.declared.tree.Body.{Body as Tree};
ghost use Rattle.rt_grammar.specs.Parsing.{Gives};
ghost use Rattle.rt_syntax.specs.StatementParser as reads;
ghost use Rattle.rt_syntax.specs.Statements as line;
ghost use Rattle.rt_syntax.specs.Derives.{Derives, IsOrMemory, Refuses, line_left};

use crate::fault::SyntaxFault;
use crate::statements::body;
use crate::tree::Body;
use rt_grammar::{Stop, after_word, word_comes};
use rt_pieces::{Item, Word};
use rt_syntax_exprs::{Context, LIMITS};
use std::alloc::Global;

/// The items after the word that ends a body.
#[tactic(auto, unfolding(crate::specs::StatementParser::ending))]
fn after_ending(items: &[Item]) -> Result<&[Item], Stop>
    ensures { Gives (λ r. (tt, r.now)) result (reads.ending items.now) }
{
    if word_comes(Word::EndProc, items) {
        after_word(Word::EndProc, items)
    } else {
        after_word(Word::EndBlock, items)
    }
}

/// A body and the items after the word that ends it.
#[tactic(auto, unfolding(crate::specs::StatementParser::closed))]
fn closed(alloc: Global, context: Context, items: &[Item]) -> Result<(Body, &[Item]), Stop>
    ensures { Gives (λ x. (x.0, x.1.now)) result (reads.closed context items.now) }
{
    let (found, rest) = body(alloc, context, items)?;
    let rest = after_ending(rest)?;
    Ok((found, rest))
}

/// The line of the item from which so many are left; where none is left, of the last item, or 1.
pub fn line_left(items: &[Item], left: usize) -> u32
    requires { left ≤ length items.now }
    ensures { result ≡ line_left items.now left }
{
    if left > 0 {
        return items[items.len() - left].line;
    }
    match items {
        [] => 1,
        [.., last] => last.line,
    }
}

/// The items of a list from a place on.
fn from_place(items: &[Item], at: usize) -> &[Item]
    requires { at ≤ length items.now }
    ensures { result.now ≡ drop at items.now }
{
    &items[at..]
}

/// The body that stands in the items from `at` up to the first ENDPROC or ENDBLOCK that closes no BLOCK of
/// it, and the place of that word (BS 5904, procedures). What follows is not looked at. Items are counted
/// over the whole list, from 0. The body is dropped where memory runs out.
pub fn parse_body(alloc: Global, items: &[Item], at: usize) -> Result<(Body, usize), SyntaxFault>
    requires { at ≤ length items.now }
    // What is answered is derived.
    ensures found { IfOk result (λ x. Derives items.now at x.0 x.1) }
    // What is derived is answered, unless memory runs out.
    ensures only { (b : Tree) (place : ℕ) → Derives items.now at b place → IsOrMemory (b, place) result }
    // A fault has the number and the line of the first item that is unfit; where none is, how many items there are, and
    // the line of the last one, or 1.
    ensures refused { IfErr result (Refuses line.closed items.now at) }
{
    let context = Context {
        total: items.len(),
        limits: LIMITS,
    };
    let from = from_place(items, at);
    match closed(alloc, context, from) {
        Ok((found, rest)) => Ok((found, items.len() - rest.len() - 1)),
        Err(Stop::Memory) => Err(SyntaxFault::Memory),
        Err(Stop::Unfit(left)) => Err(SyntaxFault::Syntax {
            item: items.len() - left,
            line: line_left(from, left),
        }),
    }
}

/// From a place the items of a list derive one body at most, with one place of the word that ends it.
pub fn one_body()
    ensures { (items : List Item) → (at : ℕ) → (b c : Tree) → (p q : ℕ) → Derives items at b p → Derives items at c q → (b ≡ c) × (p ≡ q) }
{}
