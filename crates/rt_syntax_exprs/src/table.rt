//! Operators, relations and first words, by what comes next.

ghost use Rattle.std.specs.Prelude.{◌≡◌};
ghost use Rattle.rt_grammar.specs.Parsing as parse;
ghost use Rattle.rt_syntax_exprs.specs.Tables as tables;

use crate::tree::{BasicMode, Op1, Op2, Rel};
use rt_grammar::Next;
use rt_pieces::{Mark, Word};

/// The dyadic operators that bind alike, the tightest first.
#[derive(Clone, Copy)]
pub enum Level {
    Shift,
    Product,
    Land,
    Sum,
}

#[tactic(auto, unfolding(crate::specs::Tables::monadic_of))]
pub fn monadic_of(next: Next) -> Option<Op1>
    ensures { result ≡ tables.monadic_of next }
{
    match next {
        Next::Mark(Mark::Plus) => Some(Op1::Plus),
        Next::Mark(Mark::Minus) => Some(Op1::Minus),
        Next::Word(Word::Abs) => Some(Op1::Abs),
        Next::Word(Word::Not) => Some(Op1::Not),
        Next::Word(Word::Length) => Some(Op1::Length),
        Next::Word(Word::Byte) => Some(Op1::Byte),
        Next::Word(Word::Int) => Some(Op1::Int),
        Next::Word(Word::Frac) => Some(Op1::Frac),
        _ => None,
    }
}

#[tactic(auto, unfolding(crate::specs::Tables::shift_of))]
fn shift_of(next: Next) -> Option<Op2>
    ensures { result ≡ tables.shift_of next }
{
    match next {
        Next::Word(Word::Sll) => Some(Op2::Sll),
        Next::Word(Word::Srl) => Some(Op2::Srl),
        Next::Word(Word::Sla) => Some(Op2::Sla),
        Next::Word(Word::Sra) => Some(Op2::Sra),
        _ => None,
    }
}

#[tactic(auto, unfolding(crate::specs::Tables::product_of))]
fn product_of(next: Next) -> Option<Op2>
    ensures { result ≡ tables.product_of next }
{
    match next {
        Next::Mark(Mark::Times) => Some(Op2::Times),
        Next::Mark(Mark::Divide) => Some(Op2::Divide),
        Next::Word(Word::Mod) => Some(Op2::Mod),
        _ => None,
    }
}

#[tactic(auto, unfolding(crate::specs::Tables::land_of))]
fn land_of(next: Next) -> Option<Op2>
    ensures { result ≡ tables.land_of next }
{
    match next {
        Next::Word(Word::Land) => Some(Op2::Land),
        _ => None,
    }
}

#[tactic(auto, unfolding(crate::specs::Tables::sum_of))]
fn sum_of(next: Next) -> Option<Op2>
    ensures { result ≡ tables.sum_of next }
{
    match next {
        Next::Mark(Mark::Plus) => Some(Op2::Plus),
        Next::Mark(Mark::Minus) => Some(Op2::Minus),
        Next::Word(Word::Lor) => Some(Op2::Lor),
        Next::Word(Word::Nev) => Some(Op2::Nev),
        _ => None,
    }
}

/// The operator of this level that comes next, if one does.
#[tactic(auto, unfolding(crate::specs::Tables::dyadic_of))]
pub fn dyadic_of(level: Level, next: Next) -> Option<Op2>
    ensures { result ≡ tables.dyadic_of level next }
{
    match level {
        Level::Shift => shift_of(next),
        Level::Product => product_of(next),
        Level::Land => land_of(next),
        Level::Sum => sum_of(next),
    }
}

/// Whether a monadic operator comes next.
pub fn is_monadic(next: Next) -> bool
    ensures { result ≡ parse.in_table tables.monadic_of next }
{
    monadic_of(next).is_some()
}

/// Whether an operator of this level comes next.
pub fn is_dyadic(level: Level, next: Next) -> bool
    ensures { result ≡ parse.in_table (tables.dyadic_of level) next }
{
    dyadic_of(level, next).is_some()
}

#[tactic(auto, unfolding(crate::specs::Tables::relation_of))]
pub fn relation_of(next: Next) -> Option<Rel>
    ensures { result ≡ tables.relation_of next }
{
    match next {
        Next::Mark(Mark::Equal) => Some(Rel::Equal),
        Next::Mark(Mark::Unequal) => Some(Rel::Unequal),
        Next::Mark(Mark::Less) => Some(Rel::Less),
        Next::Mark(Mark::LessOrEqual) => Some(Rel::LessOrEqual),
        Next::Mark(Mark::Greater) => Some(Rel::Greater),
        Next::Mark(Mark::GreaterOrEqual) => Some(Rel::GreaterOrEqual),
        Next::Mark(Mark::Same) => Some(Rel::Same),
        Next::Mark(Mark::Different) => Some(Rel::Different),
        _ => None,
    }
}

#[tactic(auto, unfolding(crate::specs::Tables::basic_of))]
pub fn basic_of(next: Next) -> Option<BasicMode>
    ensures { result ≡ tables.basic_of next }
{
    match next {
        Next::Word(Word::Byte) => Some(BasicMode::Byte),
        Next::Word(Word::Int) => Some(BasicMode::Int),
        Next::Word(Word::Frac) => Some(BasicMode::Frac),
        Next::Word(Word::Label) => Some(BasicMode::Label),
        _ => None,
    }
}

/// Whether a result begins so.
#[tactic(auto, unfolding(crate::specs::Tables::begins_result))]
pub fn begins_result(next: Next) -> bool
    ensures { result ≡ tables.begins_result next }
{
    match next {
        Next::Word(Word::Byte)
        | Next::Word(Word::Int)
        | Next::Word(Word::Frac)
        | Next::Word(Word::Ref)
        | Next::Word(Word::Proc) => true,
        _ => false,
    }
}

/// Whether it is a reserved word that a mode begins with.
#[tactic(auto, unfolding(crate::specs::Tables::begins_mode_by_word))]
pub fn begins_mode_by_word(next: Next) -> bool
    ensures { result ≡ tables.begins_mode_by_word next }
{
    match next {
        Next::Word(Word::Byte)
        | Next::Word(Word::Int)
        | Next::Word(Word::Frac)
        | Next::Word(Word::Label)
        | Next::Word(Word::Array)
        | Next::Word(Word::Ref)
        | Next::Word(Word::Proc) => true,
        _ => false,
    }
}

/// Whether a mode begins so.
#[tactic(auto, unfolding(crate::specs::Tables::begins_mode))]
pub fn begins_mode(next: Next) -> bool
    ensures { result ≡ tables.begins_mode next }
{
    match next {
        Next::Name => true,
        Next::Word(Word::Byte)
        | Next::Word(Word::Int)
        | Next::Word(Word::Frac)
        | Next::Word(Word::Label)
        | Next::Word(Word::Array)
        | Next::Word(Word::Ref)
        | Next::Word(Word::Proc) => true,
        _ => false,
    }
}

/// Whether a link of a chain begins so.
#[tactic(auto, unfolding(crate::specs::Tables::is_link))]
pub fn is_link(next: Next) -> bool
    ensures { result ≡ tables.is_link next }
{
    match next {
        Next::Mark(Mark::Dot) | Next::Mark(Mark::Open) => true,
        _ => false,
    }
}

/// Whether an expression begins so.
#[tactic(auto, unfolding(crate::specs::Tables::begins_expression))]
pub fn begins_expression(next: Next) -> bool
    ensures { result ≡ tables.begins_expression next }
{
    match next {
        Next::Name | Next::Number | Next::Text => true,
        Next::Mark(Mark::Open) | Next::Mark(Mark::Plus) | Next::Mark(Mark::Minus) => true,
        Next::Word(Word::Val)
        | Next::Word(Word::Abs)
        | Next::Word(Word::Not)
        | Next::Word(Word::Length)
        | Next::Word(Word::Byte)
        | Next::Word(Word::Int)
        | Next::Word(Word::Frac) => true,
        _ => false,
    }
}
