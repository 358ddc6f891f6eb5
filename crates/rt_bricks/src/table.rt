//! Signs and first words, by what comes next.

ghost use Rattle.std.specs.Prelude.{◌≡◌};
ghost use Rattle.rt_grammar.specs.Parsing as parse;
ghost use Rattle.rt_bricks.specs.Tables as tables;

use crate::tree::Sign;
use rt_grammar::Next;
use rt_pieces::{Mark, Word};

#[tactic(auto, unfolding(crate::specs::Tables::sign_of))]
pub fn sign_of(next: Next) -> Option<Sign>
    ensures { result ≡ tables.sign_of next }
{
    match next {
        Next::Mark(Mark::Plus) => Some(Sign::Plus),
        Next::Mark(Mark::Minus) => Some(Sign::Minus),
        _ => None,
    }
}

/// Whether a sign comes next.
pub fn is_sign(next: Next) -> bool
    ensures { result ≡ parse.in_table tables.sign_of next }
{
    sign_of(next).is_some()
}

/// Any item but `;`.
#[tactic(auto, unfolding(crate::specs::Tables::but_semicolon))]
pub fn but_semicolon(next: Next) -> Option<()>
    ensures { result ≡ tables.but_semicolon next }
{
    match next {
        Next::End | Next::Mark(Mark::Semicolon) => None,
        _ => Some(()),
    }
}

/// Whether any item but `;` comes next.
pub fn is_but_semicolon(next: Next) -> bool
    ensures { result ≡ parse.in_table tables.but_semicolon next }
{
    but_semicolon(next).is_some()
}

/// Whether a declaration begins so.
#[tactic(auto, unfolding(crate::specs::Tables::begins_declaration))]
pub fn begins_declaration(next: Next) -> bool
    ensures { result ≡ tables.begins_declaration next }
{
    match next {
        Next::Word(Word::Mode)
        | Next::Word(Word::Data)
        | Next::Word(Word::Stack)
        | Next::Word(Word::Proc)
        | Next::Word(Word::Ent)
        | Next::Word(Word::Ext)
        | Next::Word(Word::Svc) => true,
        _ => false,
    }
}
