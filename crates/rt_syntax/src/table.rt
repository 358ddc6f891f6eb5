//! What a statement begins with.

ghost use Rattle.std.specs.Prelude.{◌≡◌};
ghost use Rattle.rt_syntax.specs.Tables as tables;

use rt_grammar::Next;
use rt_pieces::Word;

/// Whether a statement without its labels begins so.
#[tactic(auto, unfolding(crate::specs::Tables::begins_simple))]
pub fn begins_simple(next: Next) -> bool
    ensures { result ≡ tables.begins_simple next }
{
    match next {
        Next::Name
        | Next::Word(Word::Val)
        | Next::Word(Word::Goto)
        | Next::Word(Word::Return)
        | Next::Word(Word::Switch)
        | Next::Word(Word::Block)
        | Next::Word(Word::If)
        | Next::Word(Word::For)
        | Next::Word(Word::To)
        | Next::Word(Word::While) => true,
        _ => false,
    }
}
