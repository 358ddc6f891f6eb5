//! What can be wrong with a text.

use rt_words::Memory;
use thiserror::Error;

/// The first fault of a text (BS 5904, items), with its line, counted from 1.
#[derive(Debug, Drop, Error)]
pub enum TextFault {
    #[error("out of memory")]
    Memory,
    #[error("line {0}: bad character")]
    BadCharacter(u32),
    #[error("line {0}: number too large")]
    NumberTooLarge(u32),
    #[error("line {0}: string not closed")]
    OpenString(u32),
    #[error("line {0}: comment not closed")]
    OpenComment(u32),
    #[error("line {0}: bad insert")]
    BadInsert(u32),
    #[error("line {0}: bad LET")]
    BadLet(u32),
    #[error("line {0}: too many items")]
    TooManyItems(u32),
    #[error("line {0}: left-out word")]
    LeftOutWord(u32),
}

impl From<Memory> for TextFault {
    ghost use Rattle.std.specs.Prelude.{◌≡◌};
    ghost use Rattle.rt_pieces.specs.declared.fault.TextFault.TheVariants as fault;

    ghost from_gives = { λ _ e. e ≡ fault.Memory };

    fn from(_error: Memory) -> TextFault {
        TextFault::Memory
    }
}
