//! The marks.

ghost use Rattle.std.specs.Prelude.{◌≡◌};
ghost use Rattle.rt_pieces.specs.Pieces as pieces;

use crate::item::Mark;

/// The mark of this one byte.
pub fn mark_of_one(a: u8) -> Option<Mark>
    ensures { result ≡ pieces.mark_of_one a }
{
    match a {
        b';' => Some(Mark::Semicolon),
        b',' => Some(Mark::Comma),
        b':' => Some(Mark::Colon),
        b'.' => Some(Mark::Dot),
        b'(' => Some(Mark::Open),
        b')' => Some(Mark::Close),
        b'=' => Some(Mark::Equal),
        b'#' => Some(Mark::Unequal),
        b'<' => Some(Mark::Less),
        b'>' => Some(Mark::Greater),
        b'+' => Some(Mark::Plus),
        b'-' => Some(Mark::Minus),
        b'*' => Some(Mark::Times),
        _ => None,
    }
}

/// The mark of these two bytes.
pub fn mark_of_two(a: u8, b: u8) -> Option<Mark>
    ensures { result ≡ pieces.mark_of_two a b }
{
    match (a, b) {
        (b':', b'=') => Some(Mark::Becomes),
        (b':', b'/') => Some(Mark::Divide),
        (b'<', b'=') => Some(Mark::LessOrEqual),
        (b'>', b'=') => Some(Mark::GreaterOrEqual),
        _ => None,
    }
}

/// The mark of these three bytes.
pub fn mark_of_three(a: u8, b: u8, c: u8) -> Option<Mark>
    ensures { result ≡ pieces.mark_of_three a b c }
{
    match (a, b, c) {
        (b':', b'=', b':') => Some(Mark::Same),
        (b':', b'#', b':') => Some(Mark::Different),
        _ => None,
    }
}

/// The mark that is written so.
pub fn mark_of(text: &[u8]) -> Option<Mark>
    ensures { result ≡ pieces.mark_of text.now }
{
    match text {
        [a] => mark_of_one(*a),
        [a, b] => mark_of_two(*a, *b),
        [a, b, c] => mark_of_three(*a, *b, *c),
        _ => None,
    }
}
