//! Numbers.

ghost use Rattle.std.specs.Prelude.{◌≡◌, ◌≤◌, min};
ghost use Rattle.rt_pieces.specs.Bytes as spec;
ghost use Rattle.rt_pieces.specs.Pieces as pieces;

use crate::bytes::{is_digit, is_letter_or_digit, upper};

/// The base that BIN, OCT or HEX says.
#[derive(Clone, Copy)]
pub enum Base {
    Two,
    Eight,
    Sixteen,
}

/// BIN, OCT or HEX, whose digits are still to come: the word's line and place.
#[derive(Clone, Copy)]
pub struct Opened {
    pub base: Base,
    pub line: u32,
    pub from: u32,
}

/// How many digits the base has.
pub fn radix(base: Base) -> u32
    ensures { result ≡ pieces.radix base }
{
    match base {
        Base::Two => 2,
        Base::Eight => 8,
        Base::Sixteen => 16,
    }
}

/// What a digit stands for, from 0 to 9 and from A to Z.
pub fn digit_value(b: u8) -> u8
    ensures { result ≡ spec.digit_value b }
{
    if is_digit(b) {
        b - 48
    } else {
        upper(b).saturating_sub(55)
    }
}

/// Whether the byte is a digit of this base, as a number from 2 to 16.
pub fn is_digit_of(base: u32, b: u8) -> bool
    ensures { result ≡ spec.is_digit_of base b }
{
    is_letter_or_digit(b) && u32::from(digit_value(b)) + 1 <= base
}

/// The number that the digits say in this base, or 65,536 where it is larger.
pub fn value_of(base: u32, text: &[u8]) -> u32
    requires low { 1 ≤ base }
    requires high { base ≤ 16 }
    ensures { result ≡ min (spec.number_of base text.now) 65536 }
{
    let mut value: u32 = 0;
    for b in text {
        value = (base * value + u32::from(digit_value(*b))).min(65536);
    }
    value
}
