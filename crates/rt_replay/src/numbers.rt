//! Numbers as reports print them.

ghost use Rattle.std.specs.Prelude.{◌≡◌, ◌≤◌, ◌<◌, min, length, IfSome};
ghost use Rattle.std.specs.List.{list_all};
ghost use Rattle.rt_system.specs.Numbers.{digits_value};
ghost use Rattle.rt_system.specs.Reading.{is_digit as digit_test};
ghost use Rattle.rt_replay.specs.Reading as spec;

use crate::lines::unended;
use crate::words::{behind, is_same};
use rt_pieces::is_digit;
use rt_words::octal6;

fn are_digits(text: &[u8]) -> bool
    ensures { result ≡ list_all digit_test text.now }
{
    text.iter().all(|b| is_digit(*b))
}

/// Whether the text is a number in decimal digits, without a leading zero where it has several.
fn is_decimal(text: &[u8]) -> bool
    ensures { result ≡ spec.is_decimal text.now }
{
    if text.is_empty() || !are_digits(text) {
        return false;
    }
    text.len() == 1 || text[0] != b'0'
}

/// The value of decimal digits, or 8,000,000,001 where it is larger.
fn value(digits: &[u8]) -> u64
    ensures { result ≡ min (digits_value digits.now) 8000000001 }
{
    let mut value: u64 = 0;
    for digit in digits {
        value = (10 * value + u64::from(digit.saturating_sub(b'0'))).min(8_000_000_001);
    }
    value
}

/// The number up to `most` that the text spells.
#[tactic(auto, unfolding(crate::specs::Reading::number))]
pub fn number(most: u64, text: &[u8]) -> Option<u64>
    requires { most ≤ 8000000000 }
    ensures value { result ≡ spec.number most text.now }
    ensures within { IfSome result (λ n. n ≤ most) }
{
    if !is_decimal(text) {
        return None;
    }
    let value = value(text);
    if value > most {
        return None;
    }
    Some(value)
}

/// The number up to `most` that stands behind these bytes, and ends the line.
#[tactic(auto, unfolding(crate::specs::Reading::counted_in))]
pub fn counted(front: &[u8], most: u64, line: &[u8]) -> Option<u64>
    requires { most ≤ 8000000000 }
    ensures value { result ≡ spec.counted_in front.now most line.now }
    ensures within { IfSome result (λ n. n ≤ most) }
{
    number(most, unended(behind(front, line)?)?)
}

/// The signed number that the text spells, in two's complement.
#[tactic(auto, unfolding(crate::specs::Reading::signed_number))]
pub fn signed_number(text: &[u8]) -> Option<u16>
    ensures { result ≡ spec.signed_number text.now }
{
    let Some(digits) = behind(b"-", text) else {
        return Some(number(32_767, text)? as u16);
    };
    let below_zero = number(32_768, digits)?;
    if below_zero == 0 {
        return None;
    }
    Some((65_536 - below_zero) as u16)
}

/// The word that octal digits spell, as far as they are octal digits.
fn octal_value(digits: &[u8]) -> u16
    ensures { result ≡ spec.octal_value digits.now }
{
    let mut value: u32 = 0;
    for digit in digits {
        value = (8 * value + u32::from(digit.saturating_sub(b'0'))) % 65_536;
    }
    value as u16
}

/// Whether the text is a word in six octal digits.
pub fn is_octal(text: &[u8]) -> bool
    ensures { result ≡ spec.is_octal text.now }
{
    is_same(&octal6(octal_value(text)), text)
}
