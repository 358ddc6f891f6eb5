//! Numbers in decimal digits.

ghost use Rattle.std.specs.Prelude.{◌≡◌, ◌≤◌, min, IfSome};
ghost use Rattle.std.specs.List.{list_all};
ghost use Rattle.rt_system.specs.Numbers.{digits_value};
ghost use Rattle.rt_system.specs.Reading as spec;

/// No number of these texts is larger.
pub const MOST_NUMBER: u32 = 4_000_000_000;

fn is_digit(byte: u8) -> bool
    ensures { result ≡ spec.is_digit byte }
{
    b'0' <= byte && byte <= b'9'
}

fn are_digits(text: &[u8]) -> bool
    ensures { result ≡ list_all spec.is_digit text.now }
{
    text.iter().all(|b| is_digit(*b))
}

/// The value of decimal digits, or 4,000,000,001 where it is larger.
fn value(digits: &[u8]) -> u64
    ensures { result ≡ min (digits_value digits.now) 4000000001 }
{
    let mut value: u64 = 0;
    for digit in digits {
        value = (10 * value + u64::from(digit.saturating_sub(b'0'))).min(4_000_000_001);
    }
    value
}

/// A number up to `most`, of decimal digits that may begin by zeros.
#[tactic(auto, unfolding(crate::specs::Reading::number))]
pub fn number(most: u32, text: &[u8]) -> Option<u32>
    requires { most ≤ 4000000000 }
    ensures value { result ≡ spec.number most text.now }
    ensures within { IfSome result (λ n. n ≤ most) }
{
    if text.is_empty() || !are_digits(text) {
        return None;
    }
    let value = value(text);
    if value > u64::from(most) {
        return None;
    }
    Some(value as u32)
}

/// A number from 1 to `most`, of decimal digits without a leading zero.
#[tactic(auto, unfolding(crate::specs::Reading::plain_number))]
pub fn plain_number(most: u32, text: &[u8]) -> Option<u32>
    requires { most ≤ 4000000000 }
    ensures value { result ≡ spec.plain_number most text.now }
    ensures within { IfSome result (λ n. n ≤ most) }
{
    match text {
        [] => None,
        [first, ..] => {
            if *first == b'0' {
                return None;
            }
            number(most, text)
        }
    }
}
