// The operators of the language on words of 16 bits.
ghost use Rattle.std.specs.Prelude.{◌≡◌, ◌<◌, ◌==◌, ◌&&◌};
ghost use Rattle.rt_words.specs.Operators as operators;

use crate::arithmetic::{low_word, signed};
use crate::kinds::{Quotient, Shift};

/// The low 16 bits of the product of two words.
pub fn wrap_mul(a: u16, b: u16) -> u16
    ensures { result ≡ operators.wrap_mul a b }
{
    a.wrapping_mul(b)
}

/// The product of two fractions: bits 15 to 30 of the 32-bit product of the signed words.
pub fn frac_mul(a: u16, b: u16) -> u16
    ensures { result ≡ operators.frac_mul a b }
{
    low_word((signed(a) * signed(b)).div_euclid(32768))
}

/// Quotient and remainder of two signed words.
pub fn sdiv(a: u16, b: u16) -> Quotient
    ensures { result ≡ operators.sdiv a b }
{
    if b == 0 {
        Quotient::Zero
    } else if is_wide(a, b) {
        Quotient::Wide
    } else {
        divided(a, b)
    }
}

fn is_wide(a: u16, b: u16) -> bool
    ensures { result ≡ (a == 32768 && b == 65535) }
{
    a == 32768 && b == 65535
}

fn divided(a: u16, b: u16) -> Quotient
    requires { 0 < b }
    ensures { result ≡ operators.divided a b }
{
    let (x, y) = (signed(a), signed(b));
    Quotient::Ok(low_word(x / y), low_word(x % y))
}

/// A word shifted by `n` places, the count taken modulo 16.
pub fn shift(kind: Shift, a: u16, n: u16) -> u16
    ensures { result ≡ operators.shift kind a n }
{
    let count = n % 16;
    match kind {
        Shift::Sll | Shift::Sla => a << count,
        Shift::Srl => a >> count,
        Shift::Sra => shift_signed(a, count),
    }
}

fn shift_signed(a: u16, count: u16) -> u16
    requires { count < 16 }
    ensures { result ≡ operators.shifted Shift.Sra a count }
{
    if a < 32768 {
        a >> count
    } else {
        65535 - ((65535 - a) >> count)
    }
}

/// A word in six octal digits, the highest first.
pub fn octal6(a: u16) -> [u8; 6]
    ensures { result ≡ operators.octal6 a }
{
    [
        octal_digit(a, 32768),
        octal_digit(a, 4096),
        octal_digit(a, 512),
        octal_digit(a, 64),
        octal_digit(a, 8),
        octal_digit(a, 1),
    ]
}

fn octal_digit(a: u16, unit: u16) -> u8
    requires { 0 < unit }
    ensures { result ≡ operators.octal_digit a unit }
{
    48 + (a / unit % 8) as u8
}
