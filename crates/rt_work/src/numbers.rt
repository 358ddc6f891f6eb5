//! What the operators, relations and loops give, on words of 16 bits.

ghost use Rattle.std.specs.Prelude.{◌≡◌, ◌≢◌, ◌≤◌, ◌<◌};
ghost use Rattle.rt_words.specs.Word.{is_negative as negative};
ghost use Rattle.rt_work.specs.Numbers as numbers;

use rt_tree::{Op1, Op2, Rel};
use rt_words::{Quotient, Shift, frac_mul, sdiv, shift, signed, wrap_add, wrap_mul, wrap_sub};

/// What a division gives: a value, or the number of a recoverable error.
#[derive(Clone, Copy)]
pub enum Share {
    Gives(u16),
    Fails(u16),
}

pub fn one_of(operator: Op1, a: u16) -> u16
    ensures { result ≡ numbers.one_of operator a }
{
    match operator {
        Op1::Plus | Op1::Int | Op1::Frac => a,
        Op1::Minus => wrap_sub(0, a),
        Op1::Abs => absolute(a),
        Op1::Not => 65535 - a,
        Op1::Byte => a % 256,
    }
}

fn absolute(a: u16) -> u16
    ensures { result ≡ numbers.one_of Op1.Abs a }
{
    if is_negative(a) { wrap_sub(0, a) } else { a }
}

fn is_negative(a: u16) -> bool
    ensures { result ≡ negative a }
{
    32768 <= a
}

pub fn two_of(operator: Op2, a: u16, b: u16) -> u16
    ensures { result ≡ numbers.two_of operator a b }
{
    match operator {
        Op2::Sll => shift(Shift::Sll, a, b),
        Op2::Srl => shift(Shift::Srl, a, b),
        Op2::Sla => shift(Shift::Sla, a, b),
        Op2::Sra => shift(Shift::Sra, a, b),
        Op2::Times => wrap_mul(a, b),
        Op2::FracTimes => frac_mul(a, b),
        Op2::Divide | Op2::Mod => 0,
        Op2::Land => a & b,
        Op2::Plus => wrap_add(a, b),
        Op2::Minus => wrap_sub(a, b),
        Op2::Lor => a | b,
        Op2::Nev => a ^ b,
    }
}

/// The quotient or the remainder.
pub fn divided(operator: Op2, a: u16, b: u16) -> Share
    ensures { result ≡ numbers.divided operator a b }
{
    match operator {
        Op2::Divide => quotient_of(sdiv(a, b)),
        _ => remainder_of(sdiv(a, b)),
    }
}

fn quotient_of(quotient: Quotient) -> Share
    ensures { result ≡ numbers.quotient_of quotient }
{
    match quotient {
        Quotient::Ok(q, _) => Share::Gives(q),
        Quotient::Zero => Share::Fails(2),
        Quotient::Wide => Share::Fails(3),
    }
}

fn remainder_of(quotient: Quotient) -> Share
    ensures { result ≡ numbers.remainder_of quotient }
{
    match quotient {
        Quotient::Ok(_, r) => Share::Gives(r),
        Quotient::Zero => Share::Fails(2),
        Quotient::Wide => Share::Gives(0),
    }
}

fn is_less(a: u16, b: u16) -> bool
    ensures { result ≡ numbers.is_less a b }
{
    signed(a) < signed(b)
}

/// Whether the relation holds between two words.
pub fn holds(relation: Rel, a: u16, b: u16) -> bool
    ensures { result ≡ numbers.holds relation a b }
{
    match relation {
        Rel::Equal => a == b,
        Rel::Unequal => !(a == b),
        Rel::Less => is_less(a, b),
        Rel::LessOrEqual => !is_less(b, a),
        Rel::Greater => is_less(b, a),
        Rel::GreaterOrEqual => !is_less(a, b),
        Rel::Same | Rel::Different => false,
    }
}

fn distance(a: u16, b: u16) -> u32
    ensures value { result ≡ numbers.distance a b }
    ensures most { result ≤ 65535 }
    ensures apart { a ≢ b → 0 < result }
{
    (signed(b) - signed(a)).unsigned_abs()
}

fn ends_before(start: u16, step: u16, end: u16) -> bool
    ensures { result ≡ numbers.ends_before start step end }
{
    if is_negative(step) {
        is_less(start, end)
    } else {
        is_less(end, start)
    }
}

/// The turns of a FOR.
pub fn turns(start: u16, step: u16, end: u16) -> u32
    ensures value { result ≡ numbers.turns start step end }
    ensures most { result ≤ 65536 }
{
    if step == 0 || ends_before(start, step, end) {
        0
    } else {
        distance(start, end) / distance(0, step) + 1
    }
}

/// The turns of a TO.
pub fn turns_to(number: u16) -> u16
    ensures { result ≡ numbers.turns_to number }
{
    if is_negative(number) { 0 } else { number }
}
