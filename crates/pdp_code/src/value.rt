//! Words and bytes, what operations of one operand make of them, and a value that is shifted.

ghost use Rattle.std.specs.Prelude.{◌≡◌, ◌+◌, ◌-◌, ◌*◌, ◌/◌, ◌%◌, ◌<◌, ◌≤◌, ◌^◌, bit_and};
ghost use Rattle.rt_words.specs.Word.{differ, extend_sign, with_low_byte};
ghost use Rattle.pdp_code.specs.Values.{limit, half, negative, plus, minus, one_if, half_if, single_value, single_carry, single_overflow};

use crate::{SingleOp, Size};
use rt_words::wrap_sub;

/// A value that is shifted bit by bit, the last bit that went out, and whether its sign ever changed.
#[derive(Clone, Copy)]
pub struct Shift {
    pub value: u32,
    pub carry: bool,
    pub turned: bool,
}

/// Whether two tests differ.
#[inline(always)]
pub fn differ_of(a: bool, b: bool) -> bool
    ensures { result ≡ differ a b }
{
    a != b
}

/// A byte as a word of the same sign. In this form it is one instruction of the host.
#[inline(always)]
pub fn extend(b: u8) -> u16
    ensures { result ≡ extend_sign b }
{
    wrap_sub((b as u16 + 128) % 256, 128)
}

/// A word with another low byte.
#[inline(always)]
pub fn set_low_byte(w: u16, b: u8) -> u16
    ensures { result ≡ with_low_byte w b }
{
    w / 256 * 256 + b as u16
}

/// How many values there are.
#[inline(always)]
pub fn limit_of(size: Size) -> u32
    ensures value { result ≡ limit size }
    ensures most { result ≤ 65536 }
    ensures least { 256 ≤ result }
{
    match size {
        Size::Word => 65536,
        Size::Byte => 256,
    }
}

/// Half of them.
#[inline(always)]
pub fn half_of(size: Size) -> u16
    ensures value { result ≡ half size }
    ensures most { result ≤ 32768 }
    ensures least { 128 ≤ result }
    ensures below { result + result ≡ limit size }
{
    match size {
        Size::Word => 32768,
        Size::Byte => 128,
    }
}

/// Whether the top bit is set.
#[inline(always)]
pub fn is_negative(size: Size, x: u16) -> bool
    ensures { result ≡ negative size x }
{
    half_of(size) <= x
}

/// A sum without its carry.
#[inline(always)]
pub fn add(size: Size, a: u16, b: u16) -> u16
    ensures value { result ≡ plus size a b }
    ensures below { result < limit size }
{
    ((a as u32 + b as u32) % limit_of(size)) as u16
}

/// A difference without its borrow.
#[inline(always)]
pub fn subtract(size: Size, a: u16, b: u16) -> u16
    requires { b < limit size }
    ensures value { result ≡ minus size a b }
    ensures below { result < limit size }
{
    ((a as u32 + (limit_of(size) - b as u32)) % limit_of(size)) as u16
}

/// The bits of one that are not in the other.
#[inline(always)]
pub fn clear_bits(y: u16, x: u16) -> u16
    ensures value { result ≡ y - bit_and y x }
    ensures less { result ≤ y }
{
    y - (y & x)
}

#[inline(always)]
fn one_where(b: bool) -> u16
    ensures value { result ≡ one_if b }
    ensures few { result ≤ 1 }
{
    if b { 1 } else { 0 }
}

#[inline(always)]
fn half_where(size: Size, b: bool) -> u16
    ensures value { result ≡ half_if size b }
    ensures most { result + result ≤ limit size }
{
    if b { half_of(size) } else { 0 }
}

#[inline(always)]
fn right(size: Size, y: u16, top: bool) -> u16
    requires { y < limit size }
    ensures value { result ≡ y / 2 + half_if size top }
    ensures below { result < limit size }
{
    prove!(half_of(size) > 0);
    y / 2 + half_where(size, top)
}

#[inline(always)]
fn left(size: Size, y: u16, low: bool) -> u16
    ensures value { result ≡ (2 * y + one_if low) % limit size }
    ensures below { result < limit size }
{
    ((2 * y as u32 + one_where(low) as u32) % limit_of(size)) as u16
}

#[inline(always)]
fn twice(size: Size, y: u16) -> u16
    ensures value { result ≡ (2 * y) % limit size }
    ensures below { result < limit size }
{
    ((2 * y as u32) % limit_of(size)) as u16
}

#[inline(always)]
fn complement(size: Size, y: u16) -> u16
    requires { y < limit size }
    ensures value { result ≡ limit size - 1 - y }
    ensures below { result < limit size }
{
    (limit_of(size) - 1 - y as u32) as u16
}

/// What an operation makes of `y`, with C before it.
#[inline(always)]
pub fn changed(op: SingleOp, size: Size, c: bool, y: u16) -> u16
    requires { y < limit size }
    ensures value { result ≡ single_value op size c y }
    ensures below { result < limit size }
{
    prove!(limit_of(size) > 0);
    match op {
        SingleOp::Clr => 0,
        SingleOp::Com => complement(size, y),
        SingleOp::Inc => add(size, y, 1),
        SingleOp::Dec => subtract(size, y, 1),
        SingleOp::Neg => subtract(size, 0, y),
        SingleOp::Adc => add(size, y, one_where(c)),
        SingleOp::Sbc => subtract(size, y, one_where(c)),
        SingleOp::Tst => y,
        SingleOp::Ror => right(size, y, c),
        SingleOp::Rol => left(size, y, c),
        SingleOp::Asr => right(size, y, is_negative(size, y)),
        SingleOp::Asl => twice(size, y),
    }
}

/// C after it.
#[inline(always)]
pub fn carry_of(op: SingleOp, size: Size, c: bool, y: u16, x: u16) -> bool
    ensures { result ≡ single_carry op size c y x }
{
    match op {
        SingleOp::Clr => false,
        SingleOp::Com => true,
        SingleOp::Inc => c,
        SingleOp::Dec => c,
        SingleOp::Neg => x != 0,
        SingleOp::Adc => y as u32 == limit_of(size) - 1 && c,
        SingleOp::Sbc => y == 0 && c,
        SingleOp::Tst => false,
        SingleOp::Ror => y % 2 == 1,
        SingleOp::Rol => is_negative(size, y),
        SingleOp::Asr => y % 2 == 1,
        SingleOp::Asl => is_negative(size, y),
    }
}

/// V after it.
#[inline(always)]
pub fn overflow_of(op: SingleOp, size: Size, c: bool, y: u16, x: u16) -> bool
    ensures { result ≡ single_overflow op size c y x }
{
    match op {
        SingleOp::Clr => false,
        SingleOp::Com => false,
        SingleOp::Inc => y == half_of(size) - 1,
        SingleOp::Dec => y == half_of(size),
        SingleOp::Neg => x == half_of(size),
        SingleOp::Adc => y == half_of(size) - 1 && c,
        SingleOp::Sbc => y == half_of(size) && c,
        SingleOp::Tst => false,
        SingleOp::Ror => differ_of(is_negative(size, x), y % 2 == 1),
        SingleOp::Rol => differ_of(is_negative(size, x), is_negative(size, y)),
        SingleOp::Asr => differ_of(is_negative(size, x), y % 2 == 1),
        SingleOp::Asl => differ_of(is_negative(size, x), is_negative(size, y)),
    }
}
