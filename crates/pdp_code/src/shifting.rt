//! Products, distances and shifts.

ghost use Rattle.std.specs.Prelude.{◌≡◌, ◌+◌, ◌-◌, ◌*◌, ◌/◌, ◌%◌, ◌<◌, ◌≤◌, ◌^◌};
ghost use Rattle.pdp_code.specs.Values.{widened, product_of, magnitude, signed_word, one_left, one_right, lefts, rights, shifted};

use crate::value::{Shift, differ_of};

/// A word as 32 bits of the same sign.
fn widen(x: u16) -> u64
    ensures { result ≡ widened x }
{
    if x < 32768 {
        x as u64
    } else {
        x as u64 + 4294901760
    }
}

/// The product of two words, as 32 bits.
pub fn product(a: u16, b: u16) -> u32
    ensures { result ≡ product_of a b }
{
    ((widen(a) * widen(b)) % 4294967296) as u32
}

/// How far 32 bits are from 0, as a signed number.
pub fn distance(x: u32) -> u32
    ensures value { result ≡ magnitude 4294967296 2147483648 x }
    ensures most { result ≤ 2147483648 }
{
    if 2147483648 <= x {
        (4294967296 - x as u64) as u32
    } else {
        x
    }
}

/// How far a word is from 0, as a signed number.
pub fn word_distance(x: u16) -> u32
    ensures value { result ≡ magnitude 65536 32768 x }
    ensures most { result ≤ 32768 }
    ensures least { 0 < x → 0 < result }
{
    if 32768 <= x {
        65536 - x as u32
    } else {
        x as u32
    }
}

/// A word that is as far from 0.
pub fn signed(below: bool, x: u32) -> u16
    requires { x ≤ 32768 }
    ensures { result ≡ signed_word below x }
{
    if below {
        ((65536 - x) % 65536) as u16
    } else {
        x as u16
    }
}

fn left(l: u64, h: u32, s: Shift) -> Shift
    requires some { 0 < l }
    requires fits { l ≤ 4294967296 }
    ensures { result ≡ one_left l h s }
{
    let x = ((2 * s.value as u64) % l) as u32;
    let turned = s.turned || differ_of(h <= x, h <= s.value);
    Shift {
        value: x,
        carry: h <= s.value,
        turned,
    }
}

fn right(h: u32, s: Shift) -> Shift
    requires { h ≤ 2147483648 }
    ensures { result ≡ one_right h s }
{
    let top = if h <= s.value { h } else { 0 };
    Shift {
        value: s.value / 2 + top,
        carry: s.value % 2 == 1,
        turned: s.turned,
    }
}

fn all_left(l: u64, h: u32, x: Shift, n: u32) -> Shift
    requires some { 0 < l }
    requires fits { l ≤ 4294967296 }
    ensures { result ≡ lefts n l h x }
{
    let mut s = x;
    for i in 0..n {
        s = left(l, h, s);
    }
    s
}

fn all_right(h: u32, x: Shift, n: u32) -> Shift
    requires { h ≤ 2147483648 }
    ensures { result ≡ rights n h x }
{
    let mut s = x;
    for i in 0..n {
        s = right(h, s);
    }
    s
}

/// Shifts by the low six bits of a word.
pub fn shift(l: u64, h: u32, x: u32, n: u16) -> Shift
    requires some { 0 < l }
    requires fits { l ≤ 4294967296 }
    requires half { h ≤ 2147483648 }
    ensures { result ≡ shifted l h x n }
{
    let s = Shift {
        value: x,
        carry: false,
        turned: false,
    };
    let k = n as u32 % 64;
    if k < 32 {
        all_left(l, h, s, k)
    } else {
        all_right(h, s, 64 - k)
    }
}
