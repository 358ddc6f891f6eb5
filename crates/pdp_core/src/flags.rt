// Flags.
ghost use Rattle.std.specs.Prelude.{◌≡◌, ◌<◌, false};
ghost use Rattle.pdp_code.specs.Values.{limit, single_carry, single_overflow};
ghost use Rattle.pdp_core.specs.Execute.{by_value, by_difference, by_sum, flags, marked};

use crate::cpu::Regs;
use pdp_code::{SingleOp, Size, add, carry_of, differ_of, is_negative, overflow_of, subtract};

/// Sets the four flags.
#[inline(always)]
pub fn set_flags(regs: &mut Regs, n: bool, z: bool, v: bool, c: bool)
    ensures { regs.new ≡ flags regs.old n z v c }
{
    regs.n = n;
    regs.z = z;
    regs.v = v;
    regs.c = c;
}

/// N and Z by a result.
#[inline(always)]
pub fn set_by_value(regs: &mut Regs, size: Size, x: u16, v: bool, c: bool)
    ensures { regs.new ≡ by_value regs.old size x v c }
{
    set_flags(regs, is_negative(size, x), x == 0, v, c);
}

/// N and Z by a result, with V cleared and C as it was.
#[inline(always)]
pub fn set_but_carry(regs: &mut Regs, size: Size, x: u16)
    ensures { regs.new ≡ by_value regs.old size x false regs.old.c }
{
    regs.n = is_negative(size, x);
    regs.z = x == 0;
    regs.v = false;
}

/// The flags of `a - b`.
#[inline(always)]
pub fn set_by_difference(regs: &mut Regs, size: Size, a: u16, b: u16)
    requires { b < limit size }
    ensures { regs.new ≡ by_difference regs.old size a b }
{
    let x = subtract(size, a, b);
    let apart = differ_of(is_negative(size, a), is_negative(size, b));
    let turned = differ_of(is_negative(size, x), is_negative(size, b));
    set_by_value(regs, size, x, apart && !turned, a < b);
}

/// The flags of `a + b`.
#[inline(always)]
pub fn set_by_sum(regs: &mut Regs, a: u16, b: u16)
    ensures { regs.new ≡ by_sum regs.old a b }
{
    let x = add(Size::Word, a, b);
    let apart = differ_of(is_negative(Size::Word, a), is_negative(Size::Word, b));
    let turned = differ_of(is_negative(Size::Word, x), is_negative(Size::Word, b));
    set_by_value(
        regs,
        Size::Word,
        x,
        !apart && turned,
        65536 <= a as u32 + b as u32,
    );
}

/// Sets or clears flags.
#[inline(always)]
pub fn mark(regs: &mut Regs, u: bool, n: bool, z: bool, v: bool, c: bool)
    ensures { regs.new ≡ marked regs.old u n z v c }
{
    let new_n = if n { u } else { regs.n };
    let new_z = if z { u } else { regs.z };
    let new_v = if v { u } else { regs.v };
    let new_c = if c { u } else { regs.c };
    set_flags(regs, new_n, new_z, new_v, new_c);
}

/// Sets the flags of an operation that makes `x` of `y`, with C before it.
#[inline(always)]
pub fn set_by_change(regs: &mut Regs, op: SingleOp, size: Size, c: bool, y: u16, x: u16)
    ensures { regs.new ≡ by_value regs.old size x (single_overflow op size c y x) (single_carry op size c y x) }
{
    set_by_value(
        regs,
        size,
        x,
        overflow_of(op, size, c, y, x),
        carry_of(op, size, c, y, x),
    );
}
