// Registers after products, quotients and shifts.
ghost use Rattle.std.specs.Prelude.{◌≡◌, ◌<◌};
ghost use Rattle.pdp_code.specs.Code.{reg_code};
ghost use Rattle.pdp_core.specs.Execute.{with_product, pair, with_pair, with_quotient, divided, shift_word, shift_pair};

use crate::cpu::Regs;
use crate::flags::{set_by_value, set_flags};
use crate::operand::{get, index, set};
use pdp_code::{Reg, Shift, Size, differ_of, distance, signed, word_distance};

/// The word of a register and that of the next.
pub fn get_pair(regs: &Regs, r: Reg) -> u32
    requires { reg_code r < 7 }
    ensures { result ≡ pair regs.now r }
{
    let i = index(r);
    regs.r[i] as u32 * 65536 + regs.r[i + 1] as u32
}

/// Gives both another word.
pub fn set_pair(regs: &mut Regs, r: Reg, x: u16, y: u16)
    requires { reg_code r < 7 }
    ensures { regs.new ≡ with_pair regs.old r x y }
{
    let i = index(r);
    regs.r[i] = x;
    regs.r[i + 1] = y;
}

/// The registers after a product.
pub fn set_product(regs: &mut Regs, r: Reg, x: u32)
    ensures { regs.new ≡ with_product regs.old r x }
{
    set_flags(
        regs,
        2147483648 <= x,
        x == 0,
        false,
        32768 <= x && x < 4294934528,
    );
    if index(r) % 2 == 1 {
        set(regs, r, (x % 65536) as u16);
    } else {
        set_pair(regs, r, (x / 65536) as u16, (x % 65536) as u16);
    }
}

fn set_quotient(regs: &mut Regs, r: Reg, a: u32, b: u16)
    requires even { reg_code r < 7 }
    requires divides { 0 < b }
    ensures { regs.new ≡ with_quotient regs.old r a b }
{
    let below = 2147483648 <= a;
    let turned = differ_of(below, 32768 <= b);
    let m = distance(a);
    let n = word_distance(b);
    let q = m / n;
    let most = if turned { 32768 } else { 32767 };
    if most < q {
        set_flags(regs, false, false, true, false);
    } else {
        let quotient = signed(turned, q);
        let rest = signed(below, m % n);
        set_by_value(regs, Size::Word, quotient, false, false);
        set_pair(regs, r, quotient, rest);
    }
}

/// The registers after a division.
pub fn divide(regs: &mut Regs, r: Reg, b: u16)
    requires { reg_code r < 7 }
    ensures { regs.new ≡ divided regs.old r b }
{
    if b == 0 {
        set_flags(regs, false, false, true, true);
    } else {
        let a = get_pair(regs, r);
        set_quotient(regs, r, a, b);
    }
}

/// The registers after a word was shifted.
pub fn set_shifted(regs: &mut Regs, r: Reg, s: Shift)
    requires { s.value < 65536 }
    ensures { regs.new ≡ shift_word regs.old r s }
{
    set_by_value(regs, Size::Word, s.value as u16, s.turned, s.carry);
    set(regs, r, s.value as u16);
}

/// The registers after 32 bits were shifted.
pub fn set_shifted_pair(regs: &mut Regs, r: Reg, s: Shift)
    requires { reg_code r < 7 }
    ensures { regs.new ≡ shift_pair regs.old r s }
{
    set_flags(regs, 2147483648 <= s.value, s.value == 0, s.turned, s.carry);
    set_pair(regs, r, (s.value / 65536) as u16, (s.value % 65536) as u16);
}
