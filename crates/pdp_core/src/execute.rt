// The instructions.
ghost use Rattle.std.specs.Prelude.{◌≡◌, ◌+◌, ◌-◌, ◌*◌, ◌/◌, ◌%◌, ◌<◌, ◌^◌, OnErr, bit_or, false, true};
ghost use Rattle.pdp_code.specs.First.{operand_of};
ghost use Rattle.pdp_code.specs.declared.instruction.Instr.{Instr};
ghost use Rattle.pdp_core.specs.Accesses.{store_made, update_made, double_made, single_end_made, single_read_made, single_made, at_place, after, word_made, register_made, push_made, pop_made, perform_made, execute_made};
ghost use Rattle.pdp_core.specs.Spots.{place_of};
ghost use Rattle.pdp_code.specs.declared.instruction.Reg.TheVariants.{Pc};
ghost use Rattle.pdp_code.specs.Values.{limit, single_value};
ghost use Rattle.pdp_core.specs.Execute.{failure, address, and_then, store, move as move_of, double, sum, single, single_read, single_end, single_flags, on_word as on_word_of, on_register, is_odd_pair, left, holds, branch, loop, target, call, return_by, double_step, sum_step, single_step, word_step, register_step, jump_step, call_step, perform as perform_of, plan, trap, execute, reg, with_reg};
ghost use Rattle.pdp_core.specs.Told.{told, stop_of};
ghost use Rattle.pdp_core.specs.Kept.{AllButCounter, turned_back};

use crate::cpu::{Done, Failure, Kind, Regs, Spot, Stop};
use crate::ends::Ends;
use crate::flags::{
    mark, set_but_carry, set_by_change, set_by_difference, set_by_sum, set_by_value, set_flags,
};
use crate::groups::carry_out;
use crate::memory::Bus;
use crate::operand::{
    failure_of, find, get, get_at, index, load_at, set, set_at, stepped_down, store_at, store_word,
    value, word_at, write_word,
};
use crate::pairs::{divide, get_pair, set_product, set_shifted, set_shifted_pair};
use pdp_code::{
    Condition, DoubleOp, OnOne, OnSum, OnTwo, Reg, RegisterOp, SingleOp, Size, SumOp, Width,
    WordOp, add, changed, clear_bits, differ_of, extend, limit_of, product, shift, subtract,
};
use rt_words::{wrap_add, wrap_sub};

// The register that an operand's address changed is given back where what follows fails. The program counter is given back last of all, for the whole instruction.
macro_rules! or_undo {
    ($answer:expr, $regs:ident, $operand:expr, $kept:expr) => {
        match $answer {
            Ok(()) => Ok(()),
            Err(failure) => {
                set_at($regs, $operand, $kept);
                Err(failure)
            }
        }
    };
}

#[inline(always)]
fn move_to<B: Bus>(bus: &mut B, regs: &mut Regs, size: Size, x: u16, d: Spot) -> Result<(), Failure>
    requires { x < limit size }
    ensures value { move_of (B.world bus.old) regs.old size x (place_of d) ≡ left result regs.new (B.world bus.new) }
    ensures err { OnErr result (B.world bus.new ≡ B.world bus.old) }
    ensures kept { OnErr result (regs.new ≡ regs.old) }
    ensures made { B.accesses bus.new ≡ store_made size (place_of d) (B.accesses bus.old) }
{
    match size {
        Size::Word => store_word(bus, regs, d, x),
        Size::Byte => match d {
            Spot::Register(n) => {
                set_at(regs, n, extend(x as u8));
                Ok(())
            }
            _ => store_at(bus, Size::Byte, regs, d, x),
        },
    }
}

#[inline(always)]
fn two<O: OnTwo, Z: Width, B: Bus>(
    bus: &mut B,
    regs: &mut Regs,
    x: u16,
    d: Spot,
) -> Result<(), Failure>
    requires { x < limit Z.SIZE }
    ensures value { double (B.world bus.old) regs.old O.OP Z.SIZE x (place_of d) ≡ left result regs.new (B.world bus.new) }
    ensures err { OnErr result (B.world bus.new ≡ B.world bus.old) }
    ensures kept { OnErr result (regs.new ≡ regs.old) }
    ensures made { B.accesses bus.new ≡ double_made (B.world bus.old) regs.old O.OP Z.SIZE (place_of d) (B.accesses bus.old) }
{
    match O::OP {
        DoubleOp::Mov => {
            move_to(bus, regs, Z::SIZE, x, d)?;
            set_but_carry(regs, Z::SIZE, x);
            Ok(())
        }
        DoubleOp::Cmp => {
            let y = load_at(bus, Z::SIZE, regs, d)?;
            set_by_difference(regs, Z::SIZE, x, y);
            Ok(())
        }
        DoubleOp::Bit => {
            let y = load_at(bus, Z::SIZE, regs, d)?;
            set_but_carry(regs, Z::SIZE, y & x);
            Ok(())
        }
        DoubleOp::Bic => {
            let y = load_at(bus, Z::SIZE, regs, d)?;
            let z = clear_bits(y, x);
            store_at(bus, Z::SIZE, regs, d, z)?;
            set_but_carry(regs, Z::SIZE, z);
            Ok(())
        }
        DoubleOp::Bis => {
            let y = load_at(bus, Z::SIZE, regs, d)?;
            let z = join(Z::SIZE, y, x);
            store_at(bus, Z::SIZE, regs, d, z)?;
            set_but_carry(regs, Z::SIZE, z);
            Ok(())
        }
    }
}

/// The bits of both.
#[inline(always)]
fn join(size: Size, y: u16, x: u16) -> u16
    requires a { y < limit size }
    requires b { x < limit size }
    ensures value { result ≡ bit_or y x }
    ensures below { result < limit size }
{
    match size {
        Size::Word => y | x,
        Size::Byte => y | x,
    }
}

#[inline(always)]
fn total<O: OnSum, B: Bus>(bus: &mut B, regs: &mut Regs, x: u16, d: Spot) -> Result<(), Failure>
    ensures value { sum (B.world bus.old) regs.old O.OP x (place_of d) ≡ left result regs.new (B.world bus.new) }
    ensures err { OnErr result (B.world bus.new ≡ B.world bus.old) }
    ensures kept { OnErr result (regs.new ≡ regs.old) }
    ensures made { B.accesses bus.new ≡ update_made (B.world bus.old) Size.Word regs.old (place_of d) (B.accesses bus.old) }
{
    let y = load_at(bus, Size::Word, regs, d)?;
    match O::OP {
        SumOp::Add => {
            store_word(bus, regs, d, add(Size::Word, y, x))?;
            set_by_sum(regs, y, x);
            Ok(())
        }
        SumOp::Sub => {
            store_word(bus, regs, d, subtract(Size::Word, y, x))?;
            set_by_difference(regs, Size::Word, y, x);
            Ok(())
        }
    }
}

/// Puts what an operation makes of `y` at a place, and sets its flags.
#[inline(always)]
fn put_change<B: Bus>(
    bus: &mut B,
    regs: &mut Regs,
    op: SingleOp,
    size: Size,
    y: u16,
    d: Spot,
) -> Result<(), Failure>
    requires { y < limit size }
    ensures value { store (B.world bus.old) size (single_flags regs.old op size y) (place_of d) (single_value op size regs.old.c y) ≡ left result regs.new (B.world bus.new) }
    ensures err { OnErr result (B.world bus.new ≡ B.world bus.old) }
    ensures kept { OnErr result (regs.new ≡ regs.old) }
    ensures made { B.accesses bus.new ≡ store_made size (place_of d) (B.accesses bus.old) }
{
    let c = regs.c;
    let x = changed(op, size, c, y);
    store_at(bus, size, regs, d, x)?;
    set_by_change(regs, op, size, c, y, x);
    Ok(())
}

#[inline(always)]
fn finish_one<B: Bus>(
    bus: &mut B,
    regs: &mut Regs,
    op: SingleOp,
    size: Size,
    y: u16,
    d: Spot,
) -> Result<(), Failure>
    requires { y < limit size }
    ensures value { single_end (B.world bus.old) (single_flags regs.old op size y) op size (single_value op size regs.old.c y) (place_of d) ≡ left result regs.new (B.world bus.new) }
    ensures err { OnErr result (B.world bus.new ≡ B.world bus.old) }
    ensures kept { OnErr result (regs.new ≡ regs.old) }
    ensures made { B.accesses bus.new ≡ single_end_made op size (place_of d) (B.accesses bus.old) }
{
    match op {
        SingleOp::Tst => {
            let c = regs.c;
            set_by_change(regs, op, size, c, y, y);
            Ok(())
        }
        _ => put_change(bus, regs, op, size, y, d),
    }
}

#[inline(always)]
fn read_one<B: Bus>(
    bus: &mut B,
    regs: &mut Regs,
    op: SingleOp,
    size: Size,
    d: Spot,
) -> Result<(), Failure>
    ensures value { single_read (B.world bus.old) regs.old op size (place_of d) ≡ left result regs.new (B.world bus.new) }
    ensures err { OnErr result (B.world bus.new ≡ B.world bus.old) }
    ensures kept { OnErr result (regs.new ≡ regs.old) }
    ensures made { B.accesses bus.new ≡ single_read_made (B.world bus.old) regs.old op size (place_of d) (B.accesses bus.old) }
{
    let y = load_at(bus, size, regs, d)?;
    finish_one(bus, regs, op, size, y, d)
}

#[inline(always)]
fn clear<B: Bus>(bus: &mut B, regs: &mut Regs, size: Size, d: Spot) -> Result<(), Failure>
    ensures value { single (B.world bus.old) regs.old SingleOp.Clr size (place_of d) ≡ left result regs.new (B.world bus.new) }
    ensures err { OnErr result (B.world bus.new ≡ B.world bus.old) }
    ensures kept { OnErr result (regs.new ≡ regs.old) }
    ensures made { B.accesses bus.new ≡ store_made size (place_of d) (B.accesses bus.old) }
{
    prove!(limit_of(size) > 0);
    store_at(bus, size, regs, d, 0)?;
    set_flags(regs, false, true, false, false);
    Ok(())
}

#[inline(always)]
fn one<B: Bus>(
    bus: &mut B,
    regs: &mut Regs,
    op: SingleOp,
    size: Size,
    d: Spot,
) -> Result<(), Failure>
    ensures value { single (B.world bus.old) regs.old op size (place_of d) ≡ left result regs.new (B.world bus.new) }
    ensures err { OnErr result (B.world bus.new ≡ B.world bus.old) }
    ensures kept { OnErr result (regs.new ≡ regs.old) }
    ensures made { B.accesses bus.new ≡ single_made (B.world bus.old) regs.old op size (place_of d) (B.accesses bus.old) }
{
    match op {
        SingleOp::Clr => clear(bus, regs, size, d),
        _ => read_one(bus, regs, op, size, d),
    }
}

#[inline(always)]
fn on_word<B: Bus>(bus: &mut B, regs: &mut Regs, op: WordOp, d: Spot) -> Result<(), Failure>
    ensures value { on_word_of (B.world bus.old) regs.old op (place_of d) ≡ left result regs.new (B.world bus.new) }
    ensures err { OnErr result (B.world bus.new ≡ B.world bus.old) }
    ensures kept { OnErr result (regs.new ≡ regs.old) }
    ensures made { B.accesses bus.new ≡ word_made (B.world bus.old) regs.old op (place_of d) (B.accesses bus.old) }
{
    match op {
        WordOp::Swab => {
            let y = load_at(bus, Size::Word, regs, d)?;
            let x = y % 256 * 256 + y / 256;
            store_word(bus, regs, d, x)?;
            set_by_value(regs, Size::Byte, x % 256, false, false);
            Ok(())
        }
        WordOp::Sxt => {
            let n = regs.n;
            let c = regs.c;
            store_word(bus, regs, d, if n { 65535 } else { 0 })?;
            set_flags(regs, n, !n, false, c);
            Ok(())
        }
    }
}

#[inline(always)]
fn has_odd_pair(op: RegisterOp, r: Reg) -> bool
    ensures { result ≡ is_odd_pair op r }
{
    match op {
        RegisterOp::Div => index(r) % 2 == 1,
        RegisterOp::Ashc => index(r) % 2 == 1,
        _ => false,
    }
}

#[inline(always)]
fn with_register<B: Bus>(
    bus: &mut B,
    regs: &mut Regs,
    op: RegisterOp,
    r: Reg,
    before: u16,
    s: Spot,
) -> Result<(), Failure>
    requires { is_odd_pair op r ≡ false }
    ensures value { on_register (B.world bus.old) regs.old before op r (place_of s) ≡ left result regs.new (B.world bus.new) }
    ensures err { OnErr result (B.world bus.new ≡ B.world bus.old) }
    ensures kept { OnErr result (regs.new ≡ regs.old) }
    ensures made { B.accesses bus.new ≡ register_made (B.world bus.old) regs.old op (place_of s) (B.accesses bus.old) }
{
    let x = load_at(bus, Size::Word, regs, s)?;
    match op {
        RegisterOp::Mul => {
            let y = product(get(regs, r), x);
            set_product(regs, r, y);
            Ok(())
        }
        RegisterOp::Div => {
            divide(regs, r, x);
            Ok(())
        }
        RegisterOp::Ash => {
            let y = shift(65536, 32768, get(regs, r) as u32, x);
            set_shifted(regs, r, y);
            Ok(())
        }
        RegisterOp::Ashc => {
            let y = shift(4294967296, 2147483648, get_pair(regs, r), x);
            set_shifted_pair(regs, r, y);
            Ok(())
        }
        RegisterOp::Xor => {
            let y = x ^ before;
            store_word(bus, regs, s, y)?;
            set_but_carry(regs, Size::Word, y);
            Ok(())
        }
    }
}

#[inline(always)]
fn is_taken(regs: &Regs, c: Condition) -> bool
    ensures { result ≡ holds regs.now c }
{
    match c {
        Condition::Always => true,
        Condition::NotEqual => !regs.z,
        Condition::Equal => regs.z,
        Condition::AtLeast => !differ_of(regs.n, regs.v),
        Condition::Less => differ_of(regs.n, regs.v),
        Condition::Greater => !regs.z && !differ_of(regs.n, regs.v),
        Condition::AtMost => regs.z || differ_of(regs.n, regs.v),
        Condition::Plus => !regs.n,
        Condition::Minus => regs.n,
        Condition::Higher => !regs.c && !regs.z,
        Condition::LowerSame => regs.c || regs.z,
        Condition::NoOverflow => !regs.v,
        Condition::Overflow => regs.v,
        Condition::NoCarry => !regs.c,
        Condition::Carry => regs.c,
    }
}

#[inline(always)]
pub fn take_branch(regs: &mut Regs, c: Condition, n: u8)
    ensures { regs.new ≡ branch regs.old (holds regs.old c) n }
{
    if is_taken(regs, c) {
        let far = extend(n);
        let to = wrap_add(get(regs, Reg::Pc), wrap_add(far, far));
        set(regs, Reg::Pc, to);
    }
}

#[inline(always)]
pub fn count_down(regs: &mut Regs, r: Reg, n: u8)
    ensures { regs.new ≡ loop regs.old r n }
{
    let x = wrap_sub(get(regs, r), 1);
    set(regs, r, x);
    if x != 0 {
        let to = wrap_sub(get(regs, Reg::Pc), 2 * n as u16);
        set(regs, Reg::Pc, to);
    }
}

#[inline(always)]
pub fn failed(kind: Kind, at: u16) -> Failure
    ensures { result ≡ failure kind at }
{
    Failure { kind, at }
}

#[inline(always)]
fn address_of(at: u16, place: Spot) -> Result<u16, Failure>
    ensures { result ≡ target at (place_of place) }
{
    match place {
        Spot::Register(_) => Err(failed(Kind::BadJump, at)),
        Spot::Memory(a) | Spot::Code(a, _) => Ok(a),
    }
}

#[inline(always)]
fn enter<B: Bus>(bus: &mut B, regs: &mut Regs, r: Reg, a: u16) -> Result<(), Failure>
    ensures value { call (B.world bus.old) regs.old r a ≡ left result regs.new (B.world bus.new) }
    ensures err { OnErr result (B.world bus.new ≡ B.world bus.old) }
    ensures kept { OnErr result (regs.new ≡ regs.old) }
    ensures made { B.accesses bus.new ≡ push_made regs.old (B.accesses bus.old) }
{
    let kept = get(regs, r);
    let back = get(regs, Reg::Pc);
    let s = wrap_sub(get(regs, Reg::Sp), 2);
    write_word(bus, regs, s, kept)?;
    set(regs, Reg::Sp, s);
    set(regs, r, back);
    set(regs, Reg::Pc, a);
    Ok(())
}

#[inline(always)]
fn enter_at<B: Bus>(
    bus: &mut B,
    regs: &mut Regs,
    at: u16,
    r: Reg,
    place: Spot,
) -> Result<(), Failure>
    ensures value { and_then (target at (place_of place)) (λ a. call (B.world bus.old) regs.old r a) ≡ left result regs.new (B.world bus.new) }
    ensures err { OnErr result (B.world bus.new ≡ B.world bus.old) }
    ensures kept { OnErr result (regs.new ≡ regs.old) }
    ensures made { B.accesses bus.new ≡ after (target at (place_of place)) (λ a. push_made regs.old) (B.accesses bus.old) }
{
    let to = address_of(at, place)?;
    enter(bus, regs, r, to)
}

#[inline(always)]
pub fn leave<B: Bus>(bus: &mut B, regs: &mut Regs, r: Reg) -> Result<(), Failure>
    ensures value { return_by (B.world bus.old) regs.old r ≡ left result regs.new (B.world bus.new) }
    ensures err { OnErr result (B.world bus.new ≡ B.world bus.old) }
    ensures kept { OnErr result (regs.new ≡ regs.old) }
    ensures made { B.accesses bus.new ≡ pop_made regs.old (B.accesses bus.old) }
{
    let s = get(regs, Reg::Sp);
    let x = word_at(bus, s)?;
    let to = get(regs, r);
    set(regs, Reg::Pc, to);
    set(regs, Reg::Sp, wrap_add(s, 2));
    set(regs, r, x);
    Ok(())
}

/// Tells why an instruction is not carried out.
#[inline(always)]
pub fn stop_by(stop: &mut Stop, failure: Failure) -> Done
    ensures stopped { result ≡ Done.Stopped }
    ensures fault { stop.new ≡ Stop.Fault failure.kind failure.at }
{
    *stop = Stop::Fault(failure.kind, failure.at);
    Done::Stopped
}

/// Asks for the service of that number, for an instruction at a place.
#[inline(always)]
pub fn ask<B: Bus>(bus: &B, regs: &Regs, at: u16, n: u8, stop: &mut Stop) -> Done
    ensures { trap at (B.world bus.now) regs.now n ≡ told result stop.new regs.now (B.world bus.now) }
{
    if 1 <= n && n <= 11 {
        *stop = Stop::Trap(n);
        Done::Stopped
    } else {
        stop_by(stop, failed(Kind::Reserved, at))
    }
}

/// A source's value and a destination, of words or bytes.
#[tactic(auto, using(crate::proofs::Undoing::found_given_back))]
#[inline(always)]
fn two_at<O: OnTwo, Z: Width, B: Bus>(
    bus: &mut B,
    regs: &mut Regs,
    x: u16,
    d: u16,
) -> Result<(), Failure>
    requires { x < limit Z.SIZE }
    ensures value { and_then (address (B.world bus.old) Z.SIZE regs.old (operand_of d)) (λ p. double (B.world bus.old) p.1 O.OP Z.SIZE x p.0) ≡ left result regs.new (B.world bus.new) }
    ensures err { OnErr result (B.world bus.new ≡ B.world bus.old) }
    ensures kept { OnErr result (AllButCounter regs.old regs.new) }
    ensures made { B.accesses bus.new ≡ at_place (B.world bus.old) Z.SIZE regs.old (operand_of d) (λ h. double_made (B.world bus.old) h O.OP Z.SIZE) (B.accesses bus.old) }
{
    let kept = get_at(regs, d);
    let place = find(bus, Z::SIZE, regs, d)?;
    or_undo!(two::<O, Z, B>(bus, regs, x, place), regs, d, kept)
}

/// A value moved to where a register points once it is stepped down, as the stack grows. The register is given its word last, so that nothing is to be given back.
#[inline(always)]
fn push<Z: Width, B: Bus>(bus: &mut B, regs: &mut Regs, x: u16, d: u16) -> Result<(), Failure>
    requires small { x < limit Z.SIZE }
    requires down { d / 8 ≡ 4 }
    ensures value { and_then (address (B.world bus.old) Z.SIZE regs.old (operand_of d)) (λ p. double (B.world bus.old) p.1 DoubleOp.Mov Z.SIZE x p.0) ≡ left result regs.new (B.world bus.new) }
    ensures err { OnErr result (B.world bus.new ≡ B.world bus.old) }
    ensures kept { OnErr result (regs.new ≡ regs.old) }
    ensures made { B.accesses bus.new ≡ at_place (B.world bus.old) Z.SIZE regs.old (operand_of d) (λ h. double_made (B.world bus.old) h DoubleOp.Mov Z.SIZE) (B.accesses bus.old) }
{
    let a = stepped_down(regs, Z::SIZE, d);
    move_to(bus, regs, Z::SIZE, x, Spot::Memory(a))?;
    set_but_carry(regs, Z::SIZE, x);
    set_at(regs, d, a);
    Ok(())
}

/// The same, with a way of its own for what is pushed.
#[tactic(auto, using(crate::proofs::Undoing::counter_itself))]
#[inline(always)]
fn two_to<O: OnTwo, Z: Width, E: Ends, B: Bus>(
    bus: &mut B,
    regs: &mut Regs,
    x: u16,
    d: u16,
) -> Result<(), Failure>
    requires small { x < limit Z.SIZE }
    requires target { E.TARGET ≡ true → d / 8 ≡ 0 }
    ensures value { and_then (address (B.world bus.old) Z.SIZE regs.old (operand_of d)) (λ p. double (B.world bus.old) p.1 O.OP Z.SIZE x p.0) ≡ left result regs.new (B.world bus.new) }
    ensures err { OnErr result (B.world bus.new ≡ B.world bus.old) }
    ensures kept { OnErr result (AllButCounter regs.old regs.new) }
    ensures made { B.accesses bus.new ≡ at_place (B.world bus.old) Z.SIZE regs.old (operand_of d) (λ h. double_made (B.world bus.old) h O.OP Z.SIZE) (B.accesses bus.old) }
{
    if E::TARGET {
        return two::<O, Z, B>(bus, regs, x, Spot::Register(d));
    }
    match O::OP {
        DoubleOp::Mov if d / 0o10 == 4 => push::<Z, B>(bus, regs, x, d),
        _ => two_at::<O, Z, B>(bus, regs, x, d),
    }
}

/// A source and a destination, of words or bytes.
#[inline(always)]
pub fn do_double<O: OnTwo, Z: Width, E: Ends, B: Bus>(
    bus: &mut B,
    regs: &mut Regs,
    s: u16,
    d: u16,
) -> Result<(), Failure>
    requires source { E.SOURCE ≡ true → s / 8 ≡ 0 }
    requires target { E.TARGET ≡ true → d / 8 ≡ 0 }
    ensures value { double_step (B.world bus.old) regs.old O.OP Z.SIZE (operand_of s) (operand_of d) ≡ left result regs.new (B.world bus.new) }
    ensures err { OnErr result (B.world bus.new ≡ B.world bus.old) }
    ensures kept { OnErr result (AllButCounter regs.old regs.new) }
    ensures made { B.accesses bus.new ≡ perform_made 0 (B.world bus.old) regs.old (Instr.Double O.OP Z.SIZE (operand_of s) (operand_of d)) (B.accesses bus.old) }
{
    if E::SOURCE {
        let x = load_at(bus, Z::SIZE, regs, Spot::Register(s))?;
        return two_to::<O, Z, E, B>(bus, regs, x, d);
    }
    let kept = get_at(regs, s);
    let x = value(bus, Z::SIZE, regs, s)?;
    or_undo!(two_to::<O, Z, E, B>(bus, regs, x, d), regs, s, kept)
}

/// A source's value and a destination, of words alone.
#[tactic(auto, using(crate::proofs::Undoing::counter_itself, crate::proofs::Undoing::found_given_back))]
#[inline(always)]
fn total_to<O: OnSum, E: Ends, B: Bus>(
    bus: &mut B,
    regs: &mut Regs,
    x: u16,
    d: u16,
) -> Result<(), Failure>
    requires target { E.TARGET ≡ true → d / 8 ≡ 0 }
    ensures value { and_then (address (B.world bus.old) Size.Word regs.old (operand_of d)) (λ p. sum (B.world bus.old) p.1 O.OP x p.0) ≡ left result regs.new (B.world bus.new) }
    ensures err { OnErr result (B.world bus.new ≡ B.world bus.old) }
    ensures kept { OnErr result (AllButCounter regs.old regs.new) }
    ensures made { B.accesses bus.new ≡ at_place (B.world bus.old) Size.Word regs.old (operand_of d) (λ h. update_made (B.world bus.old) Size.Word h) (B.accesses bus.old) }
{
    if E::TARGET {
        return total::<O, B>(bus, regs, x, Spot::Register(d));
    }
    let kept = get_at(regs, d);
    let place = find(bus, Size::Word, regs, d)?;
    or_undo!(total::<O, B>(bus, regs, x, place), regs, d, kept)
}

/// A source and a destination, of words alone.
#[inline(always)]
pub fn do_sum<O: OnSum, E: Ends, B: Bus>(
    bus: &mut B,
    regs: &mut Regs,
    s: u16,
    d: u16,
) -> Result<(), Failure>
    requires source { E.SOURCE ≡ true → s / 8 ≡ 0 }
    requires target { E.TARGET ≡ true → d / 8 ≡ 0 }
    ensures value { sum_step (B.world bus.old) regs.old O.OP (operand_of s) (operand_of d) ≡ left result regs.new (B.world bus.new) }
    ensures err { OnErr result (B.world bus.new ≡ B.world bus.old) }
    ensures kept { OnErr result (AllButCounter regs.old regs.new) }
    ensures made { B.accesses bus.new ≡ perform_made 0 (B.world bus.old) regs.old (Instr.Sum O.OP (operand_of s) (operand_of d)) (B.accesses bus.old) }
{
    if E::SOURCE {
        let x = load_at(bus, Size::Word, regs, Spot::Register(s))?;
        return total_to::<O, E, B>(bus, regs, x, d);
    }
    let kept = get_at(regs, s);
    let x = value(bus, Size::Word, regs, s)?;
    or_undo!(total_to::<O, E, B>(bus, regs, x, d), regs, s, kept)
}

/// One operand, of words or bytes.
#[tactic(auto, using(crate::proofs::Undoing::counter_itself, crate::proofs::Undoing::found_given_back))]
#[inline(always)]
pub fn do_single<O: OnOne, Z: Width, E: Ends, B: Bus>(
    bus: &mut B,
    regs: &mut Regs,
    d: u16,
) -> Result<(), Failure>
    requires { E.TARGET ≡ true → d / 8 ≡ 0 }
    ensures value { single_step (B.world bus.old) regs.old O.OP Z.SIZE (operand_of d) ≡ left result regs.new (B.world bus.new) }
    ensures err { OnErr result (B.world bus.new ≡ B.world bus.old) }
    ensures kept { OnErr result (AllButCounter regs.old regs.new) }
    ensures made { B.accesses bus.new ≡ perform_made 0 (B.world bus.old) regs.old (Instr.Single O.OP Z.SIZE (operand_of d)) (B.accesses bus.old) }
{
    if E::TARGET {
        return one(bus, regs, O::OP, Z::SIZE, Spot::Register(d));
    }
    let kept = get_at(regs, d);
    let place = find(bus, Z::SIZE, regs, d)?;
    or_undo!(one(bus, regs, O::OP, Z::SIZE, place), regs, d, kept)
}

/// One operand, of words alone.
#[tactic(auto, using(crate::proofs::Undoing::found_given_back))]
#[inline(always)]
pub fn do_word<B: Bus>(bus: &mut B, regs: &mut Regs, op: WordOp, d: u16) -> Result<(), Failure>
    ensures value { word_step (B.world bus.old) regs.old op (operand_of d) ≡ left result regs.new (B.world bus.new) }
    ensures err { OnErr result (B.world bus.new ≡ B.world bus.old) }
    ensures kept { OnErr result (AllButCounter regs.old regs.new) }
    ensures made { B.accesses bus.new ≡ perform_made 0 (B.world bus.old) regs.old (Instr.OnWord op (operand_of d)) (B.accesses bus.old) }
{
    let kept = get_at(regs, d);
    let place = find(bus, Size::Word, regs, d)?;
    or_undo!(on_word(bus, regs, op, place), regs, d, kept)
}

/// A register and an operand.
#[tactic(auto, using(crate::proofs::Undoing::found_given_back))]
#[inline(always)]
pub fn do_register<B: Bus>(
    bus: &mut B,
    regs: &mut Regs,
    at: u16,
    op: RegisterOp,
    r: Reg,
    s: u16,
) -> Result<(), Failure>
    ensures value { register_step at (B.world bus.old) regs.old op r (operand_of s) ≡ left result regs.new (B.world bus.new) }
    ensures err { OnErr result (B.world bus.new ≡ B.world bus.old) }
    ensures kept { OnErr result (AllButCounter regs.old regs.new) }
    ensures made { B.accesses bus.new ≡ perform_made at (B.world bus.old) regs.old (Instr.OnRegister op r (operand_of s)) (B.accesses bus.old) }
{
    if has_odd_pair(op, r) {
        return Err(failed(Kind::Reserved, at));
    }
    let before = get(regs, r);
    let kept = get_at(regs, s);
    let place = find(bus, Size::Word, regs, s)?;
    or_undo!(
        with_register(bus, regs, op, r, before, place),
        regs,
        s,
        kept
    )
}

/// A jump.
#[tactic(auto, using(crate::proofs::Undoing::found_given_back))]
#[inline(always)]
pub fn do_jump<B: Bus>(bus: &mut B, regs: &mut Regs, at: u16, d: u16) -> Result<(), Failure>
    ensures value { jump_step at (B.world bus.old) regs.old (operand_of d) ≡ left result regs.new (B.world bus.new) }
    ensures err { OnErr result (B.world bus.new ≡ B.world bus.old) }
    ensures kept { OnErr result (AllButCounter regs.old regs.new) }
    ensures made { B.accesses bus.new ≡ perform_made at (B.world bus.old) regs.old (Instr.Jump (operand_of d)) (B.accesses bus.old) }
{
    let kept = get_at(regs, d);
    let place = find(bus, Size::Word, regs, d)?;
    match address_of(at, place) {
        Ok(to) => {
            set(regs, Reg::Pc, to);
            Ok(())
        }
        Err(failure) => {
            set_at(regs, d, kept);
            Err(failure)
        }
    }
}

/// A call of a subroutine.
#[tactic(auto, using(crate::proofs::Undoing::found_given_back))]
#[inline(always)]
pub fn do_call<B: Bus>(bus: &mut B, regs: &mut Regs, at: u16, r: Reg, d: u16) -> Result<(), Failure>
    ensures value { call_step at (B.world bus.old) regs.old r (operand_of d) ≡ left result regs.new (B.world bus.new) }
    ensures err { OnErr result (B.world bus.new ≡ B.world bus.old) }
    ensures kept { OnErr result (AllButCounter regs.old regs.new) }
    ensures made { B.accesses bus.new ≡ perform_made at (B.world bus.old) regs.old (Instr.Call r (operand_of d)) (B.accesses bus.old) }
{
    let kept = get_at(regs, d);
    let place = find(bus, Size::Word, regs, d)?;
    or_undo!(enter_at(bus, regs, at, r, place), regs, d, kept)
}

#[inline(always)]
fn attempt<B: Bus>(bus: &mut B, regs: &mut Regs, stop: &mut Stop) -> Done
    ensures value { plan (B.world bus.old) regs.old ≡ told result stop.new regs.new (B.world bus.new) }
    ensures err { result ≡ Done.Stopped → B.world bus.new ≡ B.world bus.old }
    ensures kept { result ≡ Done.Stopped → AllButCounter regs.old regs.new }
    ensures made { B.accesses bus.new ≡ execute_made (B.world bus.old) regs.old (B.accesses bus.old) }
{
    let at = get(regs, Reg::Pc);
    match bus.fetch(at) {
        Ok(w) => {
            set(regs, Reg::Pc, wrap_add(at, 2));
            carry_out(bus, regs, at, w, stop)
        }
        Err(refused) => stop_by(stop, failure_of(refused)),
    }
}

/// Gives the program counter back after a fault. It is a function of its own, so that an instruction that went on isn't asked again how it ended.
#[inline(never)]
fn turn_back(regs: &mut Regs, stop: &Stop, at: u16) -> Done
    ensures done { result ≡ Done.Stopped }
    ensures regs { regs.new ≡ turned_back stop.now regs.old at }
{
    match *stop {
        Stop::Fault(_, _) => set(regs, Reg::Pc, at),
        Stop::Trap(_) => {}
        Stop::Went => {}
    }
    Done::Stopped
}

/// One instruction: registers, flags and memory are changed as the instruction table says, or, on a fault, not at all. It
/// takes no memory of the host. What stopped it is told in a place that is lent; where it went on, that says nothing.
#[inline(always)]
pub fn carry_on<B: Bus>(regs: &mut Regs, bus: &mut B, stop: &mut Stop) -> Done
    ensures done { execute (B.world bus.old) regs.old ≡ record { stop = stop_of result stop.new; regs = regs.new; world = B.world bus.new } }
    ensures made { B.accesses bus.new ≡ execute_made (B.world bus.old) regs.old (B.accesses bus.old) }
{
    let at = get(regs, Reg::Pc);
    match attempt(bus, regs, stop) {
        Done::Went => Done::Went,
        Done::Stopped => turn_back(regs, stop, at),
    }
}

/// The same, with its stop as the answer.
#[inline(always)]
pub fn step<B: Bus>(regs: &mut Regs, bus: &mut B) -> Stop
    ensures done { execute (B.world bus.old) regs.old ≡ record { stop = result; regs = regs.new; world = B.world bus.new } }
    ensures made { B.accesses bus.new ≡ execute_made (B.world bus.old) regs.old (B.accesses bus.old) }
{
    let mut stop = Stop::Went;
    match carry_on(regs, bus, &mut stop) {
        Done::Went => Stop::Went,
        Done::Stopped => stop,
    }
}
