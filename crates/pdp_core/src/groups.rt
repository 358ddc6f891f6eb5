// Instructions, decoded and carried out in one: a function for each group of codes.
ghost use Rattle.std.specs.Prelude.{◌≡◌, ◌≢◌, ◌/◌, ◌%◌, ◌<◌, ◌≤◌, Some, None, true};
ghost use Rattle.pdp_code.specs.declared.instruction.Instr.{Instr};
ghost use Rattle.pdp_code.specs.declared.instruction.Size.{Size};
ghost use Rattle.pdp_code.specs.Code.{condition_code};
ghost use Rattle.pdp_code.specs.First.{size_at, operand_of, double_of, condition_of, other_first, first_of};
ghost use Rattle.pdp_core.specs.Accesses.{perform_made, first_made};
ghost use Rattle.pdp_core.specs.Execute.{branch as branch_of, holds, double_step, sum_step, single_step, jump_step, perform_first};
ghost use Rattle.pdp_core.specs.Told.{told};
ghost use Rattle.pdp_core.specs.Kept.{AllButCounter};
ghost use Rattle.pdp_core.specs.Groups.{from_registers, from_words, from_singles};

use crate::cpu::{Done, Kind, Regs, Stop};
use crate::ends::{Anywhere, Ends, FromRegister, Registers, ToRegister};
use crate::execute::{
    ask, count_down, do_call, do_double, do_jump, do_register, do_single, do_sum, do_word, failed,
    leave, stop_by, take_branch,
};
use crate::flags::mark;
use crate::memory::Bus;
use pdp_code::first::register;
use pdp_code::laws::first_words;
use pdp_code::operations::{
    Adc, Add, Asl, Asr, Bic, Bis, Bit, Bytes, Clr, Cmp, Com, Dec, Inc, Mov, Neg, OnOne, OnSum,
    OnTwo, Rol, Ror, Sbc, Sub, Tst, Width, Words,
};
use pdp_code::{Condition, RegisterOp, WordOp};

// How an instruction ended that asks for no service.
macro_rules! ended {
    ($how:expr, $stop:expr) => {
        match $how {
            Ok(()) => Done::Went,
            Err(failure) => stop_by($stop, failure),
        }
    };
}

/// A source and a destination, of words or bytes. Where both are registers this is a part of the loop; where not, a function of its own for
/// each operation and size, and for a register on either side.
#[inline(always)]
fn carry_two<O: OnTwo, Z: Width, B: Bus>(
    bus: &mut B,
    regs: &mut Regs,
    w: u16,
    stop: &mut Stop,
) -> Done
    ensures value { double_step (B.world bus.old) regs.old O.OP Z.SIZE (operand_of (w / 64 % 64)) (operand_of (w % 64)) ≡ told result stop.new regs.new (B.world bus.new) }
    ensures err { result ≡ Done.Stopped → B.world bus.new ≡ B.world bus.old }
    ensures kept { result ≡ Done.Stopped → AllButCounter regs.old regs.new }
    ensures made { B.accesses bus.new ≡ perform_made 0 (B.world bus.old) regs.old (Instr.Double O.OP Z.SIZE (operand_of (w / 64 % 64)) (operand_of (w % 64))) (B.accesses bus.old) }
{
    let s = w / 0o100 % 0o100;
    let d = w % 0o100;
    if s / 0o10 == 0 && d / 0o10 == 0 {
        return ended!(do_double::<O, Z, Registers, B>(bus, regs, s, d), stop);
    }
    if d / 0o10 == 0 {
        return carry_two_by::<O, Z, ToRegister, B>(bus, regs, w, stop);
    }
    if s / 0o10 == 0 {
        return carry_two_by::<O, Z, FromRegister, B>(bus, regs, w, stop);
    }
    carry_two_by::<O, Z, Anywhere, B>(bus, regs, w, stop)
}

/// The same by a call, one for each way in which an operand is a register.
#[inline(never)]
fn carry_two_by<O: OnTwo, Z: Width, E: Ends, B: Bus>(
    bus: &mut B,
    regs: &mut Regs,
    w: u16,
    stop: &mut Stop,
) -> Done
    requires source { E.SOURCE ≡ true → w / 64 % 64 / 8 ≡ 0 }
    requires target { E.TARGET ≡ true → w % 64 / 8 ≡ 0 }
    ensures value { double_step (B.world bus.old) regs.old O.OP Z.SIZE (operand_of (w / 64 % 64)) (operand_of (w % 64)) ≡ told result stop.new regs.new (B.world bus.new) }
    ensures err { result ≡ Done.Stopped → B.world bus.new ≡ B.world bus.old }
    ensures kept { result ≡ Done.Stopped → AllButCounter regs.old regs.new }
    ensures made { B.accesses bus.new ≡ perform_made 0 (B.world bus.old) regs.old (Instr.Double O.OP Z.SIZE (operand_of (w / 64 % 64)) (operand_of (w % 64))) (B.accesses bus.old) }
{
    ended!(
        do_double::<O, Z, E, B>(bus, regs, w / 0o100 % 0o100, w % 0o100),
        stop
    )
}

/// A source and a destination, of words alone.
#[inline(always)]
fn carry_sum<O: OnSum, B: Bus>(bus: &mut B, regs: &mut Regs, w: u16, stop: &mut Stop) -> Done
    ensures value { sum_step (B.world bus.old) regs.old O.OP (operand_of (w / 64 % 64)) (operand_of (w % 64)) ≡ told result stop.new regs.new (B.world bus.new) }
    ensures err { result ≡ Done.Stopped → B.world bus.new ≡ B.world bus.old }
    ensures kept { result ≡ Done.Stopped → AllButCounter regs.old regs.new }
    ensures made { B.accesses bus.new ≡ perform_made 0 (B.world bus.old) regs.old (Instr.Sum O.OP (operand_of (w / 64 % 64)) (operand_of (w % 64))) (B.accesses bus.old) }
{
    let s = w / 0o100 % 0o100;
    let d = w % 0o100;
    if s / 0o10 == 0 && d / 0o10 == 0 {
        return ended!(do_sum::<O, Registers, B>(bus, regs, s, d), stop);
    }
    if d / 0o10 == 0 {
        return carry_sum_by::<O, ToRegister, B>(bus, regs, w, stop);
    }
    if s / 0o10 == 0 {
        return carry_sum_by::<O, FromRegister, B>(bus, regs, w, stop);
    }
    carry_sum_by::<O, Anywhere, B>(bus, regs, w, stop)
}

/// The same by a call.
#[inline(never)]
fn carry_sum_by<O: OnSum, E: Ends, B: Bus>(
    bus: &mut B,
    regs: &mut Regs,
    w: u16,
    stop: &mut Stop,
) -> Done
    requires source { E.SOURCE ≡ true → w / 64 % 64 / 8 ≡ 0 }
    requires target { E.TARGET ≡ true → w % 64 / 8 ≡ 0 }
    ensures value { sum_step (B.world bus.old) regs.old O.OP (operand_of (w / 64 % 64)) (operand_of (w % 64)) ≡ told result stop.new regs.new (B.world bus.new) }
    ensures err { result ≡ Done.Stopped → B.world bus.new ≡ B.world bus.old }
    ensures kept { result ≡ Done.Stopped → AllButCounter regs.old regs.new }
    ensures made { B.accesses bus.new ≡ perform_made 0 (B.world bus.old) regs.old (Instr.Sum O.OP (operand_of (w / 64 % 64)) (operand_of (w % 64))) (B.accesses bus.old) }
{
    ended!(
        do_sum::<O, E, B>(bus, regs, w / 0o100 % 0o100, w % 0o100),
        stop
    )
}

/// One operand, of words or bytes.
#[inline(always)]
fn carry_one<O: OnOne, Z: Width, B: Bus>(
    bus: &mut B,
    regs: &mut Regs,
    w: u16,
    stop: &mut Stop,
) -> Done
    ensures value { single_step (B.world bus.old) regs.old O.OP Z.SIZE (operand_of (w % 64)) ≡ told result stop.new regs.new (B.world bus.new) }
    ensures err { result ≡ Done.Stopped → B.world bus.new ≡ B.world bus.old }
    ensures kept { result ≡ Done.Stopped → AllButCounter regs.old regs.new }
    ensures made { B.accesses bus.new ≡ perform_made 0 (B.world bus.old) regs.old (Instr.Single O.OP Z.SIZE (operand_of (w % 64))) (B.accesses bus.old) }
{
    let d = w % 0o100;
    if d / 0o10 == 0 {
        return ended!(do_single::<O, Z, Registers, B>(bus, regs, d), stop);
    }
    carry_one_in_memory::<O, Z, B>(bus, regs, w, stop)
}

/// The same, of an operand that isn't a register.
#[inline(never)]
fn carry_one_in_memory<O: OnOne, Z: Width, B: Bus>(
    bus: &mut B,
    regs: &mut Regs,
    w: u16,
    stop: &mut Stop,
) -> Done
    ensures value { single_step (B.world bus.old) regs.old O.OP Z.SIZE (operand_of (w % 64)) ≡ told result stop.new regs.new (B.world bus.new) }
    ensures err { result ≡ Done.Stopped → B.world bus.new ≡ B.world bus.old }
    ensures kept { result ≡ Done.Stopped → AllButCounter regs.old regs.new }
    ensures made { B.accesses bus.new ≡ perform_made 0 (B.world bus.old) regs.old (Instr.Single O.OP Z.SIZE (operand_of (w % 64))) (B.accesses bus.old) }
{
    ended!(do_single::<O, Z, Anywhere, B>(bus, regs, w % 0o100), stop)
}

/// The size by the four top bits.
#[inline(always)]
fn is_of_words(w: u16)
    requires { w / 4096 < 8 }
    ensures { size_at (w / 32768) ≡ Size.Word }
{}

/// The same, of bytes.
#[inline(always)]
fn is_of_bytes(w: u16)
    requires { 8 ≤ w / 4096 }
    ensures { size_at (w / 32768) ≡ Size.Byte }
{}

/// A source and a destination, of words.
#[inline(always)]
fn double_words<O: OnTwo, B: Bus>(bus: &mut B, regs: &mut Regs, w: u16, stop: &mut Stop) -> Done
    requires { w / 4096 < 8 }
    ensures value { double_step (B.world bus.old) regs.old O.OP (size_at (w / 32768)) (operand_of (w / 64 % 64)) (operand_of (w % 64)) ≡ told result stop.new regs.new (B.world bus.new) }
    ensures err { result ≡ Done.Stopped → B.world bus.new ≡ B.world bus.old }
    ensures kept { result ≡ Done.Stopped → AllButCounter regs.old regs.new }
    ensures made { B.accesses bus.new ≡ perform_made 0 (B.world bus.old) regs.old (Instr.Double O.OP (size_at (w / 32768)) (operand_of (w / 64 % 64)) (operand_of (w % 64))) (B.accesses bus.old) }
{
    is_of_words(w);
    carry_two::<O, Words, B>(bus, regs, w, stop)
}

/// A source and a destination, of bytes.
#[inline(always)]
fn double_bytes<O: OnTwo, B: Bus>(bus: &mut B, regs: &mut Regs, w: u16, stop: &mut Stop) -> Done
    requires { 8 ≤ w / 4096 }
    ensures value { double_step (B.world bus.old) regs.old O.OP (size_at (w / 32768)) (operand_of (w / 64 % 64)) (operand_of (w % 64)) ≡ told result stop.new regs.new (B.world bus.new) }
    ensures err { result ≡ Done.Stopped → B.world bus.new ≡ B.world bus.old }
    ensures kept { result ≡ Done.Stopped → AllButCounter regs.old regs.new }
    ensures made { B.accesses bus.new ≡ perform_made 0 (B.world bus.old) regs.old (Instr.Double O.OP (size_at (w / 32768)) (operand_of (w / 64 % 64)) (operand_of (w % 64))) (B.accesses bus.old) }
{
    is_of_bytes(w);
    carry_two::<O, Bytes, B>(bus, regs, w, stop)
}

/// One operand, of words.
#[inline(always)]
fn single_words<O: OnOne, B: Bus>(bus: &mut B, regs: &mut Regs, w: u16, stop: &mut Stop) -> Done
    requires { w / 64 < 512 }
    ensures value { single_step (B.world bus.old) regs.old O.OP (size_at (w / 32768)) (operand_of (w % 64)) ≡ told result stop.new regs.new (B.world bus.new) }
    ensures err { result ≡ Done.Stopped → B.world bus.new ≡ B.world bus.old }
    ensures kept { result ≡ Done.Stopped → AllButCounter regs.old regs.new }
    ensures made { B.accesses bus.new ≡ perform_made 0 (B.world bus.old) regs.old (Instr.Single O.OP (size_at (w / 32768)) (operand_of (w % 64))) (B.accesses bus.old) }
{
    is_of_words(w);
    carry_one::<O, Words, B>(bus, regs, w, stop)
}

/// One operand, of bytes.
#[inline(always)]
fn single_bytes<O: OnOne, B: Bus>(bus: &mut B, regs: &mut Regs, w: u16, stop: &mut Stop) -> Done
    requires { 512 ≤ w / 64 }
    ensures value { single_step (B.world bus.old) regs.old O.OP (size_at (w / 32768)) (operand_of (w % 64)) ≡ told result stop.new regs.new (B.world bus.new) }
    ensures err { result ≡ Done.Stopped → B.world bus.new ≡ B.world bus.old }
    ensures kept { result ≡ Done.Stopped → AllButCounter regs.old regs.new }
    ensures made { B.accesses bus.new ≡ perform_made 0 (B.world bus.old) regs.old (Instr.Single O.OP (size_at (w / 32768)) (operand_of (w % 64))) (B.accesses bus.old) }
{
    is_of_bytes(w);
    carry_one::<O, Bytes, B>(bus, regs, w, stop)
}

/// The words of a branch on a condition, by their eight top bits.
#[inline(always)]
fn branch_begins(c: Condition, w: u16)
    requires { w / 256 ≡ condition_code c }
    ensures { first_of w ≡ Some (Instr.Branch c (w % 256)) }
{
    first_words();
}

/// A branch, by the eight low bits.
#[inline(always)]
fn branch(regs: &mut Regs, c: Condition, w: u16) -> Done
    requires { w / 256 ≡ condition_code c }
    ensures done { result ≡ Done.Went }
    ensures first { first_of w ≡ Some (Instr.Branch c (w % 256)) }
    ensures regs { regs.new ≡ branch_of regs.old (holds regs.old c) (w % 256) }
{
    branch_begins(c, w);
    take_branch(regs, c, (w % 0o400) as u8);
    Done::Went
}

/// A jump.
#[inline(never)]
fn jump<B: Bus>(bus: &mut B, regs: &mut Regs, at: u16, w: u16, stop: &mut Stop) -> Done
    ensures value { jump_step at (B.world bus.old) regs.old (operand_of (w % 64)) ≡ told result stop.new regs.new (B.world bus.new) }
    ensures err { result ≡ Done.Stopped → B.world bus.new ≡ B.world bus.old }
    ensures kept { result ≡ Done.Stopped → AllButCounter regs.old regs.new }
    ensures made { B.accesses bus.new ≡ perform_made at (B.world bus.old) regs.old (Instr.Jump (operand_of (w % 64))) (B.accesses bus.old) }
{
    ended!(do_jump(bus, regs, at, w % 0o100), stop)
}

/// The instructions with no table of their own, but SOB and JMP.
#[inline(never)]
fn other<B: Bus>(bus: &mut B, regs: &mut Regs, at: u16, w: u16, stop: &mut Stop) -> Done
    requires no_loop { w / 512 ≢ 63 }
    requires no_jump { w / 64 ≢ 1 }
    ensures value { perform_first at (B.world bus.old) regs.old (other_first w) ≡ told result stop.new regs.new (B.world bus.new) }
    ensures err { result ≡ Done.Stopped → B.world bus.new ≡ B.world bus.old }
    ensures kept { result ≡ Done.Stopped → AllButCounter regs.old regs.new }
    ensures made { B.accesses bus.new ≡ first_made at (B.world bus.old) regs.old (other_first w) (B.accesses bus.old) }
{
    if w / 0o1000 == 4 {
        return ended!(
            do_call(bus, regs, at, register(w / 0o100 % 0o10), w % 0o100),
            stop
        );
    }
    if w / 0o10 == 0o20 {
        return ended!(leave(bus, regs, register(w % 0o10)), stop);
    }
    if w / 0o400 == 0o211 {
        return ask(bus, regs, at, (w % 0o400) as u8, stop);
    }
    if w / 0o40 == 5 {
        mark(
            regs,
            w / 0o20 % 2 == 1,
            w / 0o10 % 2 == 1,
            w / 4 % 2 == 1,
            w / 2 % 2 == 1,
            w % 2 == 1,
        );
        return Done::Went;
    }
    stop_by(stop, failed(Kind::Reserved, at))
}

/// A register and an operand, or a register and how far to go back, or the groups behind, where it is no branch.
#[inline(never)]
fn register_or_more<B: Bus>(bus: &mut B, regs: &mut Regs, at: u16, w: u16, stop: &mut Stop) -> Done
    requires no_branch { condition_of (w / 256) ≡ None }
    requires no_jump { w / 64 ≢ 1 }
    ensures value { perform_first at (B.world bus.old) regs.old (from_registers w) ≡ told result stop.new regs.new (B.world bus.new) }
    ensures err { result ≡ Done.Stopped → B.world bus.new ≡ B.world bus.old }
    ensures kept { result ≡ Done.Stopped → AllButCounter regs.old regs.new }
    ensures made { B.accesses bus.new ≡ first_made at (B.world bus.old) regs.old (from_registers w) (B.accesses bus.old) }
{
    let r = register(w / 0o100 % 0o10);
    let s = w % 0o100;
    match w / 0o1000 {
        0o77 => {
            count_down(regs, r, s as u8);
            Done::Went
        }
        0o70 => ended!(do_register(bus, regs, at, RegisterOp::Mul, r, s), stop),
        0o71 => ended!(do_register(bus, regs, at, RegisterOp::Div, r, s), stop),
        0o72 => ended!(do_register(bus, regs, at, RegisterOp::Ash, r, s), stop),
        0o73 => ended!(do_register(bus, regs, at, RegisterOp::Ashc, r, s), stop),
        0o74 => ended!(do_register(bus, regs, at, RegisterOp::Xor, r, s), stop),
        _ => other(bus, regs, at, w, stop),
    }
}

/// One operand, of words alone, or the groups behind, where it is no branch.
#[inline(always)]
fn word_or_more<B: Bus>(bus: &mut B, regs: &mut Regs, at: u16, w: u16, stop: &mut Stop) -> Done
    requires no_branch { condition_of (w / 256) ≡ None }
    requires no_jump { w / 64 ≢ 1 }
    ensures value { perform_first at (B.world bus.old) regs.old (from_words w) ≡ told result stop.new regs.new (B.world bus.new) }
    ensures err { result ≡ Done.Stopped → B.world bus.new ≡ B.world bus.old }
    ensures kept { result ≡ Done.Stopped → AllButCounter regs.old regs.new }
    ensures made { B.accesses bus.new ≡ first_made at (B.world bus.old) regs.old (from_words w) (B.accesses bus.old) }
{
    match w / 0o100 {
        3 => ended!(do_word(bus, regs, WordOp::Swab, w % 0o100), stop),
        0o67 => ended!(do_word(bus, regs, WordOp::Sxt, w % 0o100), stop),
        _ => register_or_more(bus, regs, at, w, stop),
    }
}

/// No other instruction is a branch.
#[inline(always)]
fn is_no_branch(w: u16)
    requires { w / 4096 % 8 ≢ 0 }
    ensures { condition_of (w / 256) ≡ None }
{}

/// Nor is it one of one operand alone.
#[inline(always)]
fn has_a_register(w: u16)
    requires { w / 4096 % 8 ≡ 7 }
    ensures { from_singles w ≡ from_registers w }
{}

/// What is no instruction of two operands.
#[inline(always)]
fn has_one_at_most(w: u16)
    requires no_double { double_of (w / 4096 % 8) ≡ None }
    requires no_sum { w / 4096 % 8 ≢ 6 }
    ensures { first_of w ≡ from_singles w }
{}

/// The instructions with no operand and with one. Branches and jumps are told by the same table as those of one operand.
#[inline(always)]
fn one_at_most<B: Bus>(bus: &mut B, regs: &mut Regs, at: u16, w: u16, stop: &mut Stop) -> Done
    requires { w / 4096 % 8 ≡ 0 }
    ensures value { perform_first at (B.world bus.old) regs.old (first_of w) ≡ told result stop.new regs.new (B.world bus.new) }
    ensures err { result ≡ Done.Stopped → B.world bus.new ≡ B.world bus.old }
    ensures kept { result ≡ Done.Stopped → AllButCounter regs.old regs.new }
    ensures made { B.accesses bus.new ≡ first_made at (B.world bus.old) regs.old (first_of w) (B.accesses bus.old) }
{
    has_one_at_most(w);
    match w / 0o100 {
        1 => {
            prove!(w / 0o1000 == 0);
            prove!(w / 0o400 == 0);
            jump(bus, regs, at, w, stop)
        }
        0o4 | 0o5 | 0o6 | 0o7 => branch(regs, Condition::Always, w),
        0o10 | 0o11 | 0o12 | 0o13 => branch(regs, Condition::NotEqual, w),
        0o14 | 0o15 | 0o16 | 0o17 => branch(regs, Condition::Equal, w),
        0o20 | 0o21 | 0o22 | 0o23 => branch(regs, Condition::AtLeast, w),
        0o24 | 0o25 | 0o26 | 0o27 => branch(regs, Condition::Less, w),
        0o30 | 0o31 | 0o32 | 0o33 => branch(regs, Condition::Greater, w),
        0o34 | 0o35 | 0o36 | 0o37 => branch(regs, Condition::AtMost, w),
        0o1000 | 0o1001 | 0o1002 | 0o1003 => branch(regs, Condition::Plus, w),
        0o1004 | 0o1005 | 0o1006 | 0o1007 => branch(regs, Condition::Minus, w),
        0o1010 | 0o1011 | 0o1012 | 0o1013 => branch(regs, Condition::Higher, w),
        0o1014 | 0o1015 | 0o1016 | 0o1017 => branch(regs, Condition::LowerSame, w),
        0o1020 | 0o1021 | 0o1022 | 0o1023 => branch(regs, Condition::NoOverflow, w),
        0o1024 | 0o1025 | 0o1026 | 0o1027 => branch(regs, Condition::Overflow, w),
        0o1030 | 0o1031 | 0o1032 | 0o1033 => branch(regs, Condition::NoCarry, w),
        0o1034 | 0o1035 | 0o1036 | 0o1037 => branch(regs, Condition::Carry, w),
        0o50 => single_words::<Clr, B>(bus, regs, w, stop),
        0o1050 => single_bytes::<Clr, B>(bus, regs, w, stop),
        0o51 => single_words::<Com, B>(bus, regs, w, stop),
        0o1051 => single_bytes::<Com, B>(bus, regs, w, stop),
        0o52 => single_words::<Inc, B>(bus, regs, w, stop),
        0o1052 => single_bytes::<Inc, B>(bus, regs, w, stop),
        0o53 => single_words::<Dec, B>(bus, regs, w, stop),
        0o1053 => single_bytes::<Dec, B>(bus, regs, w, stop),
        0o54 => single_words::<Neg, B>(bus, regs, w, stop),
        0o1054 => single_bytes::<Neg, B>(bus, regs, w, stop),
        0o55 => single_words::<Adc, B>(bus, regs, w, stop),
        0o1055 => single_bytes::<Adc, B>(bus, regs, w, stop),
        0o56 => single_words::<Sbc, B>(bus, regs, w, stop),
        0o1056 => single_bytes::<Sbc, B>(bus, regs, w, stop),
        0o57 => single_words::<Tst, B>(bus, regs, w, stop),
        0o1057 => single_bytes::<Tst, B>(bus, regs, w, stop),
        0o60 => single_words::<Ror, B>(bus, regs, w, stop),
        0o1060 => single_bytes::<Ror, B>(bus, regs, w, stop),
        0o61 => single_words::<Rol, B>(bus, regs, w, stop),
        0o1061 => single_bytes::<Rol, B>(bus, regs, w, stop),
        0o62 => single_words::<Asr, B>(bus, regs, w, stop),
        0o1062 => single_bytes::<Asr, B>(bus, regs, w, stop),
        0o63 => single_words::<Asl, B>(bus, regs, w, stop),
        0o1063 => single_bytes::<Asl, B>(bus, regs, w, stop),
        _ => word_or_more(bus, regs, at, w, stop),
    }
}

/// The instruction that a first word begins, which stood at a place; the registers are past it.
#[inline(always)]
pub fn carry_out<B: Bus>(bus: &mut B, regs: &mut Regs, at: u16, w: u16, stop: &mut Stop) -> Done
    ensures value { perform_first at (B.world bus.old) regs.old (first_of w) ≡ told result stop.new regs.new (B.world bus.new) }
    ensures err { result ≡ Done.Stopped → B.world bus.new ≡ B.world bus.old }
    ensures kept { result ≡ Done.Stopped → AllButCounter regs.old regs.new }
    ensures made { B.accesses bus.new ≡ first_made at (B.world bus.old) regs.old (first_of w) (B.accesses bus.old) }
{
    match w / 0o10000 {
        0 | 0o10 => one_at_most(bus, regs, at, w, stop),
        1 => double_words::<Mov, B>(bus, regs, w, stop),
        2 => double_words::<Cmp, B>(bus, regs, w, stop),
        3 => double_words::<Bit, B>(bus, regs, w, stop),
        4 => double_words::<Bic, B>(bus, regs, w, stop),
        5 => double_words::<Bis, B>(bus, regs, w, stop),
        6 => carry_sum::<Add, B>(bus, regs, w, stop),
        0o11 => double_bytes::<Mov, B>(bus, regs, w, stop),
        0o12 => double_bytes::<Cmp, B>(bus, regs, w, stop),
        0o13 => double_bytes::<Bit, B>(bus, regs, w, stop),
        0o14 => double_bytes::<Bic, B>(bus, regs, w, stop),
        0o15 => double_bytes::<Bis, B>(bus, regs, w, stop),
        0o16 => carry_sum::<Sub, B>(bus, regs, w, stop),
        7 | 0o17 => {
            has_one_at_most(w);
            is_no_branch(w);
            has_a_register(w);
            register_or_more(bus, regs, at, w, stop)
        }
        _ => unreachable!(),
    }
}
