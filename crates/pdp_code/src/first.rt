// The instruction that a first word begins.
ghost use Rattle.std.specs.Prelude.{◌≡◌, ◌<◌, ◌^◌, ◌/◌, ◌%◌};
ghost use Rattle.pdp_code.specs.First.{reg_of, pointer_of, operand_of, size_at, double_of, sum_of, single_of, word_of, register_of, condition_of, other_first, first_of};

use crate::instruction::{
    Condition, DoubleOp, Instr, Operand, Pointer, Reg, RegisterOp, SingleOp, Size, SumOp, WordOp,
};

/// The register of three bits.
pub fn register(n: u16) -> Reg
    ensures { result ≡ reg_of n }
{
    match n {
        0 => Reg::R0,
        1 => Reg::R1,
        2 => Reg::R2,
        3 => Reg::R3,
        4 => Reg::R4,
        5 => Reg::R5,
        6 => Reg::Sp,
        _ => Reg::Pc,
    }
}

fn pointer(n: u16) -> Pointer
    ensures { result ≡ pointer_of n }
{
    match n {
        0 => Pointer::P0,
        1 => Pointer::P1,
        2 => Pointer::P2,
        3 => Pointer::P3,
        4 => Pointer::P4,
        5 => Pointer::P5,
        _ => Pointer::PSp,
    }
}

/// The operand of six bits, with 0 for the word that follows.
fn operand(n: u16) -> Operand
    ensures { result ≡ operand_of n }
{
    let number = n % 0o10;
    match n / 0o10 {
        0 => Operand::Register(register(number)),
        1 => Operand::Deferred(register(number)),
        2 => if number == 7 {
            Operand::Immediate(0)
        } else {
            Operand::Increment(pointer(number))
        },
        3 => if number == 7 {
            Operand::Absolute(0)
        } else {
            Operand::IncrementDeferred(pointer(number))
        },
        4 => Operand::Decrement(register(number)),
        5 => Operand::DecrementDeferred(register(number)),
        6 => Operand::Index(register(number), 0),
        _ => Operand::IndexDeferred(register(number), 0),
    }
}

fn double(n: u16) -> Option<DoubleOp>
    ensures { result ≡ double_of n }
{
    match n {
        1 => Some(DoubleOp::Mov),
        2 => Some(DoubleOp::Cmp),
        3 => Some(DoubleOp::Bit),
        4 => Some(DoubleOp::Bic),
        5 => Some(DoubleOp::Bis),
        _ => None,
    }
}

fn sum(n: u16) -> Option<SumOp>
    ensures { result ≡ sum_of n }
{
    match n {
        6 => Some(SumOp::Add),
        0o16 => Some(SumOp::Sub),
        _ => None,
    }
}

fn single(n: u16) -> Option<SingleOp>
    ensures { result ≡ single_of n }
{
    match n {
        0o50 => Some(SingleOp::Clr),
        0o51 => Some(SingleOp::Com),
        0o52 => Some(SingleOp::Inc),
        0o53 => Some(SingleOp::Dec),
        0o54 => Some(SingleOp::Neg),
        0o55 => Some(SingleOp::Adc),
        0o56 => Some(SingleOp::Sbc),
        0o57 => Some(SingleOp::Tst),
        0o60 => Some(SingleOp::Ror),
        0o61 => Some(SingleOp::Rol),
        0o62 => Some(SingleOp::Asr),
        0o63 => Some(SingleOp::Asl),
        _ => None,
    }
}

fn on_word(n: u16) -> Option<WordOp>
    ensures { result ≡ word_of n }
{
    match n {
        3 => Some(WordOp::Swab),
        0o67 => Some(WordOp::Sxt),
        _ => None,
    }
}

fn on_register(n: u16) -> Option<RegisterOp>
    ensures { result ≡ register_of n }
{
    match n {
        0o70 => Some(RegisterOp::Mul),
        0o71 => Some(RegisterOp::Div),
        0o72 => Some(RegisterOp::Ash),
        0o73 => Some(RegisterOp::Ashc),
        0o74 => Some(RegisterOp::Xor),
        _ => None,
    }
}

fn condition(n: u16) -> Option<Condition>
    ensures { result ≡ condition_of n }
{
    match n {
        1 => Some(Condition::Always),
        2 => Some(Condition::NotEqual),
        3 => Some(Condition::Equal),
        4 => Some(Condition::AtLeast),
        5 => Some(Condition::Less),
        6 => Some(Condition::Greater),
        7 => Some(Condition::AtMost),
        0o200 => Some(Condition::Plus),
        0o201 => Some(Condition::Minus),
        0o202 => Some(Condition::Higher),
        0o203 => Some(Condition::LowerSame),
        0o204 => Some(Condition::NoOverflow),
        0o205 => Some(Condition::Overflow),
        0o206 => Some(Condition::NoCarry),
        0o207 => Some(Condition::Carry),
        _ => None,
    }
}

fn size(n: u16) -> Size
    ensures { result ≡ size_at n }
{
    if n == 0 { Size::Word } else { Size::Byte }
}

/// The instructions with no table of their own.
fn other(w: u16) -> Option<Instr>
    ensures { result ≡ other_first w }
{
    if w / 0o1000 == 0o77 {
        return Some(Instr::Loop(register(w / 0o100 % 0o10), (w % 0o100) as u8));
    }
    if w / 0o100 == 1 {
        return Some(Instr::Jump(operand(w % 0o100)));
    }
    if w / 0o1000 == 4 {
        return Some(Instr::Call(register(w / 0o100 % 0o10), operand(w % 0o100)));
    }
    if w / 0o10 == 0o20 {
        return Some(Instr::Return(register(w % 0o10)));
    }
    if w / 0o400 == 0o211 {
        return Some(Instr::Trap((w % 0o400) as u8));
    }
    if w / 0o40 == 5 {
        return Some(Instr::Flags {
            sets: w / 0o20 % 2 == 1,
            negative: w / 0o10 % 2 == 1,
            zero: w / 4 % 2 == 1,
            overflow: w / 2 % 2 == 1,
            carry: w % 2 == 1,
        });
    }
    None
}

/// The instruction that a word begins, with 0 for each word that follows.
// As a call its answer goes through memory byte by byte, and a machine waits for it half of its time.
#[inline(always)]
pub fn first(w: u16) -> Option<Instr>
    ensures { result ≡ first_of w }
{
    if let Some(op) = double(w / 0o10000 % 0o10) {
        return Some(Instr::Double {
            op,
            size: size(w / 0o100000),
            source: operand(w / 0o100 % 0o100),
            target: operand(w % 0o100),
        });
    }
    if let Some(op) = sum(w / 0o10000) {
        return Some(Instr::Sum {
            op,
            source: operand(w / 0o100 % 0o100),
            target: operand(w % 0o100),
        });
    }
    if let Some(op) = single(w / 0o100 % 0o1000) {
        return Some(Instr::Single(op, size(w / 0o100000), operand(w % 0o100)));
    }
    if let Some(op) = on_word(w / 0o100) {
        return Some(Instr::OnWord(op, operand(w % 0o100)));
    }
    if let Some(op) = on_register(w / 0o1000) {
        return Some(Instr::OnRegister(op, register(w / 0o100 % 0o10), operand(w % 0o100)));
    }
    if let Some(taken) = condition(w / 0o400) {
        return Some(Instr::Branch(taken, (w % 0o400) as u8));
    }
    other(w)
}
