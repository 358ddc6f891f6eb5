// Words from instructions.
ghost use Rattle.std.specs.Prelude.{◌≡◌, ◌+◌, ◌<◌, ◌≤◌, ◌∷◌, ◌++◌, [], length, take, drop};
ghost use Rattle.pdp_code.specs.Code.{reg_code, pointer_code, operand_code, operand_words, size_code, double_code, sum_code, single_code, word_code, register_code, condition_code, bit_code, first_word, words_of, IsCodable};

use crate::instruction::{
    Condition, DoubleOp, Instr, Operand, Pointer, RegisterOp, SingleOp, Size, SumOp, WordOp,
};

fn pointer_number(p: Pointer) -> u16
    ensures value { result ≡ pointer_code p }
    ensures below { result < 7 }
{
    match p {
        Pointer::P0 => 0,
        Pointer::P1 => 1,
        Pointer::P2 => 2,
        Pointer::P3 => 3,
        Pointer::P4 => 4,
        Pointer::P5 => 5,
        Pointer::PSp => 6,
    }
}

fn bits(o: Operand) -> u16
    ensures value { result ≡ operand_code o }
    ensures below { result < 64 }
{
    match o {
        Operand::Register(r) => r.number(),
        Operand::Deferred(r) => 0o10 + r.number(),
        Operand::Increment(p) => 0o20 + pointer_number(p),
        Operand::IncrementDeferred(p) => 0o30 + pointer_number(p),
        Operand::Decrement(r) => 0o40 + r.number(),
        Operand::DecrementDeferred(r) => 0o50 + r.number(),
        Operand::Index(r, _) => 0o60 + r.number(),
        Operand::IndexDeferred(r, _) => 0o70 + r.number(),
        Operand::Immediate(_) => 0o27,
        Operand::Absolute(_) => 0o37,
    }
}

fn double_number(op: DoubleOp) -> u16
    ensures value { result ≡ double_code op }
    ensures below { result < 8 }
{
    match op {
        DoubleOp::Mov => 1,
        DoubleOp::Cmp => 2,
        DoubleOp::Bit => 3,
        DoubleOp::Bic => 4,
        DoubleOp::Bis => 5,
    }
}

fn sum_number(op: SumOp) -> u16
    ensures value { result ≡ sum_code op }
    ensures below { result < 16 }
{
    match op {
        SumOp::Add => 6,
        SumOp::Sub => 0o16,
    }
}

fn single_number(op: SingleOp) -> u16
    ensures value { result ≡ single_code op }
    ensures below { result < 512 }
{
    match op {
        SingleOp::Clr => 0o50,
        SingleOp::Com => 0o51,
        SingleOp::Inc => 0o52,
        SingleOp::Dec => 0o53,
        SingleOp::Neg => 0o54,
        SingleOp::Adc => 0o55,
        SingleOp::Sbc => 0o56,
        SingleOp::Tst => 0o57,
        SingleOp::Ror => 0o60,
        SingleOp::Rol => 0o61,
        SingleOp::Asr => 0o62,
        SingleOp::Asl => 0o63,
    }
}

fn word_number(op: WordOp) -> u16
    ensures value { result ≡ word_code op }
    ensures below { result < 1023 }
{
    match op {
        WordOp::Swab => 3,
        WordOp::Sxt => 0o67,
    }
}

fn register_number(op: RegisterOp) -> u16
    ensures value { result ≡ register_code op }
    ensures below { result < 127 }
{
    match op {
        RegisterOp::Mul => 0o70,
        RegisterOp::Div => 0o71,
        RegisterOp::Ash => 0o72,
        RegisterOp::Ashc => 0o73,
        RegisterOp::Xor => 0o74,
    }
}

fn condition_number(op: Condition) -> u16
    ensures value { result ≡ condition_code op }
    ensures below { result < 255 }
{
    match op {
        Condition::Always => 1,
        Condition::NotEqual => 2,
        Condition::Equal => 3,
        Condition::AtLeast => 4,
        Condition::Less => 5,
        Condition::Greater => 6,
        Condition::AtMost => 7,
        Condition::Plus => 0o200,
        Condition::Minus => 0o201,
        Condition::Higher => 0o202,
        Condition::LowerSame => 0o203,
        Condition::NoOverflow => 0o204,
        Condition::Overflow => 0o205,
        Condition::NoCarry => 0o206,
        Condition::Carry => 0o207,
    }
}

fn size_number(size: Size) -> u16
    ensures value { result ≡ size_code size }
    ensures below { result < 2 }
{
    match size {
        Size::Word => 0,
        Size::Byte => 1,
    }
}

fn bit(b: bool) -> u16
    ensures value { result ≡ bit_code b }
    ensures below { result < 2 }
{
    if b { 1 } else { 0 }
}

/// The word that sets or clears flags.
pub fn flags_code(u: bool, n: bool, z: bool, v: bool, c: bool) -> u16
    ensures { result ≡ first_word (Instr.Flags u n z v c) }
{
    0o240 + (bit(u) * 0o20 + (bit(n) * 0o10 + (bit(z) * 4 + (bit(v) * 2 + bit(c)))))
}

/// The first word of an instruction.
fn first_code(i: &Instr) -> u16
    requires { IsCodable i.now }
    ensures { result ≡ first_word i.now }
{
    match *i {
        Instr::Double {
            op,
            size,
            source: s,
            target: d,
        } => (size_number(size) * 0o10 + double_number(op)) * 0o10000 + (bits(s) * 0o100 + bits(d)),
        Instr::Sum {
            op,
            source: s,
            target: d,
        } => sum_number(op) * 0o10000 + (bits(s) * 0o100 + bits(d)),
        Instr::Single(op, size, d) => (size_number(size) * 0o1000 + single_number(op)) * 0o100
            + bits(d),
        Instr::OnWord(op, d) => word_number(op) * 0o100 + bits(d),
        Instr::OnRegister(op, r, s) => register_number(op) * 0o1000
            + (r.number() * 0o100 + bits(s)),
        Instr::Branch(c, n) => condition_number(c) * 0o400 + n as u16,
        Instr::Loop(r, n) => 0o77000 + (r.number() * 0o100 + n as u16),
        Instr::Jump(d) => 0o100 + bits(d),
        Instr::Call(r, d) => 0o4000 + (r.number() * 0o100 + bits(d)),
        Instr::Return(r) => 0o200 + r.number(),
        Instr::Trap(n) => 0o104400 + n as u16,
        Instr::Flags {
            sets: u,
            negative: n,
            zero: z,
            overflow: v,
            carry: c,
        } => flags_code(u, n, z, v, c),
    }
}

/// The word that follows for an operand, or 0, and how many follow.
fn following(o: Operand) -> (u16, u8)
    ensures value { take result.1 (result.0 ∷ []) ≡ operand_words o }
    ensures long { result.1 ≡ length (operand_words o) }
    ensures few { result.1 ≤ 1 }
    ensures rest { result.1 ≡ 0 → result.0 ≡ 0 }
{
    match o {
        Operand::Index(_, x) => (x, 1),
        Operand::IndexDeferred(_, x) => (x, 1),
        Operand::Immediate(x) => (x, 1),
        Operand::Absolute(x) => (x, 1),
        _ => (0, 0),
    }
}

fn with_one(w: u16, o: Operand) -> ([u16; 3], u8)
    ensures words { take result.1 result.0 ≡ w ∷ operand_words o }
    ensures long { result.1 ≡ length (w ∷ operand_words o) }
    ensures lengths { (1 ≤ result.1) × (result.1 ≤ 3) }
    ensures rest { drop result.1 result.0 ≡ drop result.1 (0 ∷ 0 ∷ 0 ∷ []) }
{
    let (x, n) = following(o);
    ([w, x, 0], 1 + n)
}

fn with_two(w: u16, s: Operand, d: Operand) -> ([u16; 3], u8)
    ensures words { take result.1 result.0 ≡ w ∷ (operand_words s ++ operand_words d) }
    ensures long { result.1 ≡ length (w ∷ (operand_words s ++ operand_words d)) }
    ensures lengths { (1 ≤ result.1) × (result.1 ≤ 3) }
    ensures rest { drop result.1 result.0 ≡ drop result.1 (0 ∷ 0 ∷ 0 ∷ []) }
{
    let (x, n) = following(s);
    let (y, k) = following(d);
    if n == 0 {
        ([w, y, 0], 1 + k)
    } else {
        ([w, x, y], 2 + k)
    }
}

/// The words of an instruction, and how many of the three they are, 1 to 3; those past them are 0. A SOB's distance must be
/// below 64, the range of its field; the types keep all other fields in theirs.
pub fn encode(i: &Instr) -> ([u16; 3], u8)
    requires { IsCodable i.now }
    ensures words { take result.1 result.0 ≡ words_of i.now }
    ensures long { result.1 ≡ length (words_of i.now) }
    ensures lengths { (1 ≤ result.1) × (result.1 ≤ 3) }
    ensures rest { drop result.1 result.0 ≡ drop result.1 (0 ∷ 0 ∷ 0 ∷ []) }
{
    let w = first_code(i);
    match *i {
        Instr::Double {
            source: s,
            target: d,
            ..
        } => with_two(w, s, d),
        Instr::Sum {
            source: s,
            target: d,
            ..
        } => with_two(w, s, d),
        Instr::Single(_, _, d) => with_one(w, d),
        Instr::OnWord(_, d) => with_one(w, d),
        Instr::OnRegister(_, _, s) => with_one(w, s),
        Instr::Jump(d) => with_one(w, d),
        Instr::Call(_, d) => with_one(w, d),
        _ => ([w, 0, 0], 1),
    }
}
