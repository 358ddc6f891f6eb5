// The texts of the instructions, as a listing has them.
ghost use Rattle.std.specs.Prelude.{◌≡◌, ◌+◌, ◌-◌, ◌*◌, ◌/◌, ◌%◌, ◌<◌, ◌≤◌, ◌^◌, [], ◌∷◌, ◌++◌, length, codes, decimal, IsOk, OnOk, OnErr};
ghost use Rattle.pdp_code.specs.Code.{first_word};
ghost use Rattle.pdp_code.specs.Text.{reg_name, pointer_name, double_name, sum_name, single_name, word_name, register_name, condition_name, size_mark, octal_digit, octal, in_brackets, operand_text, target_text, branch_text, with_one, with_two, register_text, text_of};

use crate::encoding::flags_code;
use crate::instruction::{
    Condition, DoubleOp, Instr, Operand, Pointer, Reg, RegisterOp, SingleOp, Size, SumOp, WordOp,
};
use arrayvec::ArrayString;
use itoa::Buffer;
use rt_words::{Memory, Text};

/// The text of an operand or a target.
type Part = ArrayString<11>;

/// The text of an instruction.
type Line = ArrayString<32>;

fn register(r: Reg) -> &'static str
    ensures value { result.now ≡ reg_name r }
    ensures short { length result.now ≡ 2 }
{
    match r {
        Reg::R0 => "R0",
        Reg::R1 => "R1",
        Reg::R2 => "R2",
        Reg::R3 => "R3",
        Reg::R4 => "R4",
        Reg::R5 => "R5",
        Reg::Sp => "SP",
        Reg::Pc => "PC",
    }
}

fn pointer(p: Pointer) -> &'static str
    ensures value { result.now ≡ pointer_name p }
    ensures short { length result.now ≡ 2 }
{
    match p {
        Pointer::P0 => "R0",
        Pointer::P1 => "R1",
        Pointer::P2 => "R2",
        Pointer::P3 => "R3",
        Pointer::P4 => "R4",
        Pointer::P5 => "R5",
        Pointer::PSp => "SP",
    }
}

fn double(op: DoubleOp) -> &'static str
    ensures value { result.now ≡ double_name op }
    ensures short { length result.now ≤ 4 }
{
    match op {
        DoubleOp::Mov => "MOV",
        DoubleOp::Cmp => "CMP",
        DoubleOp::Bit => "BIT",
        DoubleOp::Bic => "BIC",
        DoubleOp::Bis => "BIS",
    }
}

fn sum(op: SumOp) -> &'static str
    ensures value { result.now ≡ sum_name op }
    ensures short { length result.now ≤ 4 }
{
    match op {
        SumOp::Add => "ADD",
        SumOp::Sub => "SUB",
    }
}

fn single(op: SingleOp) -> &'static str
    ensures value { result.now ≡ single_name op }
    ensures short { length result.now ≤ 4 }
{
    match op {
        SingleOp::Clr => "CLR",
        SingleOp::Com => "COM",
        SingleOp::Inc => "INC",
        SingleOp::Dec => "DEC",
        SingleOp::Neg => "NEG",
        SingleOp::Adc => "ADC",
        SingleOp::Sbc => "SBC",
        SingleOp::Tst => "TST",
        SingleOp::Ror => "ROR",
        SingleOp::Rol => "ROL",
        SingleOp::Asr => "ASR",
        SingleOp::Asl => "ASL",
    }
}

fn on_word(op: WordOp) -> &'static str
    ensures value { result.now ≡ word_name op }
    ensures short { length result.now ≤ 4 }
{
    match op {
        WordOp::Swab => "SWAB",
        WordOp::Sxt => "SXT",
    }
}

fn on_register(op: RegisterOp) -> &'static str
    ensures value { result.now ≡ register_name op }
    ensures short { length result.now ≤ 4 }
{
    match op {
        RegisterOp::Mul => "MUL",
        RegisterOp::Div => "DIV",
        RegisterOp::Ash => "ASH",
        RegisterOp::Ashc => "ASHC",
        RegisterOp::Xor => "XOR",
    }
}

fn branch(c: Condition) -> &'static str
    ensures value { result.now ≡ condition_name c }
    ensures short { length result.now ≤ 4 }
{
    match c {
        Condition::Always => "BR",
        Condition::NotEqual => "BNE",
        Condition::Equal => "BEQ",
        Condition::AtLeast => "BGE",
        Condition::Less => "BLT",
        Condition::Greater => "BGT",
        Condition::AtMost => "BLE",
        Condition::Plus => "BPL",
        Condition::Minus => "BMI",
        Condition::Higher => "BHI",
        Condition::LowerSame => "BLOS",
        Condition::NoOverflow => "BVC",
        Condition::Overflow => "BVS",
        Condition::NoCarry => "BCC",
        Condition::Carry => "BCS",
    }
}

fn mark(size: Size) -> &'static str
    ensures value { result.now ≡ size_mark size }
    ensures short { length result.now ≤ 1 }
{
    match size {
        Size::Word => "",
        Size::Byte => "B",
    }
}

fn digit(n: u16) -> char
    ensures value { result ≡ octal_digit n }
    ensures ascii { result < 128 }
{
    (b'0' + (n % 8) as u8) as char
}

/// Appends the six octal digits of a word.
fn push_octal(text: &mut Part, n: u16)
    requires { length text.old.bytes + 6 ≤ 11 }
    ensures { text.new.bytes ≡ text.old.bytes ++ octal n }
{
    text.push(digit(n / 0o100000));
    text.push(digit(n / 0o10000));
    text.push(digit(n / 0o1000));
    text.push(digit(n / 0o100));
    text.push(digit(n / 0o10));
    text.push(digit(n));
}

/// The text before a name in brackets, and what follows it.
fn bracketed(before: &str, name: &str, after: &str) -> Part
    requires before { length before.now ≤ 2 }
    requires name { length name.now ≡ 2 }
    requires after { length after.now ≤ 1 }
    ensures { result.bytes ≡ before.now ++ in_brackets name.now ++ after.now }
{
    let mut text = Part::new();
    text.push_str(before);
    text.push_str("(");
    text.push_str(name);
    text.push_str(")");
    text.push_str(after);
    text
}

fn indexed(before: &str, n: u16, name: &str) -> Part
    requires before { length before.now ≤ 1 }
    requires name { length name.now ≡ 2 }
    ensures { result.bytes ≡ before.now ++ octal n ++ in_brackets name.now }
{
    let mut text = Part::new();
    text.push_str(before);
    push_octal(&mut text, n);
    text.push_str("(");
    text.push_str(name);
    text.push_str(")");
    text
}

fn numbered(before: &str, n: u16) -> Part
    requires { length before.now ≤ 2 }
    ensures { result.bytes ≡ before.now ++ octal n }
{
    let mut text = Part::new();
    text.push_str(before);
    push_octal(&mut text, n);
    text
}

fn named(name: &str) -> Part
    requires { length name.now ≡ 2 }
    ensures { result.bytes ≡ name.now }
{
    let mut text = Part::new();
    text.push_str(name);
    text
}

fn operand(o: Operand) -> Part
    ensures { result.bytes ≡ operand_text o }
{
    match o {
        Operand::Register(r) => named(register(r)),
        Operand::Deferred(r) => bracketed("", register(r), ""),
        Operand::Increment(p) => bracketed("", pointer(p), "+"),
        Operand::IncrementDeferred(p) => bracketed("@", pointer(p), "+"),
        Operand::Decrement(r) => bracketed("-", register(r), ""),
        Operand::DecrementDeferred(r) => bracketed("@-", register(r), ""),
        Operand::Index(r, x) => indexed("", x, register(r)),
        Operand::IndexDeferred(r, x) => indexed("@", x, register(r)),
        Operand::Immediate(x) => numbered("#", x),
        Operand::Absolute(x) => numbered("@#", x),
    }
}

fn decimal_after(before: &str, n: u16) -> Part
    requires { length before.now ≤ 2 }
    ensures { result.bytes ≡ before.now ++ decimal n }
{
    let mut digits = Buffer::new();
    let mut text = Part::new();
    text.push_str(before);
    text.push_str(digits.format(n));
    text
}

/// A place so many bytes ahead of the instruction, less so many bytes.
fn target(ahead: u16, back: u16) -> Part
    ensures { result.bytes ≡ target_text ahead back }
{
    if back <= ahead {
        decimal_after(".+", ahead - back)
    } else {
        decimal_after(".-", back - ahead)
    }
}

fn branch_target(n: u8) -> Part
    ensures { result.bytes ≡ branch_text n }
{
    let back = if n < 128 { 0 } else { 512 };
    target(2 + 2 * n as u16, back)
}

fn one(name: &str, size: Size, a: &str) -> Line
    requires name { length name.now ≤ 5 }
    requires short { length a.now ≤ 11 }
    ensures { result.bytes ≡ with_one (name.now ++ size_mark size) a.now }
{
    let mut text = Line::new();
    text.push_str(name);
    text.push_str(mark(size));
    text.push_str(" ");
    text.push_str(a);
    text
}

fn two(name: &str, size: Size, a: &str, b: &str) -> Line
    requires name { length name.now ≤ 5 }
    requires first { length a.now ≤ 11 }
    requires second { length b.now ≤ 11 }
    ensures { result.bytes ≡ with_two (name.now ++ size_mark size) a.now b.now }
{
    let mut text = Line::new();
    text.push_str(name);
    text.push_str(mark(size));
    text.push_str(" ");
    text.push_str(a);
    text.push_str(",");
    text.push_str(b);
    text
}

fn register_line(op: RegisterOp, r: Reg, s: Operand) -> Line
    ensures { result.bytes ≡ register_text op r s }
{
    let name = on_register(op);
    let text = operand(s);
    match op {
        RegisterOp::Xor => two(name, Size::Word, register(r), text.as_str()),
        _ => two(name, Size::Word, text.as_str(), register(r)),
    }
}

fn line_of(i: Instr) -> Line
    ensures { result.bytes ≡ text_of i }
{
    match i {
        Instr::Double {
            op,
            size,
            source: s,
            target: d,
        } => {
            let source = operand(s);
            two(double(op), size, source.as_str(), operand(d).as_str())
        }
        Instr::Sum {
            op,
            source: s,
            target: d,
        } => {
            let source = operand(s);
            two(sum(op), Size::Word, source.as_str(), operand(d).as_str())
        }
        Instr::Single(op, size, d) => one(single(op), size, operand(d).as_str()),
        Instr::OnWord(op, d) => one(on_word(op), Size::Word, operand(d).as_str()),
        Instr::OnRegister(op, r, s) => register_line(op, r, s),
        Instr::Branch(c, n) => one(branch(c), Size::Word, branch_target(n).as_str()),
        Instr::Loop(r, n) => two(
            "SOB",
            Size::Word,
            register(r),
            target(2, 2 * n as u16).as_str(),
        ),
        Instr::Jump(d) => one("JMP", Size::Word, operand(d).as_str()),
        Instr::Call(r, d) => two("JSR", Size::Word, register(r), operand(d).as_str()),
        Instr::Return(r) => one("RTS", Size::Word, register(r)),
        Instr::Trap(n) => one("TRAP", Size::Word, decimal_after("", n as u16).as_str()),
        Instr::Flags {
            sets: u,
            negative: n,
            zero: z,
            overflow: v,
            carry: c,
        } => {
            one(
                "FLAGS",
                Size::Word,
                numbered("", flags_code(u, n, z, v, c)).as_str(),
            )
        }
    }
}

/// Appends the text of an instruction, as a listing has it. Where memory is wanted, nothing is appended.
pub fn print_instr(i: &Instr, out: &mut Text) -> Result<(), Memory>
    ensures ok { OnOk result (out.new.items ≡ out.old.items ++ text_of i.now) }
    ensures err { OnErr result (out.new.items ≡ out.old.items) }
    ensures spare { out.old.spare ≤ out.new.spare + length (text_of i.now) }
    ensures kept { OnErr result (out.old.spare ≤ out.new.spare) }
    ensures succeeds { length (text_of i.now) ≤ out.old.spare → IsOk result }
{
    let line = line_of(*i);
    out.push_all(line.as_str().as_bytes())
}
