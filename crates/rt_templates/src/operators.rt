//! The templates of operators. The last value is the right operand.
ghost use Rattle.std.specs.Prelude.{◌≡◌, ◌+◌, ◌≤◌, length, OnOk};
ghost use Rattle.rt_icode.specs.Weights.{alter_words, merge_words};
ghost use Rattle.rt_templates.specs.Lines.{after};
ghost use Rattle.rt_templates.specs.Expanded.{most};
ghost use Rattle.rt_templates.specs.Operators as operators;

use crate::code::ProcCode;
use crate::layout::support;
use crate::line::{TAKEN, TOP, UNKNOWN, mov, on, pop, push, quiet, quiet_at};
use crate::routine::Routine;
use pdp_code::{Condition, DoubleOp, Instr, Operand, Reg, RegisterOp, SingleOp, Size, SumOp};
use rt_icode::{Alter, Division, Merge};
use rt_words::Memory;

const R0: Operand = Operand::Register(Reg::R0);

const R1: Operand = Operand::Register(Reg::R1);

pub fn altered(out: &mut ProcCode, alter: Alter) -> Result<(), Memory>
    requires { length out.old.words + alter_words alter ≤ most }
    ensures { OnOk result (out.new ≡ after out.old (operators.altered alter)) }
{
    match alter {
        Alter::Negate => out.put(&[quiet(on(SingleOp::Neg, TOP))]),
        Alter::Complement => out.put(&[quiet(on(SingleOp::Com, TOP))]),
        Alter::LowByte => out.put(&[quiet(clear_bits(0o177400, TOP))]),
        Alter::Absolute => out.put(&[
            quiet(on(SingleOp::Tst, TOP)),
            quiet(Instr::Branch(Condition::Plus, 1)),
            quiet(on(SingleOp::Neg, TOP)),
        ]),
    }
}

fn clear_bits(bits: u16, target: Operand) -> Instr
    ensures { result ≡ operators.clear_bits bits target }
{
    Instr::Double {
        op: DoubleOp::Bic,
        size: Size::Word,
        source: Operand::Immediate(bits),
        target,
    }
}

// The two last values make one, by one instruction.
fn sum(out: &mut ProcCode, op: SumOp) -> Result<(), Memory>
    requires { length out.old.words + 1 ≤ most }
    ensures { OnOk result (out.new ≡ after out.old (operators.sum op)) }
{
    out.put(&[quiet(Instr::Sum {
        op,
        source: TAKEN,
        target: TOP,
    })])
}

fn bits(op: DoubleOp) -> Instr
    ensures { result ≡ operators.bits op }
{
    Instr::Double {
        op,
        size: Size::Word,
        source: TAKEN,
        target: TOP,
    }
}

fn product(out: &mut ProcCode) -> Result<(), Memory>
    requires { length out.old.words + 3 ≤ most }
    ensures { OnOk result (out.new ≡ after out.old operators.product) }
{
    out.put(&[
        quiet(pop(R1)),
        quiet(Instr::OnRegister(RegisterOp::Mul, Reg::R1, TAKEN)),
        quiet(push(R1)),
    ])
}

fn frac_product(out: &mut ProcCode) -> Result<(), Memory>
    requires { length out.old.words + 5 ≤ most }
    ensures { OnOk result (out.new ≡ after out.old operators.frac_product) }
{
    out.put(&[
        quiet(pop(R0)),
        quiet(Instr::OnRegister(RegisterOp::Mul, Reg::R0, TAKEN)),
        quiet(on(SingleOp::Asl, R1)),
        quiet(on(SingleOp::Rol, R0)),
        quiet(push(R0)),
    ])
}

fn shift_left(out: &mut ProcCode) -> Result<(), Memory>
    requires { length out.old.words + 6 ≤ most }
    ensures { OnOk result (out.new ≡ after out.old operators.shift_left) }
{
    out.put(&[
        quiet(pop(R0)),
        quiet(clear_bits(0o177760, R0)),
        quiet(mov(TOP, R1)),
        quiet(Instr::OnRegister(RegisterOp::Ash, Reg::R1, R0)),
        quiet(mov(R1, TOP)),
    ])
}

fn shift_sign(out: &mut ProcCode) -> Result<(), Memory>
    requires { length out.old.words + 7 ≤ most }
    ensures { OnOk result (out.new ≡ after out.old operators.shift_sign) }
{
    out.put(&[
        quiet(pop(R0)),
        quiet(clear_bits(0o177760, R0)),
        quiet(on(SingleOp::Neg, R0)),
        quiet(mov(TOP, R1)),
        quiet(Instr::OnRegister(RegisterOp::Ash, Reg::R1, R0)),
        quiet(mov(R1, TOP)),
    ])
}

fn shift_right(out: &mut ProcCode) -> Result<(), Memory>
    requires { length out.old.words + 8 ≤ most }
    ensures { OnOk result (out.new ≡ after out.old operators.shift_right) }
{
    let count = Operand::Register(Reg::R2);
    out.put(&[
        quiet(pop(count)),
        quiet(clear_bits(0o177760, count)),
        quiet(on(SingleOp::Neg, count)),
        quiet(on(SingleOp::Clr, R0)),
        quiet(mov(TOP, R1)),
        quiet(Instr::OnRegister(RegisterOp::Ashc, Reg::R0, count)),
        quiet(mov(R1, TOP)),
    ])
}

pub fn merged(out: &mut ProcCode, merge: Merge) -> Result<(), Memory>
    requires { length out.old.words + merge_words merge ≤ most }
    ensures { OnOk result (out.new ≡ after out.old (operators.merged merge)) }
{
    match merge {
        Merge::Plus => sum(out, SumOp::Add),
        Merge::Minus => sum(out, SumOp::Sub),
        Merge::Lor => out.put(&[quiet(bits(DoubleOp::Bis))]),
        Merge::Land => out.put(&[quiet(on(SingleOp::Com, TOP)), quiet(bits(DoubleOp::Bic))]),
        Merge::Nev => out.put(&[
            quiet(pop(R0)),
            quiet(Instr::OnRegister(RegisterOp::Xor, Reg::R0, TOP)),
        ]),
        Merge::Times => product(out),
        Merge::FracTimes => frac_product(out),
        Merge::Sll | Merge::Sla => shift_left(out),
        Merge::Sra => shift_sign(out),
        Merge::Srl => shift_right(out),
    }
}

fn routine_of(division: Division) -> Routine
    ensures { result ≡ operators.routine_of division }
{
    match division {
        Division::Quotient => Routine::Quotient,
        Division::Remainder => Routine::Remainder,
    }
}

pub fn divide(out: &mut ProcCode, division: Division) -> Result<(), Memory>
    requires { length out.old.words + 3 ≤ most }
    ensures { OnOk result (out.new ≡ after out.old (operators.divide division)) }
{
    out.put(&[
        quiet(pop(R1)),
        quiet_at(Instr::Call(Reg::Pc, UNKNOWN), support(routine_of(division))),
    ])
}

pub fn divide_or(out: &mut ProcCode, division: Division) -> Result<(), Memory>
    requires { length out.old.words + 4 ≤ most }
    ensures { OnOk result (out.new ≡ after out.old (operators.divide_or division)) }
{
    divide(out, division)?;
    out.put(&[quiet(Instr::Branch(Condition::NoCarry, 4))])
}
