//! The support code.
ghost use Rattle.std.specs.Prelude.{◌≡◌, ◌+◌, ◌≤◌, length, IfOk, OnOk};
ghost use Rattle.rt_templates.specs.Lines.{after};
ghost use Rattle.rt_templates.specs.Expanded.{most};
ghost use Rattle.rt_templates.specs.Supported as supported;
ghost use Rattle.rt_templates.specs.Supported.{IsSupport};

use crate::code::{ProcCode, Support};
use crate::line::{Line, TAKEN, mov, on, pop, push, quiet, shown};
use pdp_code::{
    Condition, DoubleOp, Instr, Operand, Pointer, Reg, RegisterOp, SingleOp, Size, SumOp, WordOp,
};
use rt_words::{List, Memory};
use std::alloc::Global;

const R0: Operand = Operand::Register(Reg::R0);

const R1: Operand = Operand::Register(Reg::R1);

const R2: Operand = Operand::Register(Reg::R2);

const R3: Operand = Operand::Register(Reg::R3);

const R5: Operand = Operand::Register(Reg::R5);

/// The word above the return address: an argument, or the dividend.
const ARGUMENT: Operand = Operand::Index(Reg::Sp, 2);

const RETURN: Instr = Instr::Return(Reg::Pc);

const SET_CARRY: Instr = Instr::Flags {
    sets: true,
    negative: false,
    zero: false,
    overflow: false,
    carry: true,
};

const CLEAR_CARRY: Instr = Instr::Flags {
    sets: false,
    negative: false,
    zero: false,
    overflow: false,
    carry: true,
};

/// Where the routines begin, by their numbers from 1 on.
const ENTRIES: [u16; 17] = [
    0o0, 0o4, 0o14, 0o24, 0o34, 0o44, 0o54, 0o102, 0o106, 0o126, 0o120, 0o170, 0o176, 0o220, 0o270,
    0o112, 0o164,
];

/// The support code, the same for every image.
pub fn support(alloc: Global) -> Result<Support, Memory>
    ensures { IfOk result IsSupport }
{
    let mut code = ProcCode::new(alloc)?;
    put_support(&mut code)?;
    let entries = List::from_slice(alloc, &ENTRIES)?;
    let ProcCode { words, marks, .. } = code;
    Ok(Support {
        words,
        marks,
        entries,
    })
}

fn put_support(out: &mut ProcCode) -> Result<(), Memory>
    requires { length out.old.words + 115 ≤ most }
    ensures { OnOk result (out.new ≡ after out.old supported.all_lines) }
{
    put_supplied(out)?;
    put_errors(out)?;
    put_exits(out)?;
    put_quotient(out)?;
    put_remainder(out)?;
    put_turns(out)
}

fn branch(condition: Condition, far: u8) -> Line
    ensures { result ≡ supported.branch condition far }
{
    quiet(Instr::Branch(condition, far))
}

// ---- the supplied procedures

fn put_answering(out: &mut ProcCode, trap: u8) -> Result<(), Memory>
    requires { length out.old.words + 2 ≤ most }
    ensures { OnOk result (out.new ≡ after out.old (supported.answering trap)) }
{
    out.put(&[shown(Instr::Trap(trap)), shown(RETURN)])
}

fn put_taking(out: &mut ProcCode, trap: u8) -> Result<(), Memory>
    requires { length out.old.words + 4 ≤ most }
    ensures { OnOk result (out.new ≡ after out.old (supported.taking trap)) }
{
    out.put(&[quiet(mov(ARGUMENT, R0))])?;
    put_answering(out, trap)
}

// A service that may be refused, on to what comes of it.
fn put_asking(out: &mut ProcCode, trap: u8, far: u8) -> Result<(), Memory>
    requires { length out.old.words + 4 ≤ most }
    ensures { OnOk result (out.new ≡ after out.old (supported.asking trap far)) }
{
    out.put(&[
        quiet(mov(ARGUMENT, R0)),
        shown(Instr::Trap(trap)),
        branch(Condition::Always, far),
    ])
}

fn put_asked(out: &mut ProcCode) -> Result<(), Memory>
    requires { length out.old.words + 8 ≤ most }
    ensures { OnOk result (out.new ≡ after out.old supported.asked) }
{
    out.put(&[
        quiet(on(SingleOp::Tst, R1)),
        branch(Condition::Equal, 5),
        quiet(push(R1)),
        shown(push(Operand::Index(Reg::R4, 0o12))),
        shown(Instr::Call(Reg::Pc, Operand::IncrementDeferred(Pointer::PSp))),
        quiet(on(SingleOp::Tst, TAKEN)),
        shown(RETURN),
    ])
}

fn put_supplied(out: &mut ProcCode) -> Result<(), Memory>
    requires { length out.old.words + 37 ≤ most }
    ensures { OnOk result (out.new ≡ after out.old supported.supplied) }
{
    put_console(out)?;
    put_refusable(out)?;
    put_numbers(out)
}

fn put_console(out: &mut ProcCode) -> Result<(), Memory>
    requires { length out.old.words + 10 ≤ most }
    ensures { OnOk result (out.new ≡ after out.old supported.console) }
{
    put_answering(out, 1)?;
    put_taking(out, 2)?;
    put_taking(out, 3)
}

fn put_refusable(out: &mut ProcCode) -> Result<(), Memory>
    requires { length out.old.words + 23 ≤ most }
    ensures { OnOk result (out.new ≡ after out.old supported.refusable) }
{
    put_asking(out, 4, 11)?;
    put_asking(out, 5, 7)?;
    put_facilities(out)
}

fn put_facilities(out: &mut ProcCode) -> Result<(), Memory>
    requires { length out.old.words + 15 ≤ most }
    ensures { OnOk result (out.new ≡ after out.old supported.facilities) }
{
    put_asking(out, 6, 3)?;
    out.put(&[quiet(mov(ARGUMENT, R0)), shown(Instr::Trap(7))])?;
    put_asked(out)
}

fn put_numbers(out: &mut ProcCode) -> Result<(), Memory>
    requires { length out.old.words + 4 ≤ most }
    ensures { OnOk result (out.new ≡ after out.old supported.numbered) }
{
    put_answering(out, 8)?;
    put_answering(out, 9)
}

// ---- errors

fn put_failing(out: &mut ProcCode, error: u16, far: u8) -> Result<(), Memory>
    requires { length out.old.words + 3 ≤ most }
    ensures { OnOk result (out.new ≡ after out.old (supported.failing error far)) }
{
    out.put(&[
        quiet(mov(Operand::Immediate(error), R0)),
        branch(Condition::Always, far),
    ])
}

fn put_failed(out: &mut ProcCode) -> Result<(), Memory>
    requires { length out.old.words + 13 ≤ most }
    ensures { OnOk result (out.new ≡ after out.old supported.failed) }
{
    put_to_record(out)?;
    put_to_label(out)
}

// To the frame of ERL's record, where there is one.
fn put_to_record(out: &mut ProcCode) -> Result<(), Memory>
    requires { length out.old.words + 5 ≤ most }
    ensures { OnOk result (out.new ≡ after out.old supported.to_record) }
{
    out.put(&[
        quiet(mov(Operand::Deferred(Reg::R4), R1)),
        branch(Condition::Equal, 10),
        quiet(mov(R1, Operand::Register(Reg::Sp))),
        quiet(mov(Operand::Index(Reg::R1, 4), R5)),
    ])
}

// To the record's label, and behind it the end of the task.
fn put_to_label(out: &mut ProcCode) -> Result<(), Memory>
    requires { length out.old.words + 8 ≤ most }
    ensures { OnOk result (out.new ≡ after out.old supported.to_label) }
{
    let live = Operand::Index(Reg::R4, 2);
    let ern = Operand::Index(Reg::R4, 0o10);
    out.put(&[
        quiet(mov(Operand::Index(Reg::R1, 6), live)),
        shown(mov(R0, ern)),
        quiet(Instr::Jump(Operand::IndexDeferred(Reg::R1, 2))),
        shown(Instr::Trap(10)),
    ])
}

fn put_errors(out: &mut ProcCode) -> Result<(), Memory>
    requires { length out.old.words + 21 ≤ most }
    ensures { OnOk result (out.new ≡ after out.old supported.errors) }
{
    put_failing(out, 6, 5)?;
    put_failing(out, 1, 2)?;
    out.put(&[quiet(mov(ARGUMENT, R0))])?;
    put_failed(out)
}

fn put_exits(out: &mut ProcCode) -> Result<(), Memory>
    requires { length out.old.words + 5 ≤ most }
    ensures { OnOk result (out.new ≡ after out.old supported.exits) }
{
    out.put(&[
        quiet(on(SingleOp::Dec, Operand::Index(Reg::R4, 2))),
        quiet(mov(R5, Operand::Register(Reg::Sp))),
        quiet(pop(R5)),
        shown(RETURN),
    ])
}

// ---- divisions

fn put_dividing(out: &mut ProcCode) -> Result<(), Memory>
    requires { length out.old.words + 5 ≤ most }
    ensures { OnOk result (out.new ≡ after out.old supported.dividing) }
{
    out.put(&[
        quiet(mov(R1, R2)),
        quiet(mov(ARGUMENT, R1)),
        quiet(Instr::OnWord(WordOp::Sxt, R0)),
        quiet(Instr::OnRegister(RegisterOp::Div, Reg::R0, R2)),
    ])
}

fn put_quotient(out: &mut ProcCode) -> Result<(), Memory>
    requires { length out.old.words + 9 ≤ most }
    ensures { OnOk result (out.new ≡ after out.old supported.quotient) }
{
    put_dividing(out)?;
    out.put(&[
        branch(Condition::Overflow, 16),
        quiet(mov(R0, ARGUMENT)),
        quiet(RETURN),
    ])
}

fn put_remainder(out: &mut ProcCode) -> Result<(), Memory>
    requires { length out.old.words + 20 ≤ most }
    ensures { OnOk result (out.new ≡ after out.old supported.remainder) }
{
    put_dividing(out)?;
    out.put(&[
        branch(Condition::Overflow, 3),
        quiet(mov(R1, ARGUMENT)),
        quiet(RETURN),
    ])?;
    put_bad_remainder(out)?;
    put_bad(out)
}

// Where there is no quotient.
fn put_bad_remainder(out: &mut ProcCode) -> Result<(), Memory>
    requires { length out.old.words + 4 ≤ most }
    ensures { OnOk result (out.new ≡ after out.old supported.bad_remainder) }
{
    out.put(&[
        branch(Condition::Carry, 3),
        quiet(on(SingleOp::Clr, ARGUMENT)),
        quiet(RETURN),
    ])
}

// The number of the error.
fn put_bad(out: &mut ProcCode) -> Result<(), Memory>
    requires { length out.old.words + 7 ≤ most }
    ensures { OnOk result (out.new ≡ after out.old supported.bad) }
{
    out.put(&[
        quiet(mov(Operand::Immediate(3), R0)),
        quiet(on(SingleOp::Sbc, R0)),
        quiet(mov(R0, ARGUMENT)),
        quiet(SET_CARRY),
        quiet(RETURN),
    ])
}

// ---- turns of a FOR

fn compare() -> Line
    ensures { result ≡ supported.compare }
{
    quiet(Instr::Double {
        op: DoubleOp::Cmp,
        size: Size::Word,
        source: R1,
        target: R2,
    })
}

fn subtract() -> Line
    ensures { result ≡ supported.subtract }
{
    quiet(Instr::Sum {
        op: SumOp::Sub,
        source: R2,
        target: R1,
    })
}

fn put_turns(out: &mut ProcCode) -> Result<(), Memory>
    requires { length out.old.words + 23 ≤ most }
    ensures { OnOk result (out.new ≡ after out.old supported.turns) }
{
    out.put(&[
        quiet(on(SingleOp::Clr, R0)),
        quiet(on(SingleOp::Tst, R3)),
        branch(Condition::Equal, 18),
        branch(Condition::Minus, 4),
        compare(),
        branch(Condition::Less, 15),
        subtract(),
        branch(Condition::Always, 5),
        compare(),
        branch(Condition::Greater, 11),
        subtract(),
        branch(Condition::Equal, 1),
        quiet(on(SingleOp::Dec, R0)),
        quiet(Instr::OnRegister(RegisterOp::Div, Reg::R0, R3)),
        branch(Condition::NoOverflow, 4),
        quiet(mov(R1, R0)),
        quiet(on(SingleOp::Tst, R3)),
        branch(Condition::Plus, 1),
        quiet(on(SingleOp::Neg, R0)),
        quiet(SET_CARRY),
        quiet(RETURN),
        quiet(CLEAR_CARRY),
        quiet(RETURN),
    ])
}
