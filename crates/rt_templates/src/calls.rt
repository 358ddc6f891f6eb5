//! The templates of frames, calls and returns. R5 is the frame, R4 the task's block.
ghost use Rattle.std.specs.Prelude.{◌≡◌, ◌+◌, ◌==◌, ◌≤◌, if◌then◌else◌, replicate, length, OnOk};
ghost use Rattle.rt_icode.specs.Weights.{kept_words, recovery_words};
ghost use Rattle.rt_templates.specs.Lines as lines;
ghost use Rattle.rt_templates.specs.Lines.{after};
ghost use Rattle.rt_templates.specs.Expanded.{most};
ghost use Rattle.rt_templates.specs.Calls as calls;
ghost use Rattle.pdp_code.specs.declared.instruction.SingleOp.TheVariants.{Clr};

use crate::code::ProcCode;
use crate::layout::{brick, support};
use crate::line::{
    Hole, Line, PUT, TOP, UNKNOWN, mov, on, pop, push, quiet, quiet_at, shown, shown_at,
};
use crate::routine::Routine;
use pdp_code::{Instr, Operand, Pointer, Reg, SingleOp, Size, SumOp};
use rt_words::{Memory, wrap_add, wrap_mul};

const R0: Operand = Operand::Register(Reg::R0);

const R5: Operand = Operand::Register(Reg::R5);

const STACK: Operand = Operand::Register(Reg::Sp);

/// A local becomes 0.
const CLEAR: Line = Line {
    instr: Instr::Single(SingleOp::Clr, Size::Word, PUT),
    mark: 0,
    hole: None,
};

fn clear_locals(out: &mut ProcCode, locals: u16) -> Result<(), Memory>
    requires { length out.old.words + locals ≤ most }
    ensures { OnOk result (out.new ≡ after out.old (replicate locals (lines.quiet (lines.on Clr lines.put)))) }
{
    for _ in 0..locals {
        out.put(&[CLEAR])?;
    }
    Ok(())
}

// The record for ERL.
fn recovery(out: &mut ProcCode, recovers: bool) -> Result<(), Memory>
    requires { length out.old.words + recovery_words recovers ≤ most }
    ensures { OnOk result (out.new ≡ after out.old (calls.recovery recovers)) }
{
    if !recovers {
        return Ok(());
    }
    out.put(&[
        quiet(push(Operand::Index(Reg::R4, 2))),
        quiet(push(R5)),
        quiet(on(SingleOp::Clr, PUT)),
        quiet(push(Operand::Deferred(Reg::R4))),
    ])
}

// The caller's frame is kept.
fn begin(out: &mut ProcCode) -> Result<(), Memory>
    requires { length out.old.words + 2 ≤ most }
    ensures { OnOk result (out.new ≡ after out.old calls.begin) }
{
    out.put(&[quiet(push(R5)), quiet(mov(STACK, R5))])
}

pub fn enter(out: &mut ProcCode, locals: u16, recovers: bool) -> Result<(), Memory>
    requires { length out.old.words + (locals + (2 + recovery_words recovers)) ≤ most }
    ensures { OnOk result (out.new ≡ after out.old (calls.enter locals recovers)) }
{
    begin(out)?;
    clear_locals(out, locals)?;
    recovery(out, recovers)
}

pub fn leave(out: &mut ProcCode) -> Result<(), Memory>
    requires { length out.old.words + 2 ≤ most }
    ensures { OnOk result (out.new ≡ after out.old calls.leave) }
{
    out.put(&[quiet_at(Instr::Jump(UNKNOWN), support(Routine::Exit))])
}

pub fn give_up(out: &mut ProcCode) -> Result<(), Memory>
    requires { length out.old.words + 3 ≤ most }
    ensures { OnOk result (out.new ≡ after out.old calls.give_up) }
{
    out.put(&[quiet(pop(R0))])?;
    leave(out)
}

pub fn recover(out: &mut ProcCode, hole: Hole) -> Result<(), Memory>
    requires { length out.old.words + 4 ≤ most }
    ensures { OnOk result (out.new ≡ after out.old (calls.recover hole)) }
{
    out.put(&[
        quiet_at(mov(Operand::Immediate(0), Operand::Index(Reg::Sp, 2)), hole),
        shown(mov(STACK, Operand::Deferred(Reg::R4))),
    ])
}

// Takes so many words off the stack.
fn drop_words(out: &mut ProcCode, count: u16) -> Result<(), Memory>
    requires { length out.old.words + 2 ≤ most }
    ensures { OnOk result (out.new ≡ after out.old (calls.drop_words count)) }
{
    out.put(&[quiet(Instr::Sum {
        op: SumOp::Add,
        source: Operand::Immediate(wrap_mul(2, count)),
        target: STACK,
    })])
}

fn kept(out: &mut ProcCode, gives: bool) -> Result<(), Memory>
    requires { length out.old.words + kept_words gives ≤ most }
    ensures { OnOk result (out.new ≡ after out.old (calls.kept gives)) }
{
    if gives {
        out.put(&[quiet(push(R0))])
    } else {
        Ok(())
    }
}

pub fn invoke(out: &mut ProcCode, procedure: u16, arguments: u16, gives: bool) -> Result<(), Memory>
    requires { length out.old.words + (kept_words gives + (if arguments == 0 then 2 else 4)) ≤ most }
    ensures { OnOk result (out.new ≡ after out.old (calls.invoke procedure arguments gives)) }
{
    out.put(&[shown_at(Instr::Call(Reg::Pc, UNKNOWN), brick(procedure))])?;
    if arguments > 0 {
        drop_words(out, arguments)?;
    }
    kept(out, gives)
}

pub fn invoke_by(out: &mut ProcCode, arguments: u16, gives: bool) -> Result<(), Memory>
    requires { length out.old.words + (5 + kept_words gives) ≤ most }
    ensures { OnOk result (out.new ≡ after out.old (calls.invoke_by arguments gives)) }
{
    let procedure = Operand::Index(Reg::Sp, wrap_mul(2, arguments));
    out.put(&[
        quiet(mov(procedure, R0)),
        shown(Instr::Call(Reg::Pc, Operand::Deferred(Reg::R0))),
    ])?;
    drop_words(out, wrap_add(arguments, 1))?;
    kept(out, gives)
}

pub fn report(out: &mut ProcCode) -> Result<(), Memory>
    requires { length out.old.words + 2 ≤ most }
    ensures { OnOk result (out.new ≡ after out.old calls.report) }
{
    out.put(&[
        shown(Instr::Call(Reg::Pc, Operand::IncrementDeferred(Pointer::PSp))),
        quiet(on(SingleOp::Clr, TOP)),
    ])
}
