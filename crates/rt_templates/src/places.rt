//! The templates of values and places. R0 to R3 are free; a value is a word of the stack.
ghost use Rattle.std.specs.Prelude.{◌≡◌, ◌+◌, ◌≤◌, length, OnOk};
ghost use Rattle.rt_icode.specs.Weights.{load_words, fetch_words, scale_words};
ghost use Rattle.rt_templates.specs.Lines.{after};
ghost use Rattle.rt_templates.specs.Expanded.{most};
ghost use Rattle.rt_templates.specs.Layouts.{elements as elements_of};
ghost use Rattle.rt_templates.specs.Places as places;

use crate::code::ProcCode;
use crate::layout::{elements, support};
use crate::line::{
    Hole, PUT, TAKEN, TOP, UNKNOWN, mov, movb, on, pop, push, quiet, quiet_at, shown, shown_at,
};
use crate::routine::Routine;
use pdp_code::{
    Condition, DoubleOp, Instr, Operand, Pointer, Reg, RegisterOp, SingleOp, Size, SumOp,
};
use rt_icode::{Fixed, OwnItem, Width};
use rt_words::Memory;

/// An address that isn't known yet becomes a value.
pub fn push_address(out: &mut ProcCode, hole: Hole) -> Result<(), Memory>
    requires { length out.old.words + 2 ≤ most }
    ensures { OnOk result (out.new ≡ after out.old (places.push_address hole)) }
{
    out.put(&[quiet_at(push(Operand::Immediate(0)), hole)])
}

pub fn load(out: &mut ProcCode, width: Width, hole: Hole) -> Result<(), Memory>
    requires { length out.old.words + load_words width ≤ most }
    ensures { OnOk result (out.new ≡ after out.old (places.load width hole)) }
{
    match width {
        Width::Byte => out.put(&[
            quiet(on(SingleOp::Clr, PUT)),
            shown_at(movb(UNKNOWN, TOP), hole),
        ]),
        Width::Word => out.put(&[shown_at(push(UNKNOWN), hole)]),
    }
}

pub fn save(out: &mut ProcCode, width: Width, hole: Hole) -> Result<(), Memory>
    requires { length out.old.words + 2 ≤ most }
    ensures { OnOk result (out.new ≡ after out.old (places.save width hole)) }
{
    match width {
        Width::Byte => out.put(&[shown_at(movb(TAKEN, UNKNOWN), hole)]),
        Width::Word => out.put(&[shown_at(pop(UNKNOWN), hole)]),
    }
}

/// Where an item of the task's own stands in its block.
pub fn own(item: OwnItem) -> Operand
    ensures { result ≡ places.own item }
{
    let offset = match item {
        OwnItem::Ern => 0o10,
        OwnItem::Erp => 0o12,
        OwnItem::In => 0o14,
        OwnItem::Out => 0o16,
    };
    Operand::Index(Reg::R4, offset)
}

pub fn fetch(out: &mut ProcCode, width: Width) -> Result<(), Memory>
    requires { length out.old.words + fetch_words width ≤ most }
    ensures { OnOk result (out.new ≡ after out.old (places.fetch width)) }
{
    match width {
        Width::Byte => out.put(&[
            quiet(mov(TOP, Operand::Register(Reg::R0))),
            quiet(on(SingleOp::Clr, TOP)),
            shown(movb(Operand::Deferred(Reg::R0), TOP)),
        ]),
        Width::Word => out.put(&[shown(push(Operand::IncrementDeferred(Pointer::PSp)))]),
    }
}

pub fn store(out: &mut ProcCode, width: Width) -> Result<(), Memory>
    requires { length out.old.words + 1 ≤ most }
    ensures { OnOk result (out.new ≡ after out.old (places.store width)) }
{
    let place = Operand::IncrementDeferred(Pointer::PSp);
    match width {
        Width::Byte => out.put(&[shown(movb(TAKEN, place))]),
        Width::Word => out.put(&[shown(mov(TAKEN, place))]),
    }
}

/// An address becomes the one so many bytes further.
pub fn further(out: &mut ProcCode, bytes: u16) -> Result<(), Memory>
    requires { length out.old.words + 2 ≤ most }
    ensures { OnOk result (out.new ≡ after out.old (places.further bytes)) }
{
    out.put(&[quiet(Instr::Sum {
        op: SumOp::Add,
        source: Operand::Immediate(bytes),
        target: TOP,
    })])
}

fn scale(out: &mut ProcCode, size: u16) -> Result<(), Memory>
    requires { length out.old.words + scale_words size ≤ most }
    ensures { OnOk result (out.new ≡ after out.old (places.scale size)) }
{
    match size {
        1 => Ok(()),
        2 => out.put(&[quiet(on(SingleOp::Asl, Operand::Register(Reg::R1)))]),
        _ => out.put(&[quiet(Instr::OnRegister(
            RegisterOp::Mul,
            Reg::R1,
            Operand::Immediate(size),
        ))]),
    }
}

// A subscript becomes a number of bytes in R1.
fn subscript(out: &mut ProcCode, count: Operand, size: u16) -> Result<(), Memory>
    requires { length out.old.words + (7 + scale_words size) ≤ most }
    ensures { OnOk result (out.new ≡ after out.old (places.subscript count size)) }
{
    out.put(&[
        quiet(pop(Operand::Register(Reg::R1))),
        quiet(on(SingleOp::Dec, Operand::Register(Reg::R1))),
        quiet(Instr::Double {
            op: DoubleOp::Cmp,
            size: Size::Word,
            source: Operand::Register(Reg::R1),
            target: count,
        }),
        quiet(Instr::Branch(Condition::Carry, 2)),
        quiet_at(Instr::Jump(UNKNOWN), support(Routine::SubscriptError)),
    ])?;
    scale(out, size)
}

pub fn element_at(out: &mut ProcCode, row: &Fixed, count: u16, size: u16) -> Result<(), Memory>
    requires { length out.old.words + (10 + scale_words size) ≤ most }
    ensures { OnOk result (out.new ≡ after out.old (places.element_at row.now count size)) }
{
    let add = Instr::Sum {
        op: SumOp::Add,
        source: Operand::Immediate(0),
        target: Operand::Register(Reg::R1),
    };
    subscript(out, Operand::Immediate(count), size)?;
    out.put(&[
        quiet_at(add, elements(row)),
        quiet(push(Operand::Register(Reg::R1))),
    ])
}

// The array's address lies under the subscript.
fn element_behind(out: &mut ProcCode) -> Result<(), Memory>
    requires { length out.old.words + 3 ≤ most }
    ensures { OnOk result (out.new ≡ after out.old places.element_behind) }
{
    out.put(&[
        quiet(Instr::Sum {
            op: SumOp::Add,
            source: Operand::Immediate(2),
            target: Operand::Register(Reg::R1),
        }),
        quiet(Instr::Sum {
            op: SumOp::Add,
            source: Operand::Register(Reg::R1),
            target: TOP,
        }),
    ])
}

pub fn element(out: &mut ProcCode, count: u16, size: u16) -> Result<(), Memory>
    requires { length out.old.words + (10 + scale_words size) ≤ most }
    ensures { OnOk result (out.new ≡ after out.old (places.element count size)) }
{
    subscript(out, Operand::Immediate(count), size)?;
    element_behind(out)
}

pub fn element_row(out: &mut ProcCode, size: u16) -> Result<(), Memory>
    requires { length out.old.words + (10 + scale_words size) ≤ most }
    ensures { OnOk result (out.new ≡ after out.old (places.element_row size)) }
{
    subscript(out, Operand::IndexDeferred(Reg::Sp, 0), size)?;
    element_behind(out)
}
