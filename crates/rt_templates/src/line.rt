//! Instructions of the machine with their marks, and the words whose addresses aren't known yet.
ghost use Rattle.std.specs.Prelude.{◌≡◌};
ghost use Rattle.rt_templates.specs.Lines as lines;

use pdp_code::{DoubleOp, Instr, Operand, Pointer, Reg, SingleOp, Size};
use rt_object::Relocated;

/// What a word waits for: the address of a brick, a string or a routine of the support code, and so many bytes.
#[derive(Clone, Copy)]
pub struct Hole {
    pub of: Relocated,
    pub offset: u16,
}

/// An instruction of the machine, how many visible steps it completes, and what the first word behind its own waits for.
#[derive(Clone, Copy)]
pub struct Line {
    pub instr: Instr,
    pub mark: u8,
    pub hole: Option<Hole>,
}

/// The last value.
pub(crate) const TOP: Operand = Operand::Deferred(Reg::Sp);

/// The last value, which is taken off.
pub(crate) const TAKEN: Operand = Operand::Increment(Pointer::PSp);

/// A place behind the last value.
pub(crate) const PUT: Operand = Operand::Decrement(Reg::Sp);

/// An address that isn't known yet.
pub(crate) const UNKNOWN: Operand = Operand::Absolute(0);

pub(crate) fn mov(source: Operand, target: Operand) -> Instr
    ensures { result ≡ lines.mov source target }
{
    Instr::Double {
        op: DoubleOp::Mov,
        size: Size::Word,
        source,
        target,
    }
}

pub(crate) fn movb(source: Operand, target: Operand) -> Instr
    ensures { result ≡ lines.movb source target }
{
    Instr::Double {
        op: DoubleOp::Mov,
        size: Size::Byte,
        source,
        target,
    }
}

pub(crate) fn push(source: Operand) -> Instr
    ensures { result ≡ lines.push source }
{
    mov(source, PUT)
}

pub(crate) fn pop(target: Operand) -> Instr
    ensures { result ≡ lines.pop target }
{
    mov(TAKEN, target)
}

/// An instruction with one operand, a word.
pub(crate) fn on(op: SingleOp, operand: Operand) -> Instr
    ensures { result ≡ lines.on op operand }
{
    Instr::Single(op, Size::Word, operand)
}

/// Without a visible step.
pub(crate) fn quiet(instr: Instr) -> Line
    ensures { result ≡ lines.quiet instr }
{
    Line {
        instr,
        mark: 0,
        hole: None,
    }
}

/// With one visible step.
pub(crate) fn shown(instr: Instr) -> Line
    ensures { result ≡ lines.shown instr }
{
    Line {
        instr,
        mark: 1,
        hole: None,
    }
}

pub(crate) fn quiet_at(instr: Instr, hole: Hole) -> Line
    ensures { result ≡ lines.quiet_at instr hole }
{
    Line {
        instr,
        mark: 0,
        hole: Some(hole),
    }
}

pub(crate) fn shown_at(instr: Instr, hole: Hole) -> Line
    ensures { result ≡ lines.shown_at instr hole }
{
    Line {
        instr,
        mark: 1,
        hole: Some(hole),
    }
}
