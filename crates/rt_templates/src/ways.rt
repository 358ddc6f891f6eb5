//! The templates of tests, jumps and loops.
ghost use Rattle.std.specs.Prelude.{◌≡◌, ◌+◌, ◌≤◌, length, OnOk};
ghost use Rattle.rt_templates.specs.Lines.{after};
ghost use Rattle.rt_templates.specs.Expanded.{most};
ghost use Rattle.rt_templates.specs.Ways as ways;

use crate::code::ProcCode;
use crate::layout::{Layout, support};
use crate::line::{Hole, Line, TAKEN, TOP, UNKNOWN, mov, on, pop, quiet, quiet_at, shown_at};
use crate::routine::Routine;
use pdp_code::{Condition, DoubleOp, Instr, Operand, Reg, SingleOp, Size, SumOp};
use rt_tree_nodes::Rel;
use rt_words::{Memory, wrap_add};

const R0: Operand = Operand::Register(Reg::R0);

pub fn jump(hole: Hole) -> Line
    ensures { result ≡ ways.jump hole }
{
    quiet_at(Instr::Jump(UNKNOWN), hole)
}

pub fn shown_jump(hole: Hole) -> Line
    ensures { result ≡ ways.shown_jump hole }
{
    shown_at(Instr::Jump(UNKNOWN), hole)
}

// When the right value less the left one tells that the relation holds.
fn holds(relation: Rel) -> Condition
    ensures { result ≡ ways.holds relation }
{
    match relation {
        Rel::Equal | Rel::Same => Condition::Equal,
        Rel::Unequal | Rel::Different => Condition::NotEqual,
        Rel::Less => Condition::Greater,
        Rel::LessOrEqual => Condition::AtLeast,
        Rel::Greater => Condition::Less,
        Rel::GreaterOrEqual => Condition::AtMost,
    }
}

// When it tells that the relation doesn't hold.
fn fails(relation: Rel) -> Condition
    ensures { result ≡ ways.fails relation }
{
    match relation {
        Rel::Equal | Rel::Same => Condition::NotEqual,
        Rel::Unequal | Rel::Different => Condition::Equal,
        Rel::Less => Condition::AtMost,
        Rel::LessOrEqual => Condition::Less,
        Rel::Greater => Condition::AtLeast,
        Rel::GreaterOrEqual => Condition::Greater,
    }
}

pub fn test(out: &mut ProcCode, relation: Rel, when: bool, hole: Hole) -> Result<(), Memory>
    requires { length out.old.words + 4 ≤ most }
    ensures { OnOk result (out.new ≡ after out.old (ways.test relation when hole)) }
{
    let over = if when {
        fails(relation)
    } else {
        holds(relation)
    };
    out.put(&[
        quiet(Instr::Double {
            op: DoubleOp::Cmp,
            size: Size::Word,
            source: TAKEN,
            target: TAKEN,
        }),
        quiet(Instr::Branch(over, 2)),
        jump(hole),
    ])
}

pub fn case(out: &mut ProcCode, hole: Hole) -> Result<(), Memory>
    requires { length out.old.words + 5 ≤ most }
    ensures { OnOk result (out.new ≡ after out.old (ways.case hole)) }
{
    out.put(&[
        quiet(on(SingleOp::Dec, TOP)),
        quiet(Instr::Branch(Condition::NotEqual, 3)),
        quiet(on(SingleOp::Tst, TAKEN)),
        shown_jump(hole),
    ])
}

// The step of a FOR.
fn step(layout: &Layout, local: u16) -> Operand
    ensures { result ≡ ways.step layout.now local }
{
    layout.local(wrap_add(local, 1))
}

// The turns of a loop that are left.
fn turns(layout: &Layout, local: u16) -> Operand
    ensures { result ≡ ways.turns layout.now local }
{
    layout.local(wrap_add(local, 2))
}

pub fn count_for(out: &mut ProcCode, layout: &Layout, local: u16, hole: Hole) -> Result<(), Memory>
    requires { length out.old.words + 12 ≤ most }
    ensures { OnOk result (out.new ≡ after out.old (ways.count_for layout.now local hole)) }
{
    count_turns(out, layout, local)?;
    start_turns(out, layout, local, hole)
}

// How many turns there are.
fn count_turns(out: &mut ProcCode, layout: &Layout, local: u16) -> Result<(), Memory>
    requires { length out.old.words + 7 ≤ most }
    ensures { OnOk result (out.new ≡ after out.old (ways.count_turns layout.now local)) }
{
    out.put(&[
        quiet(pop(Operand::Register(Reg::R1))),
        quiet(mov(layout.local(local), Operand::Register(Reg::R2))),
        quiet(mov(step(layout, local), Operand::Register(Reg::R3))),
        quiet_at(Instr::Call(Reg::Pc, UNKNOWN), support(Routine::Turns)),
    ])
}

// To the first turn, if there is one.
fn start_turns(out: &mut ProcCode, layout: &Layout, local: u16, hole: Hole) -> Result<(), Memory>
    requires { length out.old.words + 5 ≤ most }
    ensures { OnOk result (out.new ≡ after out.old (ways.start_turns layout.now local hole)) }
{
    out.put(&[
        quiet(Instr::Branch(Condition::Carry, 2)),
        jump(hole),
        quiet(mov(R0, turns(layout, local))),
    ])
}

pub fn count_to(out: &mut ProcCode, layout: &Layout, local: u16, hole: Hole) -> Result<(), Memory>
    requires { length out.old.words + 7 ≤ most }
    ensures { OnOk result (out.new ≡ after out.old (ways.count_to layout.now local hole)) }
{
    out.put(&[
        quiet(pop(R0)),
        quiet(Instr::Branch(Condition::Greater, 2)),
        jump(hole),
        quiet(on(SingleOp::Dec, R0)),
        quiet(mov(R0, turns(layout, local))),
    ])
}

pub fn turn_for(out: &mut ProcCode, layout: &Layout, local: u16, hole: Hole) -> Result<(), Memory>
    requires { length out.old.words + 10 ≤ most }
    ensures { OnOk result (out.new ≡ after out.old (ways.turn_for layout.now local hole)) }
{
    let left = turns(layout, local);
    out.put(&[
        quiet(on(SingleOp::Tst, left)),
        quiet(Instr::Branch(Condition::Equal, 7)),
        quiet(on(SingleOp::Dec, left)),
        quiet(Instr::Sum {
            op: SumOp::Add,
            source: step(layout, local),
            target: layout.local(local),
        }),
        shown_jump(hole),
    ])
}

pub fn turn_to(out: &mut ProcCode, layout: &Layout, local: u16, hole: Hole) -> Result<(), Memory>
    requires { length out.old.words + 7 ≤ most }
    ensures { OnOk result (out.new ≡ after out.old (ways.turn_to layout.now local hole)) }
{
    let left = turns(layout, local);
    out.put(&[
        quiet(on(SingleOp::Tst, left)),
        quiet(Instr::Branch(Condition::Equal, 4)),
        quiet(on(SingleOp::Dec, left)),
        shown_jump(hole),
    ])
}
