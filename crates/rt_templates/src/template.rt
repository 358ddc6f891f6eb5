//! The template of each instruction.
ghost use Rattle.std.specs.Prelude.{◌≡◌, ◌+◌, ◌≤◌, length, OnOk};
ghost use Rattle.rt_icode.specs.Weights.{words_of};
ghost use Rattle.rt_templates.specs.Lines.{after};
ghost use Rattle.rt_templates.specs.Expanded.{most};
ghost use Rattle.rt_templates.specs.Templates.{template};

use crate::code::ProcCode;
use crate::layout::{Layout, brick, place, text};
use crate::line::{TAKEN, TOP, mov, on, pop, push, quiet, shown};
use crate::{calls, operators, places, ways};
use pdp_code::{Operand, Pointer, Reg, SingleOp};
use rt_icode::Ins;
use rt_words::Memory;

/// Appends the template of an instruction, the one with this number in a procedure of this layout.
pub fn put_template(
    out: &mut ProcCode,
    layout: &Layout,
    number: usize,
    i: &Ins,
) -> Result<(), Memory>
    requires small { number ≤ most }
    requires room { length out.old.words + words_of i.now ≤ most }
    ensures { OnOk result (out.new ≡ after out.old (template layout.now number i.now)) }
{
    match i {
        Ins::Enter {
            locals,
            recovers,
            ..
        } => calls::enter(out, *locals, *recovers),
        Ins::Const(n) => out.put(&[quiet(push(Operand::Immediate(*n)))]),
        Ins::Text(n) => places::push_address(out, text(*n)),
        Ins::Routine(b) => places::push_address(out, brick(*b)),
        Ins::LoadLocal(i) => out.put(&[quiet(push(layout.local(*i)))]),
        Ins::SaveLocal(i) => out.put(&[quiet(pop(layout.local(*i)))]),
        Ins::ClearLocal(i) => out.put(&[quiet(on(SingleOp::Clr, layout.local(*i)))]),
        Ins::Discard => out.put(&[quiet(on(SingleOp::Tst, TAKEN))]),
        Ins::Reach(fixed) | Ins::ReachRow { row: fixed, .. } => {
            places::push_address(out, place(fixed))
        }
        Ins::Load {
            width,
            place: fixed,
        } => places::load(out, *width, place(fixed)),
        Ins::Save {
            width,
            place: fixed,
        } => places::save(out, *width, place(fixed)),
        Ins::ElementAt { row, length, size } => places::element_at(out, row, *length, *size),
        Ins::LoadOwn(item) => out.put(&[shown(push(places::own(*item)))]),
        Ins::SaveOwn(item) => out.put(&[shown(pop(places::own(*item)))]),
        Ins::Into { offset, .. } | Ins::IntoRow { offset, .. } => places::further(out, *offset),
        Ins::Element { length, size } => places::element(out, *length, *size),
        Ins::ElementRow { size } => places::element_row(out, *size),
        Ins::Fetch(width) => places::fetch(out, *width),
        Ins::Store(width) => places::store(out, *width),
        Ins::Tell(n) => out.put(&[quiet(mov(Operand::Immediate(*n), TOP))]),
        Ins::Length => out.put(&[quiet(push(Operand::IncrementDeferred(Pointer::PSp)))]),
        Ins::Alter(alter) => operators::altered(out, *alter),
        Ins::Merge(merge) => operators::merged(out, *merge),
        Ins::Divide(division) => operators::divide(out, *division),
        Ins::DivideOr(division) => operators::divide_or(out, *division),
        Ins::Report => calls::report(out),
        Ins::Test {
            relation,
            when,
            more,
        } => ways::test(out, *relation, *when, layout.way(past(number, *more))),
        Ins::Skip { more } => out.put(&[ways::jump(layout.way(past(number, *more)))]),
        Ins::Go { to } => out.put(&[ways::shown_jump(layout.way(*to as usize))]),
        Ins::Case { to } => ways::case(out, layout.way(*to as usize)),
        Ins::CountFor { local, more } => {
            ways::count_for(out, layout, *local, layout.way(past(number, *more)))
        }
        Ins::CountTo { local, more } => {
            ways::count_to(out, layout, *local, layout.way(past(number, *more)))
        }
        Ins::TurnFor { local, to } => {
            ways::turn_for(out, layout, *local, layout.way(*to as usize))
        }
        Ins::TurnTo { local, to } => {
            ways::turn_to(out, layout, *local, layout.way(*to as usize))
        }
        Ins::Invoke {
            brick,
            arguments,
            gives,
        } => calls::invoke(out, *brick, *arguments, *gives),
        Ins::InvokeBy { arguments, gives } => calls::invoke_by(out, *arguments, *gives),
        Ins::GiveUp => calls::give_up(out),
        Ins::Leave => calls::leave(out),
        Ins::Recover { to } => calls::recover(out, layout.way(*to as usize)),
        Ins::Restore => out.put(&[shown(mov(layout.former(), Operand::Deferred(Reg::R4)))]),
    }
}

// The instruction behind so many that are left out.
fn past(number: usize, more: u32) -> usize
    requires { number ≤ most }
    ensures { result ≡ number + 1 + more }
{
    number + 1 + more as usize
}
