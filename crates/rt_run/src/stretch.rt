// The running task's instructions, one after another, while nothing but the task is wanted.
ghost use Rattle.std.specs.Prelude.{◌≡◌, ◌+◌, ◌-◌, ◌*◌, ◌^◌, ◌≤◌, ◌<◌, Some};
ghost use Rattle.rt_words.specs.Causes.{Rose};
ghost use Rattle.rt_rules.specs.Roster.{InRanges};
ghost use Rattle.rt_rules.specs.Rules as rules;
ghost use Rattle.rt_run.specs.Inputs.{feed};
ghost use Rattle.rt_run.specs.Carrying.{carried_of};
ghost use Rattle.rt_run.specs.Turn.{counts, is_gone, ended_by, Counted, Lasts, Stretches};

use crate::carry::{Carried, carry_out};
use crate::supervisor::Supervisor;
use pdp_core::{Done, Stop};
use rt_outside::{Sink, Source};
use rt_rules::clock_and_stamp_stay_low;
use rt_tasks::Running;

/// What a task did while it ran: how its last instruction ended, how many were carried out, and their marks, added up.
#[derive(Clone, Copy)]
pub struct Stretch {
    pub carried: Carried,
    pub count: u64,
    pub marks: u64,
}

/// Whether an instruction was carried out.
#[inline(always)]
pub fn is_done(carried: Carried) -> bool
    ensures { result ≡ counts carried }
{
    matches!(carried, Carried::Went | Carried::Served)
}

// Whether it was carried out, and asked nobody.
#[inline(always)]
fn has_gone(done: Done, carried: &Carried) -> bool
    ensures { result ≡ is_gone (carried_of done carried.now) }
{
    match done {
        Done::Went => true,
        Done::Stopped => matches!(*carried, Carried::Went),
    }
}

// The end of a stretch by an instruction that isn't followed by another one: so many came before it, with their marks, and this is its own.
#[inline(always)]
fn ended(carried: Carried, count: u64, marks: u64, mark: u64) -> Stretch
    requires count { count < 4000000000 }
    requires marks { marks ≤ 255 * count }
    requires mark { mark ≤ 255 }
    ensures { result ≡ ended_by carried count marks mark }
{
    if is_done(carried) {
        so_far(carried, count + 1, marks + mark)
    } else {
        so_far(carried, count, marks)
    }
}

// A stretch of so many instructions, with their marks.
#[inline(always)]
fn so_far(carried: Carried, count: u64, marks: u64) -> Stretch
    ensures { result ≡ record { carried = carried; count = count; marks = marks } }
{
    Stretch {
        carried,
        count,
        marks,
    }
}

/// Lets the running task carry out instructions up to one that asks the supervisor or can't be carried out, or up to so many. It
/// takes no memory, and while they go on it touches no queue and no tick. It is a function of its own, so that the loop has the host's registers to itself.
#[inline(never)]
pub fn run_on<I: Source, O: Sink>(
    running: &mut Running,
    supervisor: &mut Supervisor,
    task: u8,
    input: &mut I,
    output: &mut O,
    most: u64,
) -> Stretch
    requires runs { rules.running supervisor.old ≡ Some task }
    requires ranges { InRanges supervisor.old }
    requires stamp { supervisor.old.stamp < 2 ^ 63 }
    requires clock { supervisor.old.clock < 2 ^ 32 - 1 }
    requires some { 0 < most }
    requires few { most ≤ 4000000000 }
    ensures stretches { Stretches task most result (feed (I.left input.old) (I.ended input.old)) (O.written output.old) running.old.regs running.old.shared.now supervisor.old (feed (I.left input.new) (I.ended input.new)) (O.written output.new) running.new.regs running.new.shared.now supervisor.new }
    ensures lasts { Lasts running.old.shared.now supervisor.old result.count running.new.shared.now supervisor.new }
    ensures counted { Counted result most }
    ensures read_failed { result.carried ≡ Carried.ReadFault → Rose (I.faults input.old) (I.faults input.new) }
    ensures write_failed { result.carried ≡ Carried.WriteFault → Rose (O.faults output.old) (O.faults output.new) }
    ensures reads_later { I.faults input.old ≤ I.faults input.new }
    ensures writes_later { O.faults output.old ≤ O.faults output.new }
    ensures same_reference { running.new.shared.ghost_name ≡ running.old.shared.ghost_name }
{
    clock_and_stamp_stay_low();
    let mut stop = Stop::Went;
    let mut carried = Carried::Went;
    // How many may still be carried out, up to the limit.
    let mut left = most as u32;
    let mut marks: u64 = 0;
    'instructions: loop {
        let mark = u64::from(running.mark());
        let done = carry_out(
            running,
            supervisor,
            task,
            input,
            output,
            &mut stop,
            &mut carried,
        );
        if !has_gone(done, &carried) {
            return ended(carried, most - u64::from(left), marks, mark);
        }
        marks += mark;
        left -= 1;
        if left == 0 {
            return so_far(Carried::Went, most, marks);
        }
    }
}
