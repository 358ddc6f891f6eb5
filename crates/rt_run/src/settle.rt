// The ticks that are due.
ghost use Rattle.std.specs.Prelude.{◌≡◌, ◌+◌, ◌-◌, ◌*◌, ◌^◌, ◌<◌, ◌≤◌, length};
ghost use Rattle.rt_rules.specs.Roster as roster;
ghost use Rattle.rt_run.specs.Boundaries as machine;
ghost use Rattle.rt_run.specs.Boundaries.{Settles};

use crate::supervisor::Supervisor;
use crate::timetable::Timetable;
use rt_rules::{State, clock_and_stamp_stay_low};

fn has_ended(state: State) -> bool
    ensures { result ≡ roster.has_ended state }
{
    match state {
        State::Ended | State::Failed(_) => true,
        _ => false,
    }
}

/// Whether all tasks have ended, of which there are so many.
pub fn all_ended(supervisor: &Supervisor, tasks: u8) -> bool
    requires { tasks ≡ length supervisor.now.tasks }
    ensures { result ≡ machine.all_ended supervisor.now.tasks }
{
    for n in 0..tasks {
        if !has_ended(supervisor.state(n + 1)) {
            return false;
        }
    }
    true
}

// Whether a tick is due after so many instructions.
fn is_due(supervisor: &Supervisor, tasks: u8, gap: u32, since: u64) -> bool
    requires { tasks ≡ length supervisor.now.tasks }
    ensures value { result ≡ machine.is_due gap supervisor.now since }
    ensures ranges { roster.InRanges supervisor.now }
{
    match supervisor.running() {
        Some(_) => u64::from(gap) <= since,
        None => !all_ended(supervisor, tasks),
    }
}

/// Takes the ticks that are due, at this number of visible steps. It takes no memory.
pub fn settle(supervisor: &mut Supervisor, timetable: &mut Timetable, tasks: u8, steps: u64)
    requires tasks { tasks ≡ length supervisor.old.tasks }
    requires stamp { supervisor.old.stamp + 33 * length timetable.old.gaps < 2 ^ 63 }
    requires clock { supervisor.old.clock + length timetable.old.gaps < 2 ^ 32 - 1 }
    ensures settled { Settles steps supervisor.old timetable.old supervisor.new timetable.new }
    ensures tasks { tasks ≡ length supervisor.new.tasks }
    ensures stamp { supervisor.new.stamp + 33 * length timetable.new.gaps ≤ supervisor.old.stamp + 33 * length timetable.old.gaps }
    ensures clock { supervisor.new.clock + length timetable.new.gaps ≤ supervisor.old.clock + length timetable.old.gaps }
    ensures since { timetable.new.since ≤ timetable.old.since }
{
    clock_and_stamp_stay_low();
    while let Some(gap) = timetable.gap() {
        if !is_due(supervisor, tasks, gap, timetable.since()) {
            return;
        }
        supervisor.tick();
        timetable.take(steps);
    }
}
