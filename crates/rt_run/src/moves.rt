// How the queues follow the rules: the running task leaves its queue where it no longer stands there, and each task that took
// a new stamp and is ready comes to the end of its queue, in the order of the stamps.
ghost use Rattle.std.specs.Prelude.{◌≡◌, ◌+◌, ◌≤◌, ◌<◌, MatchOption};
ghost use Rattle.rt_rules.specs.Roster.{row, IsTask, InRanges};
ghost use Rattle.rt_rules.specs.Rules.{is_ready};
ghost use Rattle.rt_run.specs.Queues.{HasQueues, Holds, NoneHolds, has_left, Leaves};

use crate::queues::Queues;
use rt_rules::{Rules, State, TaskRow};

pub fn row_of(rules: &Rules, task: u8) -> TaskRow
    requires { IsTask rules.now task }
    ensures { result ≡ row rules.now task }
{
    rules.tasks()[usize::from(task) - 1]
}

fn is_ready(state: State) -> bool
    ensures { result ≡ is_ready state }
{
    match state {
        State::Ready => true,
        _ => false,
    }
}

// Whether a task with this row took its place in a queue before this stamp, and doesn't stand there any more.
fn has_left(row: TaskRow, from: u64) -> bool
    ensures { result ≡ has_left row from }
{
    !(is_ready(row.state) && row.stamp < from)
}

// The queues follow a step in which this task ran, where the stamps from this one on are new.
pub fn follow(rules: &Rules, queues: &mut Queues, task: u8, from: u64)
    requires { Leaves task from rules.now queues.old }
    ensures { HasQueues rules.now rules.now.stamp queues.new }
{
    leave(rules, queues, task, from);
    join_from(rules, queues, from);
}

// The task that was running leaves its queue, unless it is ready still and took no new stamp.
fn leave(rules: &Rules, queues: &mut Queues, task: u8, from: u64)
    requires { Leaves task from rules.now queues.old }
    ensures queued { HasQueues rules.now from queues.new }
    ensures from { from ≤ rules.now.stamp }
{
    let row = row_of(rules, task);
    if has_left(row, from) {
        queues.pop(row.priority);
    }
}

// The ready tasks that took a stamp from this one on join their queues.
pub fn join_from(rules: &Rules, queues: &mut Queues, from: u64)
    requires queued { HasQueues rules.now from queues.old }
    requires from { from ≤ rules.now.stamp }
    ensures { HasQueues rules.now rules.now.stamp queues.new }
{
    for stamp in from..rules.next_stamp() {
        join(rules, queues, stamp);
    }
}

// The task that took this stamp joins its queue, if it is ready.
fn join(rules: &Rules, queues: &mut Queues, stamp: u64)
    requires { HasQueues rules.now stamp queues.old }
    ensures { HasQueues rules.now (stamp + 1) queues.new }
{
    match holder(rules, stamp) {
        Some(task) => {
            let row = row_of(rules, task);
            if is_ready(row.state) {
                queues.push(row.priority, task);
            }
        }
        None => {}
    }
}

// The task that has this stamp.
fn holder(rules: &Rules, stamp: u64) -> Option<u8>
    ensures holder { MatchOption result (NoneHolds rules.now stamp) (Holds rules.now stamp) }
    ensures ranges { InRanges rules.now }
{
    for at in 0..rules.tasks().len() as u8 {
        if row_of(rules, at + 1).stamp == stamp {
            return Some(at + 1);
        }
    }
    None
}
