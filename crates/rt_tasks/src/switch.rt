ghost use Rattle.std.specs.Prelude.{◌≡◌};
ghost use Rattle.rt_tasks.specs.Parts.{EndAt, task_of, with_task, at_rest};

use crate::shared::Shared;
use crate::tasks::{Finished, Parked, Running};

/// Lends what all tasks share to a task, which runs from then on. Its registers, its block and its brick stay as they are.
pub fn dispatch(task: Parked, shared: &mut Shared) -> Running<'_>
    requires { EndAt shared.old.code shared.old.bytes task.places }
    ensures regs { result.regs ≡ task.regs }
    ensures shared { result.shared.now ≡ with_task shared.old task }
    ensures same_reference { result.shared.ghost_name ≡ shared.entry.ghost_name }
{
    let Parked { regs, own, places } = task;
    shared.memory.take_in(own, places);
    Running { regs, shared }
}

/// Takes what all tasks share from a task, which keeps its registers, its block and its brick.
pub fn park(running: Running<'_>) -> Parked
    ensures task { result ≡ task_of running.entry.regs running.entry.shared.now }
    ensures shared { running.exit.1.0.now ≡ at_rest running.entry.shared.now }
{
    let Running { regs, shared } = running;
    let (own, places) = shared.memory.hand_out();
    Parked { regs, own, places }
}

/// The same of a task that has ended.
pub fn finish(running: Running<'_>) -> Finished
    ensures task { result ≡ task_of running.entry.regs running.entry.shared.now }
    ensures shared { running.exit.1.0.now ≡ at_rest running.entry.shared.now }
{
    Finished::of(park(running))
}
