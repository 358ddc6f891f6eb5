//! The needs of procedures, and the stacks of tasks, as they are told.

use crate::linking::procs::tell_proc;
use crate::linking::stacks::words_of_stack;
use crate::told::tell_count;
use rt_graph::Proc;
use rt_object::Object;
use rt_system::{System, Task};
use rt_words::{Memory, Text};

/// Tells what each procedure needs, each in a line, and then of each task what its root needs and its stack has.
pub fn tell_needs(
    objects: &[Object],
    system: &Option<System>,
    roots: &[Proc],
    procs: &[Proc],
    needs: &[u32],
    out: &mut Text,
) -> Result<(), Memory> {
    if procs.is_empty() {
        out.push_all(b"nothing is reached")?;
    }
    for (number, (proc, need)) in procs.iter().zip(needs).enumerate() {
        if number > 0 {
            out.push_all(b"\n= ")?;
        }
        tell_need(objects, *proc, *need, out)?;
    }
    match system {
        Some(system) => tell_tasks(objects, system.tasks(), roots, procs, needs, out),
        None => Ok(()),
    }
}

fn tell_need(objects: &[Object], of: Proc, need: u32, out: &mut Text) -> Result<(), Memory> {
    out.push_all(b"PROC ")?;
    tell_proc(objects, of, out)?;
    tell_count(" NEED ", u64::from(need), out)
}

fn tell_tasks(
    objects: &[Object],
    tasks: &[Task],
    roots: &[Proc],
    procs: &[Proc],
    needs: &[u32],
    out: &mut Text,
) -> Result<(), Memory> {
    for (task, root) in tasks.iter().zip(roots) {
        tell_task(objects, task, need_of(*root, procs, needs), out)?;
    }
    Ok(())
}

/// The need of a procedure; 0 where it isn't reached.
fn need_of(of: Proc, procs: &[Proc], needs: &[u32]) -> u32 {
    for (proc, need) in procs.iter().zip(needs) {
        if *proc == of {
            return *need;
        }
    }
    0
}

fn tell_task(objects: &[Object], task: &Task, need: u32, out: &mut Text) -> Result<(), Memory> {
    let stack = task.stack.as_slice();
    out.push_all(b"\n= TASK ")?;
    out.push_all(task.name.as_slice())?;
    out.push_all(b" STACK ")?;
    out.push_all(stack)?;
    tell_count(" NEED ", u64::from(need), out)?;
    tell_count(" HAS ", u64::from(words_of_stack(objects, stack)), out)
}
