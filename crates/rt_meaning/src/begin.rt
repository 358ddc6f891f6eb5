//! The tasks of a system at the start.

ghost use Rattle.std.specs.Prelude.{◌≡◌, IfOk};
ghost use Rattle.rt_work_state.specs.Stores as stores;
ghost use Rattle.rt_meaning.specs.Step as step;
ghost use Rattle.rt_meaning.specs.Run as run;
ghost use Rattle.rt_meaning.specs.Roots as roots;
ghost use Rattle.rt_meaning.specs.States as states;

use crate::system::{Act, Task};
use rt_tree::{Datum, Proc};
use rt_words::{List, Memory};
use rt_work_state::{Item, Scene, Stack};
use std::alloc::Global;

/// A task of a system: the module, from 1, and the brick of its root, and its priority.
#[derive(Clone, Copy)]
pub struct SourceTask {
    pub root: (u16, u16),
    pub priority: u8,
}

fn root_of(task: SourceTask) -> Proc
    ensures { result ≡ roots.root_of task }
{
    let (module, brick) = task.root;
    Proc { module, brick }
}

/// The priorities of the tasks.
pub fn priorities(alloc: Global, tasks: &[SourceTask]) -> Result<List<u8>, Memory>
    ensures { IfOk result (λ ps. ps ≡ roots.priorities tasks.now) }
{
    let mut priorities = List::new(alloc, tasks.len())?;
    for task in tasks {
        priorities.push(task.priority)?;
    }
    Ok(priorities)
}

fn supplied(trap: u16) -> Proc
    ensures { result ≡ stores.supplied trap }
{
    Proc {
        module: 0,
        brick: trap,
    }
}

fn first_own(alloc: Global) -> Result<List<Datum>, Memory>
    ensures { IfOk result (λ own. own ≡ stores.first_own) }
{
    let mut own = List::new(alloc, 5)?;
    own.push(Datum::Word(0))?;
    own.push(Datum::Word(0))?;
    own.push(Datum::Procedure(supplied(10)))?;
    own.push(Datum::Procedure(supplied(1)))?;
    own.push(Datum::Procedure(supplied(2)))?;
    Ok(own)
}

// A task that is about to call its root.
fn about_to(alloc: Global, f: Proc) -> Result<Task, Memory>
    ensures { IfOk result (λ t. states.task t ≡ step.about_to f stores.first_own) }
{
    let mut todo = Stack::new(alloc);
    todo.push(Item::Serve(11))?;
    todo.push(Item::Begin(f))?;
    Ok(Task {
        ended: None,
        act: Act {
            proc: f,
            scene: Scene {
                todo,
                values: Stack::new(alloc),
                locals: List::from_vec(Vec::new(alloc)),
            },
            kept: Datum::Word(0),
        },
        callers: Stack::new(alloc),
        own: first_own(alloc)?,
    })
}

/// The tasks, each about to call its root.
pub fn new_tasks(alloc: Global, tasks: &[SourceTask]) -> Result<List<Task>, Memory>
    ensures { IfOk result (λ all. states.tasks all ≡ run.tasks_of (roots.roots tasks.now)) }
{
    let mut all = List::new(alloc, tasks.len())?;
    for task in tasks {
        all.push(about_to(alloc, root_of(*task))?)?;
    }
    Ok(all)
}
