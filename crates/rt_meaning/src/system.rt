//! The modules of a system as the meaning reads them, and its tasks.

ghost use Rattle.std.specs.Prelude.{◌≡◌, ◌+◌, ◌-◌, ◌*◌, ◌<◌, ◌≤◌, IfOk, OnOk, OnErr, Some, None, ◌∷◌, [], ◌++◌};
ghost use Rattle.rt_work_state.specs.Items as task;
ghost use Rattle.rt_resolve.specs.World as world;
ghost use Rattle.rt_meaning.specs.Step as step;
ghost use Rattle.rt_work_state.specs.Nodes as n;
ghost use Rattle.rt_meaning.specs.States as states;

use rt_resolve::{ModuleCode, code_of, module_at};
use rt_tree::{Datum, Proc};
use rt_words::{List, Memory};
use rt_work::advance;
use rt_work_state::{Env, Item, Next, Scene, Stack, copy_scene};
use std::alloc::Global;

/// An activation of a procedure.
#[derive(Drop)]
pub struct Act {
    pub proc: Proc,
    pub scene: Scene,
    /// What ERL held at its call.
    pub kept: Datum,
}

/// How a task has ended.
#[derive(Clone, Copy)]
pub enum Ending {
    Over,
    Failed(u16),
}

/// A task: its innermost activation, the callers of that, and its own supplied data. The activations mean nothing any more once
/// it has ended.
#[derive(Drop)]
pub struct Task {
    pub ended: Option<Ending>,
    pub act: Act,
    pub callers: Stack<Act>,
    pub own: List<Datum>,
}

/// The next visible step of an activation, and what is left to be done then. The activation stays as it is.
pub fn next_of(
    alloc: Global,
    modules: &List<ModuleCode>,
    act: &Act,
) -> Result<(Scene, Next), Memory>
    ensures { IfOk result (λ x. states.made x.1 x.0 ≡ step.next_of (world.world modules.now) (states.act act.now)) }
{
    let mut scene = copy_scene(alloc, &act.scene)?;
    match module_at(modules, act.proc.module) {
        Some(module) => {
            let next = advance(alloc, &module.env, &mut scene)?;
            Ok((scene, next))
        }
        None => {
            let env = Env::nowhere(alloc);
            let next = advance(alloc, &env, &mut scene)?;
            Ok((scene, next))
        }
    }
}

// The parameters, and 0 for each further local.
fn locals_of(args: List<Datum>, size: usize) -> Result<List<Datum>, Memory>
    ensures { IfOk result (λ ls. ls ≡ step.locals_of args size) }
{
    let mut locals = args;
    while locals.len() < size {
        locals.push(Datum::Word(0))?;
    }
    Ok(locals)
}

fn service_todo(alloc: Global, trap: u16) -> Result<Stack<Item>, Memory>
    ensures { IfOk result (λ todo. n.items todo ≡ task.Serve trap ∷ task.Leave ∷ []) }
{
    let mut todo = Stack::new(alloc);
    todo.push(Item::Leave)?;
    todo.push(Item::Serve(trap))?;
    Ok(todo)
}

/// The activation of a procedure with these arguments, where ERL holds `kept`.
pub fn entered(
    alloc: Global,
    modules: &List<ModuleCode>,
    f: Proc,
    args: List<Datum>,
    kept: Datum,
) -> Result<Act, Memory>
    ensures { IfOk result (λ a. states.act a ≡ step.entered ((world.world modules.now).code f) f args kept) }
{
    match code_of(modules, f) {
        Some(code) => Ok(Act {
            proc: f,
            scene: Scene {
                todo: code.body.begin(alloc)?,
                values: Stack::new(alloc),
                locals: locals_of(args, code.size)?,
            },
            kept,
        }),
        None => Ok(Act {
            proc: f,
            scene: Scene {
                todo: service_todo(alloc, f.brick)?,
                values: Stack::of(args),
                locals: List::from_vec(Vec::new(alloc)),
            },
            kept,
        }),
    }
}

/// What is to be done from a label of a procedure on.
pub fn leapt(
    alloc: Global,
    modules: &List<ModuleCode>,
    f: Proc,
    label: u16,
) -> Result<Stack<Item>, Memory>
    ensures { IfOk result (λ todo. n.items todo ≡ step.leapt ((world.world modules.now).code f) label) }
{
    let found = match code_of(modules, f) {
        Some(code) => code.body.from_label(alloc, label)?,
        None => None,
    };
    match found {
        Some(todo) => Ok(todo),
        None => Ok(Stack::new(alloc)),
    }
}
