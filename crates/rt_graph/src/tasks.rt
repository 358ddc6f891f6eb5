//! The roots and the stacks of tasks.

ghost use Rattle.std.specs.Prelude.{◌≡◌, ◌≤◌, ◌<◌, ◌+◌, ℕ, List, take, length, slice_get, Some, IfOk, IfErr, OnOk};
ghost use Rattle.std.specs.Option.{option_copied, option_map};
ghost use Rattle.rt_graph.specs.Scans as spec;
ghost use Rattle.rt_graph.specs.Tasks.{AreRoots, IsBadTask};

use crate::fault::GraphFault;
use rt_modes::Mode;
use rt_object::{Brick, BrickKind, Content, Object};
use rt_system::{System, Task};
use rt_tree_nodes::Proc;
use rt_words::List;
use std::alloc::Global;

/// The roots of the tasks, in their order. Refused is the first task whose root is no ENT procedure of mode PROC() or PROC() INT,
/// or whose stack is no ENT stack or that of a task before it. Of two ENT bricks of one name the first by module counts.
pub fn roots(alloc: Global, objects: &[Object], system: &System) -> Result<List<Proc>, GraphFault>
    requires { length objects.now ≤ 64 }
    ensures roots { IfOk result (AreRoots objects.now system.now.tasks) }
    ensures refused { IfErr result (IsBadTask objects.now system.now.tasks) }
{
    let tasks = system.tasks();
    let mut roots = List::new(alloc, tasks.len())?;
    for number in 0..tasks.len() {
        match good_root(objects, &tasks[..number], &tasks[number]) {
            Some(root) => roots.push(root)?,
            None => {
                return Err(GraphFault::BadTask {
                    line: tasks[number].line,
                });
            }
        }
    }
    Ok(roots)
}

/// The root of a task behind others, if it and the stack are good.
fn good_root(objects: &[Object], earlier: &[Task], task: &Task) -> Option<Proc>
    requires { length objects.now ≤ 64 }
    ensures { result ≡ spec.good_root objects.now earlier.now task.now }
{
    let stack = task.stack.as_slice();
    match stack_named(objects, stack) {
        Some(_) if !has_stack(earlier, stack) => root_named(objects, task.root.as_slice()),
        _ => None,
    }
}

fn has_stack(tasks: &[Task], name: &[u8]) -> bool
    ensures { result ≡ spec.has_stack name.now tasks.now }
{
    tasks.iter().any(|task| task.stack.as_slice() == name)
}

/// The procedure of a name that may be a root.
pub fn root_named(objects: &[Object], name: &[u8]) -> Option<Proc>
    requires { length objects.now ≤ 64 }
    ensures { result ≡ spec.root_named objects.now name.now }
{
    match entry_named(objects, name) {
        Some((root, Content::Proc(proc))) if is_root_mode(&proc.mode) => Some(root),
        _ => None,
    }
}

/// How many words the stack of a name has.
pub fn stack_named(objects: &[Object], name: &[u8]) -> Option<u16>
    requires { length objects.now ≤ 64 }
    ensures { result ≡ spec.stack_named objects.now name.now }
{
    match entry_named(objects, name) {
        Some((_, Content::Stack(words))) => Some(*words),
        _ => None,
    }
}

/// PROC() or PROC() INT.
fn is_root_mode(mode: &Mode) -> bool
    ensures { result ≡ spec.is_root_mode mode.now }
{
    match mode {
        Mode::Proc(parameters, None) => parameters.len() == 0,
        Mode::Proc(parameters, Some(given)) => parameters.len() == 0 && is_int(given.get()),
        _ => false,
    }
}

fn is_int(mode: &Mode) -> bool
    ensures { result ≡ spec.is_int mode.now }
{
    matches!(mode, Mode::Int)
}

/// The first ENT brick of a name, by module and declaration, and what it holds.
pub fn entry_named<'o>(objects: &'o [Object], name: &[u8]) -> Option<(Proc, &'o Content)>
    requires { length objects.now ≤ 64 }
    ensures { option_map (λ x. (x.0, x.1.now)) result ≡ spec.entry_named objects.now name.now }
{
    for at in 0..objects.len() {
        let bricks = objects[at].parts().bricks.as_slice();
        if let Some(entry) = entry_in(bricks, at as u16 + 1, name) {
            return Some(entry);
        }
    }
    None
}

/// The first ENT brick of a name in a module.
fn entry_in<'o>(bricks: &'o [Brick], module: u16, name: &[u8]) -> Option<(Proc, &'o Content)>
    requires { length bricks.now ≤ 65535 }
    ensures { option_map (λ x. (x.0, x.1.now)) result ≡ spec.entry_in name.now «module» 0 bricks.now }
{
    for number in 0..bricks.len() {
        if let Some(content) = ent_of(&bricks[number], name) {
            let brick = number as u16;
            return Some((Proc { module, brick }, content));
        }
    }
    None
}

fn ent_of<'o>(brick: &'o Brick, name: &[u8]) -> Option<&'o Content>
    ensures { option_copied result ≡ spec.ent_of name.now brick.now }
{
    match &brick.kind {
        BrickKind::Ent(content) if brick.name.as_slice() == name => Some(content),
        _ => None,
    }
}
