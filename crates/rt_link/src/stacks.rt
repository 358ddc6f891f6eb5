//! The stack bricks of tasks.

ghost use Rattle.std.specs.Prelude.{◌≡◌, ◌≤◌, ◌++◌, [], length, IfOk, OnOk};
ghost use Rattle.rt_graph.specs.Nodes.{with_one};
ghost use Rattle.rt_link.specs.Verdict as spec;

use rt_graph::entry_named;
use rt_object::{Content, Object};
use rt_system::Task;
use rt_tree_nodes::Proc;
use rt_words::{List, Memory};
use std::alloc::Global;

/// The stack brick of a name.
fn stack_brick(objects: &[Object], name: &[u8]) -> Option<Proc>
    requires { length objects.now ≤ 64 }
    ensures { result ≡ spec.stack_brick objects.now name.now }
{
    match entry_named(objects, name) {
        Some((brick, Content::Stack(_))) => Some(brick),
        _ => None,
    }
}

fn add(stacks: &mut List<Proc>, brick: Option<Proc>) -> Result<(), Memory>
    ensures { OnOk result (stacks.new ≡ stacks.old ++ with_one brick []) }
{
    match brick {
        Some(brick) => stacks.push(brick),
        None => Ok(()),
    }
}

/// The stack bricks of tasks, in their order.
pub fn stack_bricks(alloc: Global, objects: &[Object], tasks: &[Task]) -> Result<List<Proc>, Memory>
    requires { length objects.now ≤ 64 }
    ensures { IfOk result (λ bricks. bricks ≡ spec.stack_bricks objects.now tasks.now) }
{
    let mut stacks = List::new(alloc, tasks.len())?;
    for task in tasks {
        add(&mut stacks, stack_brick(objects, task.stack.as_slice()))?;
    }
    Ok(stacks)
}
