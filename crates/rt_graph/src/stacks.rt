//! Whether the stacks of tasks are large enough.

ghost use Rattle.std.specs.Prelude.{◌≡◌, ◌≤◌, ◌<◌, ℕ, List, length, slice_get, Some, IfOk, IfErr, OnOk};
ghost use Rattle.rt_graph.specs.Scans as spec;
ghost use Rattle.rt_graph.specs.Tasks as tasks;
ghost use Rattle.rt_match.specs.declared.bindings.Bound.{Bound};

use crate::fault::GraphFault;
use crate::reached::Order;
use crate::tasks::{root_named, stack_named};
use rt_object::Object;
use rt_system::{System, Task};
use rt_tree_nodes::Proc;
use std::alloc::Global;

/// Whether the stack of each task has at least the words that its root needs; refused is the first that hasn't, with the need
/// told and the words of the stack. The order and the needs are those for the roots of the system.
pub fn check_stacks(
    alloc: Global,
    objects: &[Object],
    system: &System,
    order: &Order,
    needs: &[u32],
) -> Result<(), GraphFault>
    requires { length objects.now ≤ 64 }
    ensures enough { OnOk result ((of : List (List Bound)) → tasks.AreFound objects.now system.now.tasks of order.now.procs needs.now → tasks.HaveEnough objects.now system.now.tasks of) }
    ensures refused { IfErr result (λ fault. (of : List (List Bound)) → tasks.AreFound objects.now system.now.tasks of order.now.procs needs.now → tasks.IsSmall objects.now system.now.tasks of fault) }
{
    for task in system.tasks() {
        if let Some((need, has)) = small(objects, order.procs.as_slice(), needs, task) {
            return Err(GraphFault::SmallStack {
                task: task.name.copy(alloc)?,
                need,
                has,
            });
        }
    }
    Ok(())
}

/// The need of a task's root and the words of its stack, where these are fewer.
fn small(objects: &[Object], procs: &[Proc], needs: &[u32], task: &Task) -> Option<(u32, u16)>
    requires { length objects.now ≤ 64 }
    ensures value { result ≡ spec.small objects.now procs.now needs.now task.now }
    ensures words { (n : ℕ) → spec.stack_named objects.now task.now.stack ≡ Some n → n < 65536 }
{
    let has = stack_named(objects, task.stack.as_slice())?;
    let root = root_named(objects, task.root.as_slice())?;
    let need = told_need(procs, needs, root)?;
    if u32::from(has) < need {
        Some((need, has))
    } else {
        None
    }
}

/// The need of a procedure, in a list of needs that goes with an order; none where it isn't in the order.
pub fn told_need(procs: &[Proc], needs: &[u32], of: Proc) -> Option<u32>
    ensures { result ≡ spec.told_need procs.now needs.now of }
{
    for number in 0..procs.len() {
        if is_same(procs[number], of) {
            return needs.get(number).copied();
        }
    }
    None
}

/// Whether two are one procedure.
pub fn is_same(one: Proc, other: Proc) -> bool
    ensures { result ≡ spec.is_same one other }
{
    one.module == other.module && one.brick == other.brick
}
