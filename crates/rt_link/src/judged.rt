//! The verdict.

ghost use Rattle.std.specs.Prelude.{◌≡◌, ◌<◌, ◌≤◌, length, IfErr, OnOk, IfOk};
ghost use Rattle.rt_link.specs.Room as layout;
ghost use Rattle.rt_link.specs.Verdict.{memory, IsJudged, IsFault};
ghost use Rattle.rt_link.specs.declared.fault.LinkFault.TheVariants as fault;

use crate::fault::LinkFault;
use crate::stacks::stack_bricks;
use crate::{MEMORY, room};
use rt_graph::{Order, check_stacks, needs, order, roots};
use rt_match::{Bindings, match_all};
use rt_object::Object;
use rt_system::System;
use rt_tree_nodes::Proc;
use rt_words::List;
use std::alloc::Global;

/// What is known of a system that is linked.
#[derive(Drop)]
pub struct Judged {
    /// To what the bricks of the modules are bound.
    pub bindings: Bindings,
    /// The roots of the tasks.
    pub roots: List<Proc>,
    /// What the roots reach, callees first.
    pub order: Order,
    /// How many words each of these needs.
    pub needs: List<u32>,
    /// The stack bricks of the tasks.
    pub stacks: List<Proc>,
}

fn check_room(objects: &[Object], stacks: &[Proc]) -> Result<(), LinkFault>
    requires few { length objects.now ≤ 64 }
    requires tasks { length stacks.now ≤ 32 }
    ensures fits { OnOk result (layout.room objects.now stacks.now ≤ memory) }
    ensures full { IfErr result (λ f. (f ≡ fault.NoRoom (layout.room objects.now stacks.now)) × (memory < layout.room objects.now stacks.now)) }
{
    let bytes = room(objects, stacks);
    if bytes <= MEMORY {
        Ok(())
    } else {
        Err(LinkFault::NoRoom { bytes })
    }
}

/// Judges a system of objects: its verdict is the first test that fails, in this order. Two ENT bricks have one name; an EXT brick is
/// nowhere; a brick differs from that for which it asks; an SVC brick isn't supplied; a task has no root, or no stack of its own; what
/// the roots reach lies on a cycle of calls; a stack has fewer words than its task needs; the parts have more bytes than the memory.
pub fn judge(alloc: Global, objects: &[Object], system: &System) -> Result<Judged, LinkFault>
    requires { length objects.now ≤ 64 }
    ensures judged { IfOk result (IsJudged objects.now system.now.tasks) }
    ensures fault { IfErr result (IsFault objects.now system.now.tasks) }
{
    let bindings = match_all(alloc, objects)?;
    let roots = roots(alloc, objects, system)?;
    let order = order(alloc, objects, &bindings, roots.as_slice())?;
    let needs = needs(alloc, objects, &bindings, &order)?;
    check_stacks(alloc, objects, system, &order, needs.as_slice())?;
    let stacks = stack_bricks(alloc, objects, system.tasks())?;
    check_room(objects, stacks.as_slice())?;
    Ok(Judged {
        bindings,
        roots,
        order,
        needs,
        stacks,
    })
}
