//! The verdict on the calls and tasks of some objects, as it is told.

ghost use Rattle.std.specs.Prelude.{◌≤◌, length};

use crate::linking::matching::tell_fault;
use crate::linking::needs::tell_needs;
use crate::linking::procs::tell_procs;
use crate::told::tell_count;
use rt_graph::{GraphFault, Order, Proc, check_stacks, needs, order, roots};
use rt_match::{Bindings, match_all};
use rt_object::Object;
use rt_system::System;
use rt_words::{List, Memory, Text};
use std::alloc::Global;

/// Tells the needs of procedures, and the stacks of tasks; or the fault.
pub fn tell_calls(
    alloc: Global,
    objects: &[Object],
    system: &Option<System>,
    out: &mut Text,
) -> Result<(), Memory>
    requires { length objects.now ≤ 64 }
{
    match match_all(alloc, objects) {
        Ok(bindings) => tell_graph(alloc, objects, &bindings, system, out),
        Err(fault) => tell_fault(&fault, out),
    }
}

fn tell_graph(
    alloc: Global,
    objects: &[Object],
    bindings: &Bindings,
    system: &Option<System>,
    out: &mut Text,
) -> Result<(), Memory>
    requires { length objects.now ≤ 64 }
{
    match roots_of(alloc, objects, system) {
        Ok(roots) => tell_reached(alloc, objects, bindings, system, roots.as_slice(), out),
        Err(fault) => tell_graph_fault(objects, &fault, out),
    }
}

fn roots_of(
    alloc: Global,
    objects: &[Object],
    system: &Option<System>,
) -> Result<List<Proc>, GraphFault>
    requires { length objects.now ≤ 64 }
{
    match system {
        Some(system) => roots(alloc, objects, system),
        None => Ok(List::from_vec(Vec::new(alloc))),
    }
}

/// The order of what the roots reach, and the needs in it.
fn tell_reached(
    alloc: Global,
    objects: &[Object],
    bindings: &Bindings,
    system: &Option<System>,
    roots: &[Proc],
    out: &mut Text,
) -> Result<(), Memory>
    requires { length objects.now ≤ 64 }
{
    match order(alloc, objects, bindings, roots) {
        Ok(order) => {
            let needs = needs(alloc, objects, bindings, &order)?;
            tell_stacks(alloc, objects, system, roots, &order, needs.as_slice(), out)
        }
        Err(fault) => tell_graph_fault(objects, &fault, out),
    }
}

fn tell_stacks(
    alloc: Global,
    objects: &[Object],
    system: &Option<System>,
    roots: &[Proc],
    order: &Order,
    needs: &[u32],
    out: &mut Text,
) -> Result<(), Memory>
    requires { length objects.now ≤ 64 }
{
    match stacks_of(alloc, objects, system, order, needs) {
        Ok(()) => tell_needs(objects, system, roots, order.procs.as_slice(), needs, out),
        Err(fault) => tell_graph_fault(objects, &fault, out),
    }
}

fn stacks_of(
    alloc: Global,
    objects: &[Object],
    system: &Option<System>,
    order: &Order,
    needs: &[u32],
) -> Result<(), GraphFault>
    requires { length objects.now ≤ 64 }
{
    match system {
        Some(system) => check_stacks(alloc, objects, system, order, needs),
        None => Ok(()),
    }
}

fn tell_graph_fault(objects: &[Object], fault: &GraphFault, out: &mut Text) -> Result<(), Memory> {
    match fault {
        GraphFault::Memory => Err(Memory),
        GraphFault::BadTask { line } => tell_count("bad task: line ", u64::from(*line), out),
        GraphFault::Recursion { cycle } => {
            out.push_all(b"recursion: ")?;
            tell_procs(objects, cycle.as_slice(), out)
        }
        GraphFault::SmallStack { task, need, has } => {
            tell_small(task.as_slice(), *need, *has, out)
        }
    }
}

fn tell_small(task: &[u8], need: u32, has: u16, out: &mut Text) -> Result<(), Memory> {
    out.push_all(b"small stack: task ")?;
    out.push_all(task)?;
    tell_count(", need ", u64::from(need), out)?;
    tell_count(", has ", u64::from(has), out)
}
