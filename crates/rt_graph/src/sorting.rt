//! The reached procedures in an order in which each stands behind those that it calls.

ghost use Rattle.std.specs.Prelude.{◌≡◌, ◌≤◌, length, slice_get, IfOk, IfErr};
ghost use Rattle.rt_digraph.specs.Digraph.{IsSorted};
ghost use Rattle.rt_graph.specs.Classes as classes;
ghost use Rattle.rt_graph.specs.Nodes as spec;
ghost use Rattle.rt_graph.specs.Nodes.{IsTable};
ghost use Rattle.rt_graph.specs.Reach.{IsCallOrder, IsRefused};
ghost use Rattle.rt_graph.specs.Rows.{IsRow};

use crate::fault::GraphFault;
use crate::nodes::{call_graph, push_some};
use crate::reached::Order;
use crate::row::Row;
use crate::table::{Linked, Table};
use crate::taken::taken_texts;
use rt_digraph::{Sorted, sort};
use rt_match::Bindings;
use rt_object::Object;
use rt_tree_nodes::Proc;
use rt_words::{Bytes, List, Memory};
use std::alloc::Global;

/// The procedures that roots reach, supplied ones too, each once and behind those that it may call. Where one of them lies on a
/// cycle of calls, that is refused by a cycle of the first such procedure. A root that is no procedure reaches nothing. It takes
/// time by the number of bricks, calls and candidates, and by the full modes of calls.
pub fn order(
    alloc: Global,
    objects: &[Object],
    bindings: &Bindings,
    roots: &[Proc],
) -> Result<Order, GraphFault>
    requires { length objects.now ≤ 64 }
    ensures order { IfOk result (λ o. IsCallOrder objects.now bindings.now.of roots.now o.procs) }
    ensures refused { IfErr result (IsRefused objects.now bindings.now.of roots.now) }
{
    let row = Row::of(alloc, objects)?;
    let texts = taken_texts(alloc, objects, bindings, &row)?;
    order_by(alloc, objects, bindings, roots, row, texts.as_slice())
}

fn order_by(
    alloc: Global,
    objects: &[Object],
    bindings: &Bindings,
    roots: &[Proc],
    row: Row,
    texts: &[Option<Bytes>],
) -> Result<Order, GraphFault>
    requires few { length objects.now ≤ 64 }
    requires row { IsRow objects.now row }
    requires texts { texts.now ≡ classes.taken_texts objects.now bindings.now.of }
    ensures order { IfOk result (λ o. IsCallOrder objects.now bindings.now.of roots.now o.procs) }
    ensures refused { IfErr result (IsRefused objects.now bindings.now.of roots.now) }
{
    let table = Table::of(alloc, objects, bindings, row, texts)?;
    let numbers = root_numbers(alloc, objects, &table.row, roots)?;
    let linked = Linked {
        objects,
        bindings,
        table: &table,
    };
    let sorted = sorted_nodes(alloc, linked, numbers.as_slice())?;
    in_order(alloc, table.row.bricks.as_slice(), &sorted)
}

/// The numbers of roots; what is no procedure has none.
fn root_numbers(
    alloc: Global,
    objects: &[Object],
    row: &Row,
    roots: &[Proc],
) -> Result<List<usize>, Memory>
    requires few { length objects.now ≤ 64 }
    requires row { IsRow objects.now row.now }
    ensures { IfOk result (λ numbers. numbers ≡ spec.root_numbers objects.now roots.now) }
{
    let mut numbers = List::new(alloc, 0)?;
    for root in roots {
        push_some(&mut numbers, row.number(objects, *root))?;
    }
    Ok(numbers)
}

fn sorted_nodes(alloc: Global, linked: Linked<'_, '_>, numbers: &[usize]) -> Result<Sorted, Memory>
    requires { IsTable linked.objects.now linked.bindings.now.of linked.table.now }
    ensures { IfOk result (IsSorted (spec.call_graph linked.entry.objects.now linked.entry.bindings.now.of linked.entry.table.now) numbers.now) }
{
    let graph = call_graph(alloc, linked)?;
    sort(alloc, graph.as_slice(), numbers)
}

/// The bricks of nodes in their order, or those of their cycle.
fn in_order(alloc: Global, row: &[Proc], sorted: &Sorted) -> Result<Order, GraphFault>
    ensures order { IfOk result (λ o. spec.IsInOrder row.now sorted.now o.procs) }
    ensures refused { IfErr result (spec.IsCycleIn row.now sorted.now) }
{
    match sorted {
        Sorted::Order(nodes) => Ok(Order {
            procs: bricks_at(alloc, row, nodes.as_slice())?,
        }),
        Sorted::Cycle(nodes) => Err(GraphFault::Recursion {
            cycle: bricks_at(alloc, row, nodes.as_slice())?,
        }),
    }
}

/// The bricks among nodes.
fn bricks_at(alloc: Global, row: &[Proc], nodes: &[usize]) -> Result<List<Proc>, Memory>
    ensures { IfOk result (λ fs. fs ≡ spec.bricks_at row.now nodes.now) }
{
    let mut bricks = List::new(alloc, 0)?;
    for node in nodes {
        push_some(&mut bricks, brick_at(row, *node))?;
    }
    Ok(bricks)
}

fn brick_at(row: &[Proc], node: usize) -> Option<Proc>
    ensures { result ≡ slice_get row.now node }
{
    match row.get(node) {
        Some(brick) => Some(*brick),
        None => None,
    }
}
