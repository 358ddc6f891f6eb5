//! Of each node whether it lies on a cycle.

ghost use Rattle.std.specs.Prelude.{◌≡◌, ◌+◌, ◌<◌, length, IfOk, OnOk};
ghost use Rattle.rt_digraph.specs.Alone.{AreAlone};
ghost use Rattle.rt_digraph.specs.Rings.{AreMarkedBelow, AreOnCycles, mark, mark_one};

use crate::alone::{is_marked, mark_alone, none_marked};
use crate::sorting::cycle_of;
use rt_words::{List, Memory};
use std::alloc::Global;

/// Marks each node that lies on a cycle. A cycle that is found marks all its nodes, and no node is looked at that numbers tell to lie on
/// none: so where few cycles have nodes in common that takes time by the number of nodes and edges alone.
pub fn mark_cycles(alloc: Global, graph: &[List<usize>]) -> Result<Vec<bool>, Memory>
    ensures { IfOk result (λ marks. AreOnCycles graph.now marks.items) }
{
    let alone = mark_alone(alloc, graph)?;
    let mut marks = none_marked(alloc, graph.len())?;
    for node in 0..graph.len() {
        mark_at(alloc, graph, alone.as_slice(), node, marks.as_mut_slice())?;
    }
    Ok(marks)
}

/// Marks a cycle of a node, if it lies on one and isn't marked; those of `alone` lie on none.
fn mark_at(
    alloc: Global,
    graph: &[List<usize>],
    alone: &[bool],
    node: usize,
    marks: &mut [bool],
) -> Result<(), Memory>
    requires alone { AreAlone graph.now alone.now }
    requires there { node < length graph.now }
    requires marked { AreMarkedBelow graph.now node marks.old }
    ensures { OnOk result (AreMarkedBelow graph.now (node + 1) marks.new) }
{
    if is_marked(alone, node) || is_marked(marks, node) {
        return Ok(());
    }
    if let Some(cycle) = cycle_of(alloc, graph, node)? {
        mark(cycle.as_slice(), marks);
    }
    Ok(())
}

/// Marks some nodes.
fn mark(nodes: &[usize], marks: &mut [bool])
    ensures { marks.new ≡ mark nodes.now marks.old }
{
    for node in nodes {
        mark_one(*node, marks);
    }
}

fn mark_one(node: usize, marks: &mut [bool])
    ensures { marks.new ≡ mark_one node marks.old }
{
    if node < marks.len() {
        marks[node] = true;
    }
}
