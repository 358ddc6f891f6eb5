//! The order of the nodes that roots reach, or a cycle.

ghost use Rattle.std.specs.Prelude.{◌≡◌, ◌<◌, ℕ, List, true, length, IfOk, IfSome, IfNone, MatchOption};
ghost use Rattle.rt_digraph.specs.Alone.{AreAlone};
ghost use Rattle.rt_digraph.specs.Digraph.{Edge, IsSorted, IsRightCycle};
ghost use Rattle.rt_digraph.specs.Going.{IsDone, IsWhole};
ghost use Rattle.rt_digraph.specs.Walks.{IsCycleOf, IsOnCycle};

use crate::alone::{is_marked, mark_alone};
use crate::walk::{State, Walk};
use rt_words::{List, Memory};
use std::alloc::Global;

/// What is found of the nodes that roots reach.
#[derive(Drop)]
pub enum Sorted {
    /// All of them, each behind its successors.
    Order(List<usize>),
    /// A cycle of the first of them that lies on one; it begins and ends with that node.
    Cycle(List<usize>),
}

/// Sorts the nodes that roots reach. Numbers that aren't below the number of nodes name none, and lead nowhere. Where no cycle is
/// reached that takes time by the number of nodes and edges alone.
pub fn sort(alloc: Global, graph: &[List<usize>], roots: &[usize]) -> Result<Sorted, Memory>
    ensures { IfOk result (IsSorted graph.now roots.now) }
{
    let walk = walk_from(alloc, graph, roots)?;
    if walk.is_cyclic {
        Ok(Sorted::Cycle(first_cycle(alloc, graph, &walk)?))
    } else {
        let Walk { done, .. } = walk;
        Ok(Sorted::Order(done))
    }
}

/// The walk from all roots, to its end.
fn walk_from(alloc: Global, graph: &[List<usize>], roots: &[usize]) -> Result<Walk, Memory>
    ensures { IfOk result (IsWhole graph.now roots.now) }
{
    let mut walk = Walk::new(alloc, graph.len())?;
    for root in roots {
        walk.begin(graph, *root)?;
    }
    Ok(walk)
}

/// The first cycle of the nodes that a walk has done.
fn first_cycle(alloc: Global, graph: &[List<usize>], walk: &Walk) -> Result<List<usize>, Memory>
    requires { walk.now.is_cyclic ≡ true }
    ensures { (roots : List ℕ) → IsWhole graph.now roots walk.now → IfOk result (IsRightCycle graph.now roots) }
{
    let alone = mark_alone(alloc, graph)?;
    for node in 0..graph.len() {
        if let Some(cycle) = cycle_at(alloc, graph, walk, alone.as_slice(), node)? {
            return Ok(cycle);
        }
    }
    List::new(alloc, 0)
}

/// A cycle of a node that is done, if it lies on one; those marked lie on none.
fn cycle_at(
    alloc: Global,
    graph: &[List<usize>],
    walk: &Walk,
    alone: &[bool],
    node: usize,
) -> Result<Option<List<usize>>, Memory>
    requires marks { AreAlone graph.now alone.now }
    requires there { node < length graph.now }
    ensures some { IfOk result (λ found. IfSome found (λ cycle. IsDone walk.now.states node × IsCycleOf (Edge graph.now) node cycle)) }
    ensures none { IfOk result (λ found. IfNone found (IsDone walk.now.states node → IsOnCycle (Edge graph.now) node → ⊥)) }
{
    match walk.state(node) {
        Some(State::Done) if !is_marked(alone, node) => cycle_of(alloc, graph, node),
        _ => Ok(None),
    }
}

/// A cycle of a node, if it lies on one.
pub fn cycle_of(
    alloc: Global,
    graph: &[List<usize>],
    node: usize,
) -> Result<Option<List<usize>>, Memory>
    requires { node < length graph.now }
    ensures { IfOk result (λ found. MatchOption found (IsOnCycle (Edge graph.now) node → ⊥) (IsCycleOf (Edge graph.now) node)) }
{
    let mut walk = Walk::new(alloc, graph.len())?;
    walk.enter(graph, node)?;
    if walk.run(graph, node)? {
        let Walk { mut path, .. } = walk;
        path.push(node)?;
        Ok(Some(path))
    } else {
        Ok(None)
    }
}
