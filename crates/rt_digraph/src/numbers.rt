//! Numbers of nodes: nodes that lie on one cycle have one number, and each other node one greater than those of its successors.
//!
//! The numbers are found in one walk over the edges, by paths (Gabow). Nothing is promised of them: who uses them tests them.

use crate::walk::successors;
use rt_words::{List, Memory};
use std::alloc::Global;

/// A node on the way, and the place of its next successor.
#[derive(Clone, Copy)]
struct Visit {
    node: usize,
    place: usize,
}

/// A walk over all nodes. Nodes that lead to one another are a group, and so is each other node alone.
#[derive(Drop)]
struct Grouping {
    /// Of each node the turn in which it was entered, from 1 on; 0 before.
    turns: Vec<usize>,
    /// Of each node the number of its group, from 1 on; 0 before that is closed.
    groups: Vec<usize>,
    /// The way to the node at hand.
    path: List<Visit>,
    /// The nodes entered whose group isn't closed, in the order of their turns.
    open: List<usize>,
    /// Those of them that begin a group, as far as is known.
    first: List<usize>,
    /// How many nodes were entered, and how many groups are closed.
    entered: usize,
    closed: usize,
}

/// The number of each node.
pub fn numbers_of(alloc: Global, graph: &[List<usize>]) -> Result<Vec<usize>, Memory> {
    let mut grouping = Grouping {
        turns: vec![in alloc; 0; graph.len()]?,
        groups: vec![in alloc; 0; graph.len()]?,
        path: List::new(alloc, 0)?,
        open: List::new(alloc, 0)?,
        first: List::new(alloc, 0)?,
        entered: 0,
        closed: 0,
    };
    for node in 0..graph.len() {
        grouping.begin(graph, node)?;
    }
    let Grouping { groups, .. } = grouping;
    Ok(groups)
}

impl Grouping {
    /// Goes the whole way from a node, unless it was entered before.
    fn begin(&mut self, graph: &[List<usize>], node: usize) -> Result<(), Memory> {
        self.meet(node)?;
        for _ in 0..u64::MAX {
            match self.path.pop() {
                Some(visit) => self.step(graph, visit)?,
                None => return Ok(()),
            }
        }
        Ok(())
    }

    /// Goes on to the next successor, or leaves the node where it has no further one.
    fn step(&mut self, graph: &[List<usize>], visit: Visit) -> Result<(), Memory> {
        let Visit { node, place } = visit;
        match successors(graph, node).get(place) {
            Some(next) => {
                let place = place.saturating_add(1);
                self.path.push(Visit { node, place })?;
                self.meet(*next)
            }
            None => {
                self.leave(node);
                Ok(())
            }
        }
    }

    /// Enters a node that wasn't entered before; one whose group is still open is in the group of all entered since.
    fn meet(&mut self, node: usize) -> Result<(), Memory> {
        match (self.turns.get(node), self.groups.get(node)) {
            (Some(0), _) => self.enter(node),
            (Some(turn), Some(0)) => {
                let turn = *turn;
                self.join(turn);
                Ok(())
            }
            _ => Ok(()),
        }
    }

    fn enter(&mut self, node: usize) -> Result<(), Memory> {
        self.entered = self.entered.saturating_add(1);
        put(self.turns.as_mut_slice(), node, self.entered);
        self.open.push(node)?;
        self.first.push(node)?;
        self.path.push(Visit { node, place: 0 })
    }

    /// No node entered behind a turn begins a group.
    fn join(&mut self, turn: usize) {
        for _ in 0..u64::MAX {
            match self.first.as_slice().last() {
                Some(last) if turn < at(self.turns.as_slice(), *last) => {}
                _ => return,
            }
            let _last = self.first.pop();
        }
    }

    /// Closes the group that a node begins.
    fn leave(&mut self, node: usize) {
        match self.first.as_slice().last() {
            Some(last) if *last == node => {}
            _ => return,
        }
        let _last = self.first.pop();
        self.closed = self.closed.saturating_add(1);
        for _ in 0..u64::MAX {
            match self.open.pop() {
                Some(next) => {
                    put(self.groups.as_mut_slice(), next, self.closed);
                    if next == node {
                        return;
                    }
                }
                None => return,
            }
        }
    }
}

fn at(numbers: &[usize], node: usize) -> usize {
    match numbers.get(node) {
        Some(number) => *number,
        None => 0,
    }
}

fn put(numbers: &mut [usize], node: usize, number: usize) {
    if node < numbers.len() {
        numbers[node] = number;
    }
}
