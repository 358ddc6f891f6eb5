//! Nodes that are seen to lie on no cycle, by numbers.
//!
//! Where each node has a number not less than those of its successors, one whose number is less than those of all nodes that lead to
//! it lies on no cycle. That is so whatever the numbers are.

ghost use Rattle.std.specs.Prelude.{◌≡◌, replicate, false, IfOk, IsTrue};
ghost use Rattle.rt_digraph.specs.Alone.{AreAlone, AreRanks, is_marked, no_more, rank, unmark, unmark_one};

use crate::numbers::numbers_of;
use crate::walk::successors;
use rt_words::{List, Memory};
use std::alloc::Global;

/// Marks nodes that lie on no cycle. The numbers found here mark each of them, in one walk over all edges; that they do isn't promised.
pub fn mark_alone(alloc: Global, graph: &[List<usize>]) -> Result<Vec<bool>, Memory>
    ensures { IfOk result (λ marks. AreAlone graph.now marks.items) }
{
    let numbers = numbers_of(alloc, graph)?;
    if !are_ranks(graph, numbers.as_slice()) {
        return none_marked(alloc, graph.len());
    }
    let mut marks = vec![in alloc; true; graph.len()]?;
    unmark_all(graph, numbers.as_slice(), marks.as_mut_slice());
    Ok(marks)
}

pub fn none_marked(alloc: Global, count: usize) -> Result<Vec<bool>, Memory>
    ensures { IfOk result (λ marks. marks.items ≡ replicate count false) }
{
    Ok(vec![in alloc; false; count]?)
}

pub fn is_marked(marks: &[bool], node: usize) -> bool
    ensures { result ≡ is_marked marks.now node }
{
    match marks.get(node) {
        Some(mark) => *mark,
        None => false,
    }
}

/// Whether no node has a successor of a greater number.
fn are_ranks(graph: &[List<usize>], numbers: &[usize]) -> bool
    ensures { IsTrue result → AreRanks graph.now numbers.now }
{
    for node in 0..graph.len() {
        let most = rank(numbers, node);
        if !no_more(successors(graph, node), numbers, most) {
            return false;
        }
    }
    true
}

/// The number of a node; 0 where it has none.
fn rank(numbers: &[usize], node: usize) -> usize
    ensures { result ≡ rank numbers.now node }
{
    match numbers.get(node) {
        Some(number) => *number,
        None => 0,
    }
}

/// Whether no node of some has a number greater than one.
fn no_more(nodes: &[usize], numbers: &[usize], most: usize) -> bool
    ensures { result ≡ no_more numbers.now most nodes.now }
{
    for node in nodes {
        if most < rank(numbers, *node) {
            return false;
        }
    }
    true
}

/// Unmarks each node to which one of the same number leads.
fn unmark_all(graph: &[List<usize>], numbers: &[usize], marks: &mut [bool])
    requires { AreRanks graph.now numbers.now }
    ensures { AreAlone graph.now marks.new }
{
    for node in 0..graph.len() {
        let same = rank(numbers, node);
        unmark(successors(graph, node), numbers, same, marks);
    }
}

/// Unmarks each node of some that has a number.
fn unmark(nodes: &[usize], numbers: &[usize], same: usize, marks: &mut [bool])
    ensures { marks.new ≡ unmark numbers.now same nodes.now marks.old }
{
    for node in nodes {
        unmark_one(numbers, same, *node, marks);
    }
}

fn unmark_one(numbers: &[usize], same: usize, node: usize, marks: &mut [bool])
    ensures { marks.new ≡ unmark_one numbers.now same node marks.old }
{
    if rank(numbers, node) == same && node < marks.len() {
        marks[node] = false;
    }
}
