//! A walk over a graph: as deep as it goes, then back.

ghost use Rattle.std.specs.Prelude.{◌≡◌, ℕ, List, ◌+◌, ◌<◌, false, ◌∷◌, Some, length, slice_get, IfOk, OnOk, OnSome};
ghost use Rattle.rt_digraph.specs.Digraph as digraph;
ghost use Rattle.rt_digraph.specs.Going.{IsNew, IsGoing, IsLast, IsMarked, IsOver, KeepsMarks, Turned, Ended, left, rest_of};
ghost use Rattle.rt_digraph.specs.Walks.{Has};
ghost use Rattle.rt_digraph.specs.Going as spec;
ghost use Rattle.rt_digraph.specs.declared.walk.State.TheVariants as state;

use rt_words::{List, Memory};
use std::alloc::Global;

/// How far a walk has come with a node.
#[derive(Clone, Copy, Debug)]
pub enum State {
    New,
    /// On the path; so many of its successors are left, the last ones are passed.
    Open(usize),
    Done,
}

/// A walk.
#[derive(Drop)]
pub struct Walk {
    /// Of each node.
    pub states: List<State>,
    /// The nodes from a root to the one at hand.
    pub path: List<usize>,
    /// The nodes that are done, in the order in which they were left.
    pub done: List<usize>,
    /// Whether a successor was met that is on the path.
    pub is_cyclic: bool,
}

impl Walk {
    /// A walk over so many nodes that hasn't begun.
    pub fn new(alloc: Global, nodes: usize) -> Result<Walk, Memory>
        ensures { IfOk result (λ w. IsNew nodes w) }
    {
        let states = List::from_vec(vec![in alloc; State::New; nodes]?);
        Ok(Walk {
            states,
            path: List::new(alloc, 0)?,
            done: List::new(alloc, 0)?,
            is_cyclic: false,
        })
    }

    /// Goes the whole way from a root, unless it was entered before.
    pub fn begin(&mut self, graph: &[List<usize>], root: usize) -> Result<(), Memory>
        ensures goes { (roots : List ℕ) → Has roots root → IsOver graph.now roots (length graph.now) self.old → OnOk result (IsOver graph.now roots (length graph.now) self.new) }
        ensures here { OnOk result (root < length self.old.states → IsMarked self.new.states root) }
        ensures keeps { OnOk result (KeepsMarks self.old.states self.new.states) }
    {
        match self.state(root) {
            Some(State::New) => {
                self.enter(graph, root)?;
                let _met = self.run(graph, graph.len())?;
                Ok(())
            }
            Some(State::Open(_)) => Ok(()),
            Some(State::Done) => Ok(()),
            None => Ok(()),
        }
    }

    /// Goes the whole way from the nodes of the path, or until `stop` is met.
    pub fn run(&mut self, graph: &[List<usize>], stop: usize) -> Result<bool, Memory>
        ensures ends { (roots : List ℕ) → IsGoing graph.now roots stop self.old → IfOk result (λ met. Ended graph.now roots stop met self.new) }
        ensures keeps { OnOk result (KeepsMarks self.old.states self.new.states) }
    {
        while let Some(node) = self.path.pop() {
            if self.step(graph, stop, node)? {
                return Ok(true);
            }
        }
        Ok(false)
    }

    /// Goes one step on from the last node of the path, which was taken off. Whether `stop` is met.
    fn step(&mut self, graph: &[List<usize>], stop: usize, node: usize) -> Result<bool, Memory>
        ensures goes { (roots : List ℕ) → IsGoing graph.now roots stop (spec.back node self.old) → IfOk result (λ met. Turned graph.now roots stop met self.new) }
        ensures keeps { OnOk result (KeepsMarks self.old.states self.new.states) }
        ensures less { IfOk result (λ met. met ≡ false → left graph.now self.new.states + length self.new.path < left graph.now self.old.states + length self.old.path + 1) }
    {
        match self.rest(node) {
            Some(0) => {
                self.leave(node)?;
                Ok(false)
            }
            Some(rest) => {
                self.path.push(node)?;
                self.meet(graph, stop, node, rest - 1)
            }
            None => Ok(false),
        }
    }

    /// How many successors of an open node are left.
    fn rest(&self, node: usize) -> Option<usize>
        ensures { result ≡ rest_of (slice_get self.now.states node) }
    {
        match self.state(node) {
            Some(State::Open(rest)) => Some(rest),
            _ => None,
        }
    }

    /// Meets a successor of the last node of the path, by its place. Whether it is `stop`.
    fn meet(
        &mut self,
        graph: &[List<usize>],
        stop: usize,
        node: usize,
        place: usize,
    ) -> Result<bool, Memory>
        requires { slice_get self.old.states node ≡ Some (state.Open (place + 1)) }
        ensures goes { (roots : List ℕ) → IsLast self.old.path node → IsGoing graph.now roots stop self.old → IfOk result (λ met. Turned graph.now roots stop met self.new) }
        ensures keeps { OnOk result (KeepsMarks self.old.states self.new.states) }
        ensures less { IfOk result (λ met. met ≡ false → left graph.now self.new.states + length self.new.path < left graph.now self.old.states + length self.old.path) }
    {
        let next = successor(graph, node, place);
        match self.state(next) {
            None => self.pass(node, place),
            Some(_) if next == stop => return Ok(true),
            Some(State::New) => self.enter(graph, next)?,
            Some(State::Open(_)) => self.note(node, place),
            Some(State::Done) => self.pass(node, place),
        }
        Ok(false)
    }

    /// How far the walk has come with a node.
    pub fn state(&self, node: usize) -> Option<State>
        ensures { result ≡ slice_get self.now.states node }
    {
        match self.states.get(node) {
            Some(state) => Some(*state),
            None => None,
        }
    }

    /// Enters a node.
    pub fn enter(&mut self, graph: &[List<usize>], node: usize) -> Result<(), Memory>
        requires { node < length self.old.states }
        ensures { OnOk result (self.new ≡ spec.enter graph.now node self.old) }
    {
        self.states
            .set(node, State::Open(successors(graph, node).len()));
        self.path.push(node)
    }

    /// Passes a successor of a node.
    fn pass(&mut self, node: usize, place: usize)
        requires { node < length self.old.states }
        ensures { self.new ≡ spec.pass node place self.old }
    {
        self.states.set(node, State::Open(place));
    }

    /// Passes a successor that is on the path.
    fn note(&mut self, node: usize, place: usize)
        requires { node < length self.old.states }
        ensures { self.new ≡ spec.note node place self.old }
    {
        self.states.set(node, State::Open(place));
        self.is_cyclic = true;
    }

    /// Leaves a node that was taken off the path.
    fn leave(&mut self, node: usize) -> Result<(), Memory>
        requires { node < length self.old.states }
        ensures { OnOk result (self.new ≡ spec.leave node self.old) }
    {
        self.states.set(node, State::Done);
        self.done.push(node)
    }
}

pub fn successors(graph: &[List<usize>], node: usize) -> &[usize]
    ensures { result.now ≡ digraph.successors graph.now node }
{
    match graph.get(node) {
        Some(of) => of.as_slice(),
        None => &[],
    }
}

/// A successor of a node, by its place; a number of no node where there is none.
fn successor(graph: &[List<usize>], node: usize, place: usize) -> usize
    ensures { result ≡ digraph.successor graph.now node place }
{
    match successors(graph, node).get(place) {
        Some(next) => *next,
        None => graph.len(),
    }
}
