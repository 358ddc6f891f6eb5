//! What is still to be done in an activation, and its next visible step.

use crate::node::{CondNode, LabelsNode, PathNode, SeqNode, TermNode, TermsNode};
use crate::request::Request;
use crate::stack::Stack;
use rt_tree::{Datum, Location, Op1, Op2, Proc, Rel};
use rt_words::List;
use std::alloc::Global;
use std::rc::Rc;

/// Where a module's own numbers lead.
#[derive(Drop)]
pub struct Env {
    /// The number of the module, from 1.
    pub module: u16,
    /// For each brick the procedure, or the data brick, that it is or is bound to.
    pub bricks: List<Proc>,
    /// The length of each string.
    pub texts: List<u16>,
}

impl Env {
    ghost use Rattle.std.specs.Prelude.{◌≡◌};
    ghost use Rattle.rt_work_state.specs.Nodes as n;

    /// The numbers of no module; it takes no memory.
    pub fn nowhere(alloc: Global) -> Env
        ensures { n.env result ≡ n.nowhere }
    {
        Env {
            module: 0,
            bricks: List::from_vec(Vec::new(alloc)),
            texts: List::from_vec(Vec::new(alloc)),
        }
    }
}

/// One thing that is still to be done.
#[derive(Drop)]
pub enum Item {
    Do(Rc<SeqNode>),
    /// Its value goes on the values.
    Eval(Rc<TermNode>),
    /// Its place goes on the values.
    At(Rc<PathNode>),
    Args(Rc<TermsNode>),
    /// A place becomes what is read there.
    Fetch,
    /// The path is that of the place.
    Into(Rc<PathNode>, u16),
    /// The path is that of the array.
    Pick(Rc<PathNode>, u16),
    PickRow,
    Span(u16),
    Tell(u16),
    Length,
    Alter(Op1),
    Merge(Op2),
    Split(Op2),
    Report(u16),
    /// A number that is known goes on the values.
    Stand(u16),
    /// The call of a brick with as many values as these arguments are.
    Enter(u16, Rc<TermsNode>),
    EnterBy(Rc<TermsNode>),
    Local(u32),
    /// The value, which is that of the term, is written at the place of the path.
    Save(Rc<PathNode>, Rc<TermNode>),
    Toss,
    /// The values are those of the two terms.
    Compare(Rel, Rc<TermNode>, Rc<TermNode>),
    Try(Rc<CondNode>),
    AndThen(Rc<CondNode>),
    OrElse(Rc<CondNode>),
    Choose(Rc<SeqNode>, Rc<SeqNode>),
    /// The end of what stands behind a THEN.
    PastElse,
    Decide(Rc<CondNode>, Rc<SeqNode>),
    Again(Rc<CondNode>, Rc<SeqNode>),
    CountFor(u16, Rc<SeqNode>),
    TurnFor(u16, Rc<SeqNode>),
    CountTo(u16, Rc<SeqNode>),
    TurnTo(u16, Rc<SeqNode>),
    ToLabel(Rc<LabelsNode>),
    GiveUp,
    Leave,
    Begin(Proc),
    Serve(u16),
}

/// The next visible step.
#[derive(Drop)]
pub enum Next {
    Reads(Location),
    Writes(Location, Datum),
    Calls(Proc, List<Datum>),
    Returns(Option<Datum>),
    Jumps,
    /// To a label of the procedure.
    Leaps(u16),
    Asks(Request),
    Recovers(u16),
    Errors(u16),
    /// A value is missing or of another kind, which never comes.
    Lacks,
}

/// What is still to be done, with the values and the locals.
#[derive(Drop)]
pub struct Scene {
    pub todo: Stack<Item>,
    pub values: Stack<Datum>,
    pub locals: List<Datum>,
}

impl Scene {
    ghost use Rattle.std.specs.Prelude.{◌≡◌, slice_set};
    ghost use Rattle.rt_work_state.specs.Items as task;

    // A local becomes a value.
    pub fn set_local(&mut self, local: usize, value: Datum)
        ensures todo { self.new.todo ≡ self.old.todo }
        ensures values { self.new.values ≡ self.old.values }
        ensures locals { self.new.locals ≡ slice_set self.old.locals local value }
    {
        if local < self.locals.len() {
            self.locals.set(local, value);
        }
    }

    // The word that a local holds; one that isn't there holds 0.
    pub fn word_at(&self, local: usize) -> Option<u16>
        ensures { result ≡ task.word_at self.now.locals local }
    {
        match self.locals.get(local) {
            None => Some(0),
            Some(Datum::Word(word)) => Some(*word),
            Some(_) => None,
        }
    }
}
