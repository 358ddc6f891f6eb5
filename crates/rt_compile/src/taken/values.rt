//! The names that stand in values and places.

ghost use Rattle.std.specs.Prelude.{◌≡◌, ◌++◌, OnOk, Some};
ghost use Rattle.rt_compile.specs.Marks.{all_marked, marked};
ghost use Rattle.rt_tree.specs.Taken.{in_path, in_term, in_terms};
ghost use Rattle.rt_work_state.specs.Nodes as n;

use rt_words::Memory;
use rt_work_state::{PathNode, TermNode, TermsNode};

/// Marks the number of a brick. Where it has none, which comes about in no typed module, want of memory is answered.
pub fn mark(marks: &mut [bool], number: u16) -> Result<(), Memory>
    ensures { OnOk result (marked number marks.old ≡ Some marks.new) }
{
    let number = usize::from(number);
    if number < marks.len() {
        marks[number] = true;
        Ok(())
    } else {
        Err(Memory)
    }
}

/// Marks the names that stand in a value. It recurses as deep as values are nested.
#[cycle(values)]
pub fn term(marks: &mut [bool], v: &TermNode) -> Result<(), Memory>
    ensures { OnOk result (all_marked (in_term (n.term v.now)) marks.old ≡ Some marks.new) }
{
    match v {
        TermNode::Num(_) | TermNode::Str(_) | TermNode::Own(_) => Ok(()),
        TermNode::Name(number) => mark(marks, *number),
        TermNode::Get(_, at) => path(marks, at),
        TermNode::Ref(at) => path(marks, at),
        TermNode::RefRow(at, _) => path(marks, at),
        TermNode::Count(at, _) => path(marks, at),
        TermNode::CountRow(row) => term(marks, row),
        TermNode::One(_, inner) => term(marks, inner),
        TermNode::Two(_, left, right) => both(marks, left, right),
        TermNode::Over(_, left, right) => both(marks, left, right),
        TermNode::Apply(_, arguments) => terms(marks, arguments),
        TermNode::ApplyBy(_, called, arguments) => {
            term(marks, called)?;
            terms(marks, arguments)
        }
    }
}

/// The same of two values, one after the other.
#[cycle(values)]
pub fn both(marks: &mut [bool], left: &TermNode, right: &TermNode) -> Result<(), Memory>
    ensures { OnOk result (all_marked (in_term (n.term left.now) ++ in_term (n.term right.now)) marks.old ≡ Some marks.new) }
{
    term(marks, left)?;
    term(marks, right)
}

/// The same of a place.
#[cycle(values)]
pub fn path(marks: &mut [bool], at: &PathNode) -> Result<(), Memory>
    ensures { OnOk result (all_marked (in_path (n.path at.now)) marks.old ≡ Some marks.new) }
{
    match at {
        PathNode::ItemAt(_, _) | PathNode::Svc(_) => Ok(()),
        PathNode::FieldOf(outer, _, _) => path(marks, outer),
        PathNode::Elem(outer, subscript, _, _) => {
            path(marks, outer)?;
            term(marks, subscript)
        }
        PathNode::ElemRow(row, subscript, _) => both(marks, row, subscript),
        PathNode::Past(inner) => term(marks, inner),
    }
}

/// The same of arguments.
#[cycle(values)]
fn terms(marks: &mut [bool], arguments: &TermsNode) -> Result<(), Memory>
    ensures { OnOk result (all_marked (in_terms (n.terms arguments.now)) marks.old ≡ Some marks.new) }
{
    match arguments {
        TermsNode::NoTerm => Ok(()),
        TermsNode::MoreTerms(first, rest) => {
            term(marks, first)?;
            terms(marks, rest)
        }
    }
}
