//! The names that stand in conditions.

ghost use Rattle.std.specs.Prelude.{◌≡◌, OnOk, Some};
ghost use Rattle.rt_compile.specs.Marks.{all_marked};
ghost use Rattle.rt_tree.specs.Taken.{in_condition};
ghost use Rattle.rt_work_state.specs.Nodes as n;

use crate::taken::values::both;
use rt_words::Memory;
use rt_work_state::CondNode;

/// Marks the names that stand in a condition. It recurses as deep as left sides are nested, and not along a row of conditions.
#[cycle(conditions)]
pub fn condition(marks: &mut [bool], test: &CondNode) -> Result<(), Memory>
    ensures { OnOk result (all_marked (in_condition (n.cond test.now)) marks.old ≡ Some marks.new) }
{
    let mut rest = test;
    loop {
        match rest {
            CondNode::Is(_, left, right) => return both(marks, left, right),
            CondNode::Both(left, right) => {
                side(marks, left)?;
                rest = right;
            }
            CondNode::Either(left, right) => {
                side(marks, left)?;
                rest = right;
            }
        }
    }
}

#[cycle(conditions)]
fn side(marks: &mut [bool], test: &CondNode) -> Result<(), Memory>
    ensures { OnOk result (all_marked (in_condition (n.cond test.now)) marks.old ≡ Some marks.new) }
{
    condition(marks, test)
}
