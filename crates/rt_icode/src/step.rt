//! The visible steps of instructions.
ghost use Rattle.std.specs.Prelude.{◌≡◌};
ghost use Rattle.rt_icode.specs.Steps.{step_of};

use crate::ins::Ins;
use rt_tree_nodes::Step;

/// The visible step that an instruction makes, if it makes one. Those of `ElementAt`, `Element`, `ElementRow`, `Case`, `TurnFor`
/// and `TurnTo` are made at times only: where the subscript isn't one of the array's, where the case is met, where there is a
/// further turn.
pub fn visible(i: &Ins) -> Option<Step>
    ensures { result ≡ step_of i.now }
{
    match i {
        Ins::Load { .. } | Ins::LoadOwn(_) | Ins::Fetch(_) => Some(Step::Read),
        Ins::Save { .. } | Ins::SaveOwn(_) | Ins::Store(_) | Ins::Recover { .. } | Ins::Restore =>
            Some(Step::Write),
        Ins::Invoke { .. } | Ins::InvokeBy { .. } | Ins::Report => Some(Step::Call),
        Ins::GiveUp | Ins::Leave => Some(Step::Return),
        Ins::Go { .. } | Ins::Case { .. } | Ins::TurnFor { .. } | Ins::TurnTo { .. } => {
            Some(Step::Jump)
        }
        Ins::ElementAt { .. } | Ins::Element { .. } | Ins::ElementRow { .. } => {
            Some(Step::Error(1))
        }
        _ => None,
    }
}
