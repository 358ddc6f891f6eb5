//! The values that intermediate code holds are those that the frames of procedures count. The function here does nothing: its contract
//! has the laws.
//!
//! `specs/Heights.antt` has how many values each instruction takes and leaves, how many are held at each, and the points where code
//! calls; `specs/Laws.antt` the laws.
#![tactic(auto)]

ghost use Rattle.rt_lower_frames_laws.specs.Laws.{IntermediateCodeIsMeasured, ValuesAreThoseOfFrames};

use rt_frames_laws::points_are_plain;

/// In the code of an own or ENT procedure of a module whose nodes fit, each instruction finds as many values as it takes, by whichever
/// way control comes to it: none at the first, and at each other what those before it leave. What is held at each call, and at the
/// report of each error, is what the procedure's frame says of its points, one by one; and there are never more than the frame's
/// greatest depth. So it is for each procedure of the intermediate code of such a module.
pub fn values_are_those_of_frames()
    ensures each { ValuesAreThoseOfFrames }
    ensures modules { IntermediateCodeIsMeasured }
{
    points_are_plain();
}
