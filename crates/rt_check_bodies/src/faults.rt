//! The fault that counts of some.

ghost use Rattle.std.specs.Prelude.{◌≡◌, None};
ghost use Rattle.rt_check_declared.specs.Verdicts.{with_faults};

use rt_check_declared::note;
use rt_check_faults::CheckFault;

/// The fault that counts of some; `None` where there is none.
#[tactic(auto, unfolding(rt_check_declared::specs::Verdicts::with_faults))]
pub fn first_of(faults: &[CheckFault]) -> Option<CheckFault>
    ensures { result ≡ with_faults None faults.now }
{
    let mut first = None;
    for fault in faults {
        note(&mut first, *fault);
    }
    first
}
