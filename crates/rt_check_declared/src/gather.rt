//! Faults that are gathered.

ghost use Rattle.std.specs.Prelude.{◌≡◌};
ghost use Rattle.rt_check_declared.specs.Verdicts.{with_fault, GathersLeast};

use rt_check_faults::CheckFault;

/// Keeps the one that counts of the faults so far and one more.
pub fn note(faults: &mut Option<CheckFault>, fault: CheckFault)
    ensures { faults.new ≡ with_fault faults.old fault }
{
    *faults = match *faults {
        None => Some(fault),
        Some(found) => Some(found.sooner(fault)),
    };
}

/// What is kept of some faults is the one that counts of all; there is none only where there is no fault.
pub fn gathered_fault_counts()
    ensures { GathersLeast }
{}
