//! Laws of what is read of a system, and of its fault lines.

ghost use Rattle.rt_accept.specs.Laws.{ObjectsHaveTheirPlaces, CyclesAreNamed, FaultsHaveLines};

/// The objects of a system's lines are as many as these, and each has the place of its line.
pub fn objects_have_their_places()
    ensures { ObjectsHaveTheirPlaces }
{}

/// Each procedure of the cycle that a verdict tells is there, so it is printed behind the title of its module, or by its name alone
/// where it is supplied.
pub fn cycles_are_named()
    ensures { CyclesAreNamed }
{}

/// Where a system has a line for each object, there is one for each module in which objects don't match.
pub fn faults_have_lines()
    ensures { FaultsHaveLines }
{}
