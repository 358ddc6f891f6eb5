//! The law, as the contract of a function that does nothing.

ghost use Rattle.rt_check.specs.Laws.{OneTree, NoTreeWithFaults};

/// A module has one typed tree, or faults stand in it of which one counts, and never both.
pub fn one_tree()
    ensures one { OneTree }
    ensures none { NoTreeWithFaults }
{}
