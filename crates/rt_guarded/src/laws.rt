//! The laws.

ghost use Rattle.rt_guarded.specs.Laws.{HeldIsOne, MayIsOne, VerdictsAreOne};

/// There is one greatest family and one least, and a system and a script have one verdict at most.
pub fn families_and_verdicts_are_one()
    ensures held { HeldIsOne }
    ensures may { MayIsOne }
    ensures verdict { VerdictsAreOne }
{}
