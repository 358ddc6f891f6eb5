//! Laws of matching, as the contracts of functions that do nothing.

ghost use Rattle.rt_match.specs.Laws.{AllHaveOne, ExtsAreEntries, SvcsAreSupplied, LeadToEntries, HaveOneTable, NeverBoth, HaveOneFault, DifferencesShow};

/// Each brick has a binding. Where modules match, an EXT brick is bound to an ENT brick of its name, sort and full mode, and an
/// SVC brick to what is supplied so. Bindings lead to ENT bricks that are there, and there is one table of them.
pub fn bindings_lead()
    ensures all { AllHaveOne }
    ensures entries { ExtsAreEntries }
    ensures supplied { SvcsAreSupplied }
    ensures there { LeadToEntries }
    ensures one { HaveOneTable }
{}

/// Modules match, or have one fault. That of a brick of objects that differs has two texts that differ.
pub fn one_verdict()
    ensures apart { NeverBoth }
    ensures one { HaveOneFault }
    ensures shown { DifferencesShow }
{}
