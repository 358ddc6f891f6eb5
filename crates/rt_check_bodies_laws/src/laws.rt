//! The laws, as the contracts of functions that do nothing.

ghost use Rattle.rt_check_bodies_laws.specs.Fitting.{ProceduresFit};
ghost use Rattle.rt_check_bodies_laws.specs.Faults.{FaultsAreKnown};
ghost use Rattle.rt_check_bodies_laws.specs.Standing.{WrittenModesStand};
ghost use Rattle.rt_check_bodies_laws.specs.Weights.{ValuesStayWithin, TargetsStayWithin, ValTargetsStayWithin, CallsStayWithin, TestsStayWithin};
ghost use Rattle.rt_check_bodies_laws.specs.Within.{LocalsAreFew, ProceduresAreWithin, ModulesAreWithin, BoundsStayWithin};
ghost use Rattle.rt_check_bodies_laws.specs.Named.{LocalsStand};

/// Where no fault stands in a procedure, and nothing is seen outside it whose mode can't be known, its tree is one that a typed module may have: numbers of locals and labels, jumps,
/// results, starts and each node fit, and a body with a result is closed.
pub fn what_is_judged_fits()
    ensures { ProceduresFit }
{}

/// What stands in a procedure is a fault, and never what can't be known.
pub fn faults_are_known()
    ensures { FaultsAreKnown }
{}

/// The mode that is written at a place may stand there, where no more modes open and no more REF stand in a row than may, and
/// the length of an array is in range.
pub fn written_modes_stand()
    ensures { WrittenModesStand }
{}

/// Where names and tree agree, and at most eight REFs stand in a row in each mode, what fits stays within its items, 12 words
/// of code for each and a word of the stack: the value of an expression, where a mode is wanted of it; the place that is
/// assigned; a call that stands alone; the test that a condition is.
pub fn what_fits_stays_within()
    ensures values { ValuesStayWithin }
    ensures targets { TargetsStayWithin }
    ensures val_targets { ValTargetsStayWithin }
    ensures calls { CallsStayWithin }
    ensures tests { TestsStayWithin }
{}

/// The locals of a procedure have numbers of 16 bits, where its items do.
pub fn locals_are_few()
    ensures { LocalsAreFew }
{}

/// The locals of a procedure have modes that locals may have, where its text has modes that may stand.
pub fn locals_stand()
    ensures { LocalsStand }
{}

/// A procedure in which no fault stands is within: its parameters, locals and depths are below 65,536, and its nodes weigh at
/// most 12 words an item, from PROC to ENDPROC.
pub fn procedures_are_within()
    ensures { ProceduresAreWithin }
{}

/// The tree that a derived module gives is within, where every node of it fits, and its bodies are those of procedures in which
/// no fault stands.
pub fn modules_are_within()
    ensures { ModulesAreWithin }
{}

/// A module that is within stays so where the bound of a recursion is set.
pub fn bounds_stay_within()
    ensures { BoundsStayWithin }
{}
