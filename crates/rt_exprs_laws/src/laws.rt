//! The laws, as contracts of functions that do nothing.

ghost use Rattle.rt_exprs_laws.specs.Exact.{ExpressionsAreExact, TargetsAreExact, ValTargetsAreExact, CallsAreExact, TestsAreExact, AloneIsExact};
ghost use Rattle.rt_exprs_laws.specs.Laws.{ValuesSuit, TargetsAreAssigned, ValTargetsAreAssigned, CallsAreCalls, TestsFit};

/// Where names and tree agree: the value that fits an expression where a mode is wanted suits the mode; a place that fits
/// as the target of an assignment may be assigned; a call that stands alone is a call; a test that fits a condition fits.
pub fn what_fits_is_typed()
    ensures values { ValuesSuit }
    ensures targets { TargetsAreAssigned }
    ensures val_targets { ValTargetsAreAssigned }
    ensures calls { CallsAreCalls }
    ensures tests { TestsFit }
{}

/// What is computed of an expression, a target, a call that stands alone and a condition is exactly what holds of it by the relations of
/// fitting, or the fault that counts of those that stand in it, or that nothing can be known.
pub fn what_is_computed_is_exact()
    ensures expressions { ExpressionsAreExact }
    ensures targets { TargetsAreExact }
    ensures val_targets { ValTargetsAreExact }
    ensures calls { CallsAreExact }
    ensures tests { TestsAreExact }
    ensures alone { AloneIsExact }
{}
