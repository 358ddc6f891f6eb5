//! Laws of the verdict.

ghost use Rattle.rt_link.specs.VerdictLaws.{EachHasAStack};

/// Each task of a system that has roots has its stack brick.
pub fn each_has_a_stack()
    ensures { EachHasAStack }
{}
