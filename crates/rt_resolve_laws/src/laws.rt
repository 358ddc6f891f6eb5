//! The laws, as the contracts of functions that do nothing.

ghost use Rattle.rt_resolve_laws.specs.Owned as owned;
ghost use Rattle.rt_resolve_laws.specs.Reading as reading;

/// The code of a procedure of a system is that of its own module's tree alone; supplied procedures have none, nor has what isn't
/// there.
pub fn code_is_its_modules()
    ensures owned { owned.CodeIsItsModules }
    ensures supplied { owned.SuppliedHaveNone }
    ensures others { owned.OthersHaveNone }
{}

/// The environment of a module is its number, to what its bricks are bound, and the lengths of its strings; where modules match
/// the name of each brick leads to what it stands for, and to nothing else.
pub fn names_lead()
    ensures bindings { owned.EnvironmentsAreBindings }
    ensures lead { owned.NamesLead }
    ensures alone { owned.NamesLeadThereAlone }
{}

/// What is read after a write: where it was written the datum, at each other location what was there, in the store and in the
/// task's own data. Two locations are the same exactly where they are equal.
pub fn reads_follow_writes()
    ensures written { reading.ReadsWritten }
    ensures others { reading.ReadsOther }
    ensures same { reading.SameWhereEqual }
{}
