//! The laws, as the contracts of functions that do nothing.

ghost use Rattle.rt_check_laws.specs.Laws.{EachModule, OneFault, FaultsAreKnown, FullModesAreModes};

use rt_check_bodies_laws::faults_are_known;
use rt_check_module_laws::records_are_tables;
use rt_sizes_laws::sizes_are_decided;
use rt_tree_laws::full_modes_tell_modes;

/// Each module has its typed tree, or a fault that counts of all that stand in it. Two faults that count are one item and one
/// number.
pub fn each_module_is_judged()
    ensures each { EachModule }
    ensures one { OneFault }
{
    sizes_are_decided();
}

/// What stands in a module is a fault of the table, and never what can't be known.
pub fn what_stands_is_known()
    ensures { FaultsAreKnown }
{
    faults_are_known();
}

/// The checker compares modes of one module as trees. In the module of a text that is equality of their full modes, by which
/// modes of different modules are compared.
pub fn full_modes_are_modes()
    ensures { FullModesAreModes }
{
    records_are_tables();
    full_modes_tell_modes();
}
