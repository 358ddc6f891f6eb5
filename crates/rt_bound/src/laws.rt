//! The laws.
ghost use Rattle.rt_bound.specs.Laws as laws;
ghost use Rattle.rt_bound.specs.Leads as leads;
ghost use Rattle.rt_bound.specs.Signed as signed;
ghost use Rattle.rt_bound.specs.Supplied as supplied;

use rt_imaged::systems_are_imaged_by;
use rt_tree_laws::full_modes_open;

/// The bricks of objects have the signatures of the trees.
pub fn signatures_are_those_of_trees()
    ensures { signed.SignaturesAreThoseOfTrees }
{}

/// Modules match whose system links.
pub fn modules_match()
    ensures { laws.ModulesMatch }
{}

/// The linker and the meaning bind each brick to the same.
pub fn bricks_are_bound_alike()
    ensures { laws.BricksAreBoundAlike }
{
    full_modes_open();
}

/// The linker binds each procedure brick to the procedure to which the meaning leads.
pub fn procs_are_led()
    ensures { leads.ProcsAreLed }
{
    full_modes_open();
}

/// Items of data bricks lie alike where modules match.
pub fn faces_lie_alike()
    ensures { laws.FacesLieAlike }
{
    full_modes_open();
}

/// Of modules that fit, bricks are bound alike and items lie alike.
pub fn systems_are_bound()
    ensures { laws.SystemsAreBound }
{
    full_modes_open();
}

/// An accepted system is imaged, where its modules fit, its entries stand and its procedures run.
pub fn systems_are_imaged_so()
    ensures { laws.SystemsAreImagedSo }
{
    full_modes_open();
    systems_are_imaged_by();
}

/// The full mode of supplied data says what its items are.
pub fn svc_full_modes_tell()
    ensures { supplied.SvcFullModesTell }
{}

/// Modules match whose system links, where the items of their SVC data have names.
pub fn modules_match_so()
    ensures { supplied.ModulesMatchSo }
{}
