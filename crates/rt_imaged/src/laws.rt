//! The laws.
ghost use Rattle.rt_imaged.specs.Bound as bound;
ghost use Rattle.rt_imaged.specs.Closed as closed;
ghost use Rattle.rt_imaged.specs.Coded as coded;
ghost use Rattle.rt_imaged.specs.Compiled as compiled;
ghost use Rattle.rt_imaged.specs.Fit as fit;
ghost use Rattle.rt_imaged.specs.Fixed as fixed;
ghost use Rattle.rt_imaged.specs.Laid as laid;
ghost use Rattle.rt_imaged.specs.Laws as laws;
ghost use Rattle.rt_imaged.specs.Tasks as tasks;

use rt_tree_laws::{full_modes_open, full_modes_tell_modes};

/// The parts of tasks lie behind the data, one after the other.
pub fn parts_of_tasks_sit()
    ensures { laws.PartsSit }
{}

/// The places of a linked system lie as is asked of them, and the starting store lies in its image.
pub fn systems_lie()
    ensures { laws.SystemsLie }
{
    full_modes_open();
    full_modes_tell_modes();
}

/// An accepted system is imaged, where what is left to show holds.
pub fn systems_are_imaged_if()
    ensures { laws.SystemsAreImagedIf }
{
    full_modes_open();
    full_modes_tell_modes();
}

/// Fixed places lie where the records of the module that names them say.
pub fn fixed_are_laid()
    ensures { fixed.FixedAreLaid }
{
    full_modes_open();
}

/// Where bricks are bound alike, the words of relocations are those of the values that they stand for.
pub fn relocations_resolve()
    ensures { bound.RelocationsResolve }
{
    full_modes_open();
}

/// The roots of an accepted system are roots of the source.
pub fn roots_are_roots()
    ensures { tasks.RootsAreRoots }
{}

/// Modules that fit, of each record of which has a field, are such trees.
pub fn trees_of_modules()
    ensures { fit.TreesOfModules }
{}

/// Each task's root is reached, and its brick has room for all that the root needs.
pub fn tasks_have_room()
    ensures { tasks.TasksHaveRoom }
{}

/// An accepted system is imaged: all that is proved of it, put together.
pub fn systems_are_imaged_by()
    ensures { closed.SystemsAreImagedBy }
{
    full_modes_open();
    full_modes_tell_modes();
}

/// All that Lays asks (with known tables), of the whole of an accepted system.
pub fn systems_are_laid()
    ensures { laid.SystemsAreLaid }
{
    full_modes_open();
    full_modes_tell_modes();
}

/// The words by which tasks enter their roots stand in the code, with their marks.
pub fn entries_do_stand()
    ensures { coded.EntriesDoStand }
{}

/// The support code stands from address 0 on, and the words of each procedure with its relocations applied at its entry.
pub fn code_stands()
    ensures support { coded.SupportDoesStand }
    ensures procs { coded.ProcsDoStand }
{}

/// The object of a tree has of each of its procedures the code that lowering makes, with its frame; and no procedure is without a word.
pub fn procs_are_compiled()
    ensures procs { compiled.ProcsAreCompiled }
    ensures words { coded.TheyHaveWords }
    ensures built { compiled.ProcsAreBuilt }
{}
