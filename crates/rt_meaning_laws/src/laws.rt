//! The laws. Each is a function that does nothing, whose contract is the law.

ghost use Rattle.rt_meaning_laws.specs.Ends as ending;
ghost use Rattle.rt_meaning_laws.specs.Laws as law;
ghost use Rattle.rt_meaning_laws.specs.Makes as makes;
ghost use Rattle.rt_meaning_laws.specs.SourceRuns as runs;

use rt_tree::{parts_suit_their_modes, writes_keep_modes};
use rt_tree_laws::full_modes_open;

/// A typed store stays typed: in every state of the source run of modules that fit the store is typed and each task fits, and
/// no task ever lacks a value.
pub fn stores_stay_typed()
    ensures { law.StoresStayTyped }
{
    parts_suit_their_modes();
    writes_keep_modes();
    full_modes_open();
}

/// The invisible work of what fits lacks nothing, and the next visible step fits.
pub fn work_fits()
    ensures { law.WorkFits }
{}

/// What is read in a typed store is of the mode of its place, and the store stays typed where such a value is written.
pub fn reads_and_writes_fit()
    ensures reads { law.ReadsFit }
    ensures writes { law.WritesKeep }
{
    parts_suit_their_modes();
    writes_keep_modes();
}

/// A value of a mode of one module is of each mode of another with the same full mode: so arguments and results pass.
pub fn values_pass()
    ensures { law.ValuesPass }
{}

/// Modes to whose places one location leads have one full mode, whether it is one that all tasks share or an item of a task's own data.
pub fn one_mode_a_place()
    ensures shared { law.OneModeAPlace }
    ensures own { law.OneModeAnOwn }
{}

/// A visible step of a task that fits, over a typed store, lacks nothing, and it leaves a typed store and a task that fits.
pub fn steps_keep_types()
    ensures { law.StepsKeep }
{
    parts_suit_their_modes();
    writes_keep_modes();
}

/// Several steps of a task that fits, of which only the last may ask a service and none before it ends the task, leave a typed
/// store and a task that fits.
pub fn steps_in_a_row_keep_types()
    ensures { makes.MakesKeep }
{
    parts_suit_their_modes();
    writes_keep_modes();
}

/// From a state that fits each state of the run fits, whatever ticks and steps come, and no task ever lacks a value.
pub fn runs_keep_types()
    ensures { law.RunsKeep }
{
    parts_suit_their_modes();
    writes_keep_modes();
}

/// In the state in which a system of matched modules begins the store is typed, and each task fits.
pub fn starts_fit()
    ensures { law.StartsFit }
{}

/// In the world of a system that fits each procedure fits its mode.
pub fn systems_fit()
    ensures { law.SystemsFit }
{}

/// A system of matched modules whose nodes fit, and whose procedures name locals where these have a value, fits.
pub fn modules_fit()
    ensures { law.ModulesMakeSystems }
{
    full_modes_open();
}

/// In every state of a run there are as many tasks as rows, each task is over, has failed with a number, or goes on just where its
/// row says so, and the outermost activation of one that goes on is its root's. So a task that runs goes on.
pub fn ends_agree()
    ensures agree { ending.EndsAgree }
    ensures runners { ending.RunnersGoOn }
{
    parts_suit_their_modes();
    writes_keep_modes();
    full_modes_open();
}

/// Whatever ticks and input a source run has, it comes from a state that fits to one that fits, in which no task lacks a value; and
/// in the run of a system of modules that fit each task ends as its row says.
pub fn source_runs_fit()
    ensures keep { runs.SourceRunsKeep }
    ensures systems { runs.SystemRunsFit }
{
    parts_suit_their_modes();
    writes_keep_modes();
    full_modes_open();
}
