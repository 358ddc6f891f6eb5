//! The laws, as the contracts of functions that do nothing.

ghost use Rattle.rt_meaning_sound.specs.Numbers.{StartsAreWords, StringsAreBytes};
ghost use Rattle.rt_meaning_sound.specs.Procedures.{ProceduresAreNamed, ModulesAreNamed};
ghost use Rattle.rt_meaning_sound.specs.Expressions.{ValuesAreSeen, TargetsAreSeen, ValTargetsAreSeen, CallsAreSeen, TestsAreSeen, ModesAreShort};
ghost use Rattle.rt_meaning_sound.specs.Systems.{TextsMakeSystems, StoresOfTextsStayTyped, RunsOfTextsFit};

use rt_bricks_laws::names_are_words;
use rt_check_module_laws::{data_items_are_fields, modules_fit, records_are_tables};
use rt_items::items_are_in_range;
use rt_meaning_laws::{source_runs_fit, stores_stay_typed};
use rt_tree_laws::full_data_open;

/// In the tree of a module of a text each number in a start of data is below 65,536, and each byte of a string is below 256.
pub fn numbers_fit()
    ensures starts { StartsAreWords }
    ensures strings { StringsAreBytes }
{}

/// A procedure in which no fault stands names a local only where it has a value on every way there: its parameters, each
/// BYTE, INT and FRAC and what a loop counts with have one at its start, and any other local has one behind its declaration.
pub fn procedures_are_named()
    ensures { ProceduresAreNamed }
{}

/// So does each procedure with a body in a module in which no fault stands.
pub fn modules_are_named()
    ensures { ModulesAreNamed }
{}

/// Where each length in a mode is a word and each local that may be named has a value, what fits names only locals that have
/// one, and numbers that are words: the value of an expression, where a mode is wanted of it; a call that stands alone; the
/// test that a condition is; and, where names and tree agree, the place that is assigned.
pub fn what_fits_is_seen()
    ensures values { ValuesAreSeen }
    ensures targets { TargetsAreSeen }
    ensures val_targets { ValTargetsAreSeen }
    ensures calls { CallsAreSeen }
    ensures tests { TestsAreSeen }
{}

/// The lengths in the modes of a scope are words, where the modes may stand.
pub fn modes_are_short()
    ensures { ModesAreShort }
{}

/// A system of modules of texts that match has all that the law of typed stores asks of modules. So in every state of its source
/// run, whatever ticks and steps come, the store is typed and each task fits, and no task lacks a value; and so it is in what a run
/// by placements of ticks comes to, where each task ends as its row says.
pub fn stores_of_texts_stay_typed()
    ensures fit { TextsMakeSystems }
    ensures typed { StoresOfTextsStayTyped }
    ensures runs { RunsOfTextsFit }
{
    items_are_in_range();
    names_are_words();
    records_are_tables();
    data_items_are_fields();
    full_data_open();
    numbers_fit();
    modules_are_named();
    modules_fit();
    stores_stay_typed();
    source_runs_fit();
}
