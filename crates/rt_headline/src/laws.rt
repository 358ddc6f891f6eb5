//! The laws.

ghost use Rattle.rt_imaging.specs.Imaging.{TasksAreThose};
ghost use Rattle.rt_headline.specs.Laws as laws;
ghost use Rattle.rt_headline.specs.Causes as causes;
ghost use Rattle.rt_headline.specs.Determined as one;

use rt_compile::one_object;
use rt_compile_laws::texts_have_one_fault;
use rt_faithful::{ends_are_faithful, linked_images_are_faithful};
use rt_imaging::tasks_are_those;
use rt_imaging_laws::linked_images_are_imaged;
use rt_link::{one_verdict, tasks_are_those_of_the_lines};
use rt_outside::counts_never_fall;
use rt_run::boundaries_are_counted;
use rt_system::{texts_have_one_reading, tick_texts_have_one_reading};

/// What the code of `go` and of `gen` does is what the headline says of it.
pub fn the_headline_follows()
    ensures goes { laws.TheHeadlineFollows }
    ensures generates { laws.GeneratedRunsFollow }
{
    linked_images_are_imaged();
    linked_images_are_faithful();
    ends_are_faithful();
    tasks_are_those_of_the_lines();
    counts_never_fall();
    boundaries_are_counted();
}

/// What is accepted has tasks and trees.
pub fn systems_have_tasks_and_trees()
    ensures tasks { laws.TasksAreThere }
    ensures those { TasksAreThose }
    ensures trees { laws.LinesHaveTrees }
{
    tasks_are_those();
}

/// Each answer has its cause, and no other file changes than the two that are written.
pub fn answers_have_causes()
    ensures answers { causes.OnlyTheseAnswers }
    ensures files { causes.OthersAreKept }
    ensures twenty { causes.TwentyHasCause }
    ensures twenty_one { causes.TwentyOneHasCause }
    ensures thirty { causes.ThirtyChangesNothing }
    ensures image { causes.ImagesStay }
    ensures told { causes.ToldInputsAreRun }
{}

/// Where files are told a system isn't both accepted and refused, and `go` does what they say, but for named excuses. They are refused
/// for one cause.
pub fn outcomes_are_one()
    ensures both { one.NeverBoth }
    ensures accepted { one.WhereAccepted }
    ensures refused { one.WhereRefused }
    ensures cause { one.OneRefusal }
{
    texts_have_one_fault();
    texts_have_one_reading();
    tick_texts_have_one_reading();
    one_object();
    one_verdict();
}
