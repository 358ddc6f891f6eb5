//! The laws.
ghost use Rattle.rt_faithful.specs.Laws as laws;

use pdp_core_laws::others_keep_their_bytes;
use rt_follows::tasks_follow;
use rt_image::images_lie_in_memory;
use rt_meaning_laws::source_runs_fit;
use rt_rules_laws::ended_tasks_stay_ended;
use rt_tasks::parts_make_one_memory;

/// Each task of an image owns its block and its brick alone, and the code is no task's to read or write.
pub fn tasks_own_their_parts()
    ensures own { laws.TasksOwnTheirParts }
    ensures code { laws.CodeIsOfNone }
{
    images_lie_in_memory();
}

/// Whatever an instruction asks of the machine's run, the source's run does the same service for the same request.
pub fn services_are_of_the_source()
    ensures { laws.ServicesAreOfTheSource }
{}

/// What comes of a service of the running task may come of it.
pub fn what_comes_may_come()
    ensures { laws.WhatComesMayCome }
{
    ended_tasks_stay_ended();
}

/// A linked image is faithful: for every list of ticks, every console input and every number of instructions.
pub fn linked_images_are_faithful()
    ensures { laws.LinkedImagesAreFaithful }
{
    tasks_own_their_parts();
    services_are_of_the_source();
    what_comes_may_come();
    others_keep_their_bytes();
    tasks_follow();
    images_lie_in_memory();
    source_runs_fit();
    ended_tasks_stay_ended();
    parts_make_one_memory();
}

/// The machine's run and the source's go side by side: at the start each task follows its source's task for every number of instructions,
/// and each tick, and each instruction with the steps that its mark says, keeps it so for all tasks.
pub fn runs_go_side_by_side()
    ensures start { laws.StartsAreJoined }
    ensures tick { laws.TicksKeepJoined }
    ensures instruction { laws.InstructionsKeepJoined }
{
    tasks_own_their_parts();
    services_are_of_the_source();
    what_comes_may_come();
    others_keep_their_bytes();
    tasks_follow();
    images_lie_in_memory();
    source_runs_fit();
    ended_tasks_stay_ended();
    parts_make_one_memory();
}

/// However a run of a faithful image up to a limit ends, no instruction has faulted, and it is faithful there.
pub fn ends_are_faithful()
    ensures { laws.EndsAreFaithful }
{}
