//! The laws of guarded data: what a task owns or waits for, where its activations stand, and how the sets of `rt_guarded` bound what it
//! has there. `specs/Runs.antt` states what they lead to, for every source run.
#![tactic(auto)]

mod laws;

pub use laws::{
    activations_follow_points, families_bound_ways, lower_facilities_make_no_ring,
    runs_keep_what_steps_keep, services_alone_change_what_a_task_has, tasks_stand_at_points,
    tests_bound_steps,
};
