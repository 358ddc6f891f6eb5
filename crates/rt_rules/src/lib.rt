//! The supervisor's rules as plain data: which task runs, what a clock tick does, and what each service of
//! a task does.
//!
//! Tasks, events and facilities are numbered from 1. A task has a condition ([`State`]), a priority, of which
//! a smaller one is more urgent, and a stamp, which says when it arrived or began to wait.
#![tactic(auto)]

mod first;
mod laws;
mod rules;
mod service;
mod task;

pub use laws::{
    clock_and_stamp_stay_low, delay_is_over, first_is_least, owners_keep_facilities, ranges_stand,
    services_keep_turn, tick_ends_turn, waiters_wait_for_owners,
};
pub use rules::Rules;
pub use service::{Outcome, Svc};
pub use task::{State, TaskRow};
