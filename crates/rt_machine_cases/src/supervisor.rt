//! The supervisor's rules. Each step is done by the rules on plain data and by the supervisor with its queues, which have the same
//! data after it.
//!
//! - `tasks 5 10`: two tasks, of these priorities.
//! - `do wait 1`: a service of the running task; `do tick`: a tick. `repeat 32 taskno ; delay 2`: two services, 32 times.
//!
//! `runs 2: event1.4 ready.1 +3 7=2, clock 0, stamp 5; queue 10: 2` says that task 2 runs, that task 1 waits for event 1 and has
//! the stamp 4, that task 2 is ready with the stamp 1, that event 3 is set, that facility 7 is task 2's, how many ticks were
//! taken, which stamp comes next, and that the queue of priority 10 has task 2 alone. Empty queues aren't shown.

mod pair;
mod steps;
mod tasks;
mod told;

pub use pair::Pair;
pub use tasks::{describe_repeated, describe_steps, describe_tasks};
