//! The queues of the supervisor, as they are told.

use crate::numbers::tell_number;
use rt_run::Supervisor;
use rt_words::{Memory, Text};

/// Appends the queue of each priority that has ready tasks.
pub fn tell_queues(supervisor: &Supervisor, out: &mut Text) -> Result<(), Memory> {
    for priority in 1..=255u8 {
        tell_queue(supervisor, priority, out)?;
    }
    Ok(())
}

fn tell_queue(supervisor: &Supervisor, priority: u8, out: &mut Text) -> Result<(), Memory> {
    let tasks = supervisor.ready(priority);
    if tasks.is_empty() {
        return Ok(());
    }
    tell_number("; queue ", u64::from(priority), out)?;
    out.push(b':')?;
    for task in tasks {
        tell_number(" ", u64::from(*task), out)?;
    }
    Ok(())
}
