//! The data of the rules, as they are told.

use crate::numbers::tell_number;
use crate::queues::tell_queues;
use crate::supervisor::pair::Pair;
use rt_rules::{Rules, State, TaskRow};
use rt_words::{Memory, Text};

/// Appends the data that both have, and the queues.
pub fn tell_pair(pair: &Pair, out: &mut Text) -> Result<(), Memory> {
    tell_rules(&pair.rules, out)?;
    tell_queues(&pair.supervisor, out)
}

fn tell_rules(rules: &Rules, out: &mut Text) -> Result<(), Memory> {
    match rules.running() {
        Some(task) => tell_number("runs ", u64::from(task), out)?,
        None => out.push_all(b"nobody runs")?,
    }
    out.push(b':')?;
    tell_tasks(rules.tasks.as_slice(), out)?;
    tell_flags(rules.flags.as_slice(), out)?;
    tell_owners(rules.owners.as_slice(), out)?;
    tell_number(", clock ", u64::from(rules.clock), out)?;
    tell_number(", stamp ", rules.stamp, out)
}

fn tell_tasks(rows: &[TaskRow], out: &mut Text) -> Result<(), Memory> {
    for row in rows {
        out.push(b' ')?;
        tell_state(row.state, out)?;
        tell_number(".", row.stamp, out)?;
    }
    Ok(())
}

fn tell_state(state: State, out: &mut Text) -> Result<(), Memory> {
    match state {
        State::Ready => out.push_all(b"ready"),
        State::Delayed(ticks) => tell_number("delayed", u64::from(ticks), out),
        State::Event(event) => tell_number("event", u64::from(event), out),
        State::Facility(facility) => tell_number("facility", u64::from(facility), out),
        State::Ended => out.push_all(b"ended"),
        State::Failed(error) => tell_number("failed", u64::from(error), out),
    }
}

fn tell_flags(flags: &[bool], out: &mut Text) -> Result<(), Memory> {
    for (at, set) in flags.iter().enumerate() {
        if *set {
            tell_number(" +", (at as u64).saturating_add(1), out)?;
        }
    }
    Ok(())
}

fn tell_owners(owners: &[u8], out: &mut Text) -> Result<(), Memory> {
    for (at, owner) in owners.iter().enumerate() {
        if *owner > 0 {
            tell_number(" ", (at as u64).saturating_add(1), out)?;
            tell_number("=", u64::from(*owner), out)?;
        }
    }
    Ok(())
}
