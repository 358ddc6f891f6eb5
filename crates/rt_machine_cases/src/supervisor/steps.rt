//! Ticks and services, done by the rules and by the supervisor.

ghost use Rattle.std.specs.Prelude.{◌<◌, ◌-◌, ◌^◌};

use crate::numbers::tell_number;
use crate::supervisor::pair::Pair;
use rt_rules::{Outcome, Svc};
use rt_words::{Memory, Text};

/// Does steps one after another.
pub fn do_steps(steps: &str, pair: &mut Pair, out: &mut Text) -> Result<(), Memory> {
    for step in steps.split(';') {
        if pair.rules.stamp >= 1 << 63 || pair.rules.clock >= u32::MAX {
            return out.push_all(b"too late; ");
        }
        do_step(step.trim(), pair, out)?;
    }
    Ok(())
}

fn do_step(step: &str, pair: &mut Pair, out: &mut Text) -> Result<(), Memory>
    requires stamp { pair.old.rules.stamp < 2 ^ 63 }
    requires clock { pair.old.rules.clock < 2 ^ 32 - 1 }
{
    if step == "tick" {
        pair.rules.tick();
        pair.supervisor.tick();
        return Ok(());
    }
    match (service_of(step), pair.rules.running()) {
        (Some(service), Some(_)) => {
            let outcome = pair.rules.call(service);
            let _same = pair.supervisor.call(service);
            tell_outcome(outcome, out)
        }
        (Some(_), None) => out.push_all(b"nobody asks; "),
        (None, _) => out.push_all(b"no service; "),
    }
}

fn service_of(step: &str) -> Option<Svc> {
    match step {
        "clock" => Some(Svc::Clock),
        "taskno" => Some(Svc::TaskNo),
        "end" => Some(Svc::End),
        _ => numbered(step),
    }
}

fn numbered(step: &str) -> Option<Svc> {
    let (name, digits) = step.split_once(' ')?;
    let number = digits.parse::<u16>().ok()?;
    match name {
        "delay" => Some(Svc::Delay(number)),
        "wait" => Some(Svc::Wait(number)),
        "signal" => Some(Svc::Signal(number)),
        "secure" => Some(Svc::Secure(number)),
        "release" => Some(Svc::Release(number)),
        "gel" => Some(Svc::Gel(number)),
        _ => None,
    }
}

fn tell_outcome(outcome: Outcome, out: &mut Text) -> Result<(), Memory> {
    match outcome {
        Outcome::Go(answer) => tell_number("goes on with ", u64::from(answer), out)?,
        Outcome::Waits => out.push_all(b"waits")?,
        Outcome::Error(error) => tell_number("error ", u64::from(error), out)?,
        Outcome::Ends => out.push_all(b"ends")?,
    }
    out.push_all(b"; ")
}
