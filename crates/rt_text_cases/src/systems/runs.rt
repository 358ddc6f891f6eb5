//! Runs of systems under ticks.

ghost use Rattle.std.specs.Prelude.{◌≤◌, length};

use crate::case::Case;
use crate::expansion::number;
use crate::stop::Stop;
use crate::systems::shown::show_outcome;
use crate::systems::{may_start, modules_of, tasks_of};
use rt_meaning::{Reached, SourceState, SourceTask, run_system, source_run};
use rt_tree::TypedModule;
use rt_words::List;
use std::alloc::Global;

/// By which call a system is run.
#[derive(Clone, Copy)]
pub enum Way {
    /// From its starting state.
    FromState,
    /// From its modules, by the one call that does all.
    FromModules,
}

/// A run of so many steps, with a tick after each of these numbers of steps, and this input of the console.
#[derive(Clone, Copy)]
struct Plan<'a> {
    way: Way,
    steps: u64,
    placements: &'a [u64],
    input: &'a [u8],
}

/// Writes what the run of so many steps comes to, with a tick after each of the numbers of steps behind it.
pub fn run(alloc: Global, case: &Case, way: Way, rest: &str, out: &mut String) -> Result<(), Stop> {
    let numbers = numbers(alloc, rest)?;
    match numbers.as_slice() {
        [steps, placements @ ..] if *steps <= 100000 && placements.len() <= 200000 => {
            let (steps, input) = (*steps, case.input.as_str().as_bytes());
            let plan = Plan {
                way,
                steps,
                placements,
                input,
            };
            run_case(alloc, case, plan, out)
        }
        _ => Err(Stop::Line),
    }
}

fn numbers(alloc: Global, written: &str) -> Result<List<u64>, Stop> {
    let mut all = List::from_vec(Vec::new(alloc));
    for word in written.split(' ') {
        add_numbers(&mut all, word)?;
    }
    Ok(all)
}

// A number, or `NUMBER*COUNT` for so many of them.
fn add_numbers(all: &mut List<u64>, word: &str) -> Result<(), Stop> {
    let (written, count) = word.split_once('*').unwrap_or((word, "1"));
    let placement = u64::from(number(written)?);
    for _turn in 0..number(count)? {
        all.push(placement)?;
    }
    Ok(())
}

fn run_case(alloc: Global, case: &Case, plan: Plan<'_>, out: &mut String) -> Result<(), Stop>
    requires few { length plan.placements.now ≤ 200000 }
    requires steps { plan.steps ≤ 100000 }
{
    let modules = modules_of(alloc, case, "", out)?;
    run_modules(alloc, case, modules.as_slice(), plan, out)
}

fn run_modules(
    alloc: Global,
    case: &Case,
    modules: &[TypedModule],
    plan: Plan<'_>,
    out: &mut String,
) -> Result<(), Stop>
    requires few { length plan.placements.now ≤ 200000 }
    requires steps { plan.steps ≤ 100000 }
{
    let tasks = tasks_of(alloc, modules, case.tasks.as_slice())?;
    run_tasks(alloc, modules, tasks.as_slice(), plan, out)
}

fn run_tasks(
    alloc: Global,
    modules: &[TypedModule],
    tasks: &[SourceTask],
    plan: Plan<'_>,
    out: &mut String,
) -> Result<(), Stop>
    requires few { length plan.placements.now ≤ 200000 }
    requires steps { plan.steps ≤ 100000 }
{
    if !may_start(modules, tasks) {
        return Err(Stop::Line);
    }
    let Plan {
        way,
        steps,
        placements,
        input,
    } = plan;
    match way {
        Way::FromState => {
            let state = SourceState::start(alloc, modules, tasks)?;
            show_run(&source_run(alloc, state, placements, input, steps)?, out)
        }
        Way::FromModules => {
            let reached = run_system(alloc, modules, tasks, placements, input, steps)?;
            show_run(&reached, out)
        }
    }
}

fn show_run(reached: &Option<Reached>, out: &mut String) -> Result<(), Stop> {
    match reached {
        Some(run) => show_outcome(run.output.as_slice(), run.state.ends().as_slice(), out),
        None => Ok(out.push_str(" no such run")?),
    }
}
