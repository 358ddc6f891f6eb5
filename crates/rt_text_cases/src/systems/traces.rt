//! Traces of systems: their steps, each by a letter.

ghost use Rattle.std.specs.Prelude.{◌≡◌, ◌≤◌};
ghost use Rattle.rt_meaning.specs.Source as source;

use crate::case::{Case, TaskLine};
use crate::stop::Stop;
use crate::systems::shown::show_outcome;
use crate::systems::{may_start, modules_of, tasks_of};
use rt_meaning::SourceState;
use rt_tree::{Step, TypedModule};
use rt_words::{Bytes, List};
use std::alloc::Global;

/// Writes what a system does without ticks and input until no task is ready: its steps, its output and the ends of its tasks.
pub fn trace(alloc: Global, case: &Case, piece: &str, out: &mut String) -> Result<(), Stop> {
    let modules = modules_of(alloc, case, piece, out)?;
    trace_modules(alloc, modules.as_slice(), case.tasks.as_slice(), out)
}

/// The same of these modules, with the tasks of these lines.
pub fn trace_modules(
    alloc: Global,
    modules: &[TypedModule],
    lines: &[TaskLine],
    out: &mut String,
) -> Result<(), Stop> {
    let tasks = tasks_of(alloc, modules, lines)?;
    let tasks = tasks.as_slice();
    if !may_start(modules, tasks) {
        return Err(Stop::Line);
    }
    let mut state = SourceState::start(alloc, modules, tasks)?;
    trace_state(alloc, &mut state, out)
}

fn trace_state(alloc: Global, state: &mut SourceState, out: &mut String) -> Result<(), Stop>
    requires stamp { (source.state_of state.now).rules.stamp ≤ 32 }
    requires clock { (source.state_of state.now).rules.clock ≡ 0 }
{
    let mut output = List::from_vec(Vec::new(alloc));
    trace_from(alloc, state, &mut output, out)?;
    show_outcome(output.as_slice(), state.ends().as_slice(), out)
}

fn trace_from(
    alloc: Global,
    state: &mut SourceState,
    output: &mut Bytes,
    out: &mut String,
) -> Result<(), Stop>
    requires stamp { (source.state_of state.now).rules.stamp ≤ 32 }
    requires clock { (source.state_of state.now).rules.clock ≡ 0 }
{
    out.push(' ')?;
    for _step in 0..1000u64 {
        if state.running().is_none() {
            break;
        }
        let (step, put) = state.step(alloc, None)?;
        out.push(letter(step))?;
        if let Some(byte) = put {
            output.push(byte)?;
        }
    }
    Ok(())
}

fn letter(step: Step) -> char {
    match step {
        Step::Read => 'r',
        Step::Write => 'w',
        Step::Call => 'c',
        Step::Return => 't',
        Step::Service => 's',
        Step::Jump => 'j',
        Step::Error(_) => 'e',
    }
}
