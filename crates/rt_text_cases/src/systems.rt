//! The systems of cases: their typed modules, their tasks, and what they do.

ghost use Rattle.std.specs.Prelude.{◌≡◌, ◌<◌, ◌≤◌, All, length, true};
ghost use Rattle.rt_meaning.specs.Roots as roots;
ghost use Rattle.rt_resolve.specs.Systems.{IsNumbered};

mod runs;
mod shown;
mod traces;

use crate::case::{Case, TaskLine, text_with};
use crate::modules::tell;
use crate::stop::Stop;
use rt_check::typed_module;
use rt_meaning::SourceTask;
use rt_resolve::are_numbered;
use rt_tree::TypedModule;
use rt_words::List;
pub use runs::{Way, run};
use std::alloc::Global;
pub use traces::{trace, trace_modules};

/// The modules of a case, with this piece in its texts. Where a text has a fault it is written, and the module is left out.
fn modules_of(
    alloc: Global,
    case: &Case,
    piece: &str,
    out: &mut String,
) -> Result<List<TypedModule>, Stop> {
    let mut modules = List::from_vec(Vec::new(alloc));
    add_modules(alloc, &mut modules, case.texts.as_slice(), piece, out)?;
    Ok(modules)
}

fn add_modules(
    alloc: Global,
    modules: &mut List<TypedModule>,
    frames: &[String],
    piece: &str,
    out: &mut String,
) -> Result<(), Stop> {
    for frame in frames {
        add_module(alloc, modules, frame.as_str(), piece, out)?;
    }
    Ok(())
}

fn add_module(
    alloc: Global,
    modules: &mut List<TypedModule>,
    frame: &str,
    piece: &str,
    out: &mut String,
) -> Result<(), Stop> {
    let text = text_with(alloc, frame, piece)?;
    add_text(alloc, modules, text.as_str(), out)
}

fn add_text(
    alloc: Global,
    modules: &mut List<TypedModule>,
    text: &str,
    out: &mut String,
) -> Result<(), Stop> {
    if text.len() > 4194304 {
        return Err(Stop::Line);
    }
    match typed_module(alloc, text.as_bytes()) {
        Ok(module) => Ok(modules.push(module)?),
        Err(fault) => tell(&fault, out),
    }
}

/// The tasks of these lines, over these modules.
fn tasks_of(
    alloc: Global,
    modules: &[TypedModule],
    lines: &[TaskLine],
) -> Result<List<SourceTask>, Stop> {
    let mut tasks = List::from_vec(Vec::new(alloc));
    for line in lines {
        add_task(&mut tasks, modules, line)?;
    }
    Ok(tasks)
}

fn add_task(
    tasks: &mut List<SourceTask>,
    modules: &[TypedModule],
    line: &TaskLine,
) -> Result<(), Stop> {
    match task_of(modules, line) {
        Some(task) => Ok(tasks.push(task)?),
        None => Err(Stop::Line),
    }
}

fn task_of(modules: &[TypedModule], line: &TaskLine) -> Option<SourceTask> {
    let module = u16::try_from(line.module).ok()?;
    let priority = u8::try_from(line.priority).ok()?;
    let found = modules.get(usize::from(module).checked_sub(1)?)?;
    let brick = brick_named(found, line.root.as_str().as_bytes())?;
    Some(SourceTask {
        root: (module, brick),
        priority,
    })
}

/// The number of the brick of this name.
pub fn brick_named(module: &TypedModule, name: &[u8]) -> Option<u16> {
    for (number, brick) in module.bricks().as_slice().iter().enumerate() {
        if brick.name.as_slice() == name {
            return u16::try_from(number).ok();
        }
    }
    None
}

/// Whether the priorities of these tasks are above 0.
fn are_above_zero(tasks: &[SourceTask]) -> bool
    ensures { result ≡ true → All (λ p. 0 < p) (roots.priorities tasks.now) }
{
    match tasks {
        [] => true,
        [task, rest @ ..] => task.priority > 0 && are_above_zero(rest),
    }
}

/// Whether a run may start from these modules and tasks.
fn may_start(modules: &[TypedModule], tasks: &[SourceTask]) -> bool
    ensures modules { result ≡ true → length modules.now ≤ 64 }
    ensures numbered { result ≡ true → All IsNumbered modules.now }
    ensures some { result ≡ true → 1 ≤ length tasks.now }
    ensures few { result ≡ true → length tasks.now ≤ 32 }
    ensures above_zero { result ≡ true → All (λ p. 0 < p) (roots.priorities tasks.now) }
{
    modules.len() <= 64
        && are_numbered(modules)
        && !tasks.is_empty()
        && tasks.len() <= 32
        && are_above_zero(tasks)
}
