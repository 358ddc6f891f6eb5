//! System texts.

ghost use Rattle.std.specs.Prelude.{◌≡◌, ◌⊎◌, ◌≤◌, [], ◌∷◌, Ok, Err, ℕ, length, map, IfOk, IfErr, OnOk};
ghost use Rattle.std.specs.List.{list_any};
ghost use Rattle.rt_pieces.specs.Bytes as bytes_of;
ghost use Rattle.rt_system.specs.SystemRanges as ranges;
ghost use Rattle.rt_system.specs.SystemRanges.{IsWithinLimits};
ghost use Rattle.rt_system.specs.Systems as systems;
ghost use Rattle.rt_system.specs.Systems.{IsSystem, IsBadSystemLine, IsObjectLine, RefusesSystem};
ghost use Rattle.rt_system.specs.ReadingSystems as spec;
ghost use Rattle.rt_system.specs.ReadingSystems.{Adds, Refuses};
ghost use Rattle.rt_system.specs.declared.fault.LineFault.TheVariants as fault;
ghost use Rattle.rt_system.specs.declared.parts.SystemParts.{SystemParts};

use crate::fault::LineFault;
use crate::fields::{is_spelled, named};
use crate::line::{SystemLine, TaskLine, system_line};
use crate::lines::first_line;
use crate::parts::{Entry, SystemParts, Task, no_parts};
use rt_words::{Bytes, List, Memory};
use std::alloc::Global;
use std::marker::Model;

/// How many modules a system may have, the library and objects included.
const MOST_ENTRIES: usize = 64;

/// How many tasks a system may have.
const MOST_TASKS: usize = 32;

/// A system: at most 64 entries, at most one of them the library, and 1 to 32 tasks with different names. Contracts
/// see its entries and tasks.
#[derive(Drop)]
pub struct System {
    parts: SystemParts,
}

impl Model for System {
    ghost use Rattle.rt_system.specs.declared.parts.SystemParts.{SystemParts};
    ghost use Rattle.rt_system.specs.SystemRanges.{HasSystemRanges};

    ghost Value = { SystemParts };

    ghost view = { λ system. system.parts };

    ghost invariant = { λ system. HasSystemRanges system.parts };
}

impl System {
    ghost use Rattle.rt_system.specs.SystemRanges.{HasSystemRanges};

    /// Lends the entries, in the order of their lines: modules are numbered from 1 in this order.
    pub fn entries(&self) -> &[Entry]
        ensures entries { result.now ≡ self.now.entries }
        ensures ranges { HasSystemRanges self.now }
    {
        self.parts.entries.as_slice()
    }

    /// Lends the tasks, in the order of their lines: tasks are numbered from 1 in this order.
    pub fn tasks(&self) -> &[Task]
        ensures tasks { result.now ≡ self.now.tasks }
        ensures ranges { HasSystemRanges self.now }
    {
        self.parts.tasks.as_slice()
    }
}

fn has_library(entries: &[Entry]) -> bool
    ensures { result ≡ list_any ranges.is_library entries.now }
{
    entries.iter().any(|entry| entry.is_library())
}

fn is_task(task: &Task, name: &[u8]) -> bool
    ensures { result ≡ spec.is_spelled task.now.name name.now }
{
    is_spelled(task.name.as_slice(), name)
}

fn has_task(parts: &SystemParts, name: &[u8]) -> bool
    ensures { result ≡ spec.has_task parts.now (map bytes_of.upper name.now) }
{
    parts
        .tasks
        .as_slice()
        .iter()
        .any(|task| is_task(task, name))
}

/// Whether a line passes no limit.
fn has_room(parts: &SystemParts, line: SystemLine<'_>) -> bool
    ensures { result ≡ spec.has_room parts.now (spec.said line.entry) }
{
    match line {
        SystemLine::Blank => true,
        SystemLine::Module(_) | SystemLine::Object(_) => parts.entries.len() < MOST_ENTRIES,
        SystemLine::Library => {
            parts.entries.len() < MOST_ENTRIES && !has_library(parts.entries.as_slice())
        }
        SystemLine::Task(task) => parts.tasks.len() < MOST_TASKS && !has_task(parts, task.name),
    }
}

fn made_task(alloc: Global, task: TaskLine<'_>, line: u32) -> Result<Task, Memory>
    requires { spec.HasNames (systems.Task (spec.said_task task)) }
    ensures { IfOk result (λ made. made ∷ [] ≡ systems.tasks_of line (systems.Task (spec.said_task task.entry))) }
{
    Ok(Task {
        name: named(alloc, task.name)?,
        root: named(alloc, task.root)?,
        stack: named(alloc, task.stack)?,
        priority: task.priority,
        line,
    })
}

/// Puts what a line says behind the entries and tasks of the lines before it.
fn push_line(
    alloc: Global,
    number: u32,
    line: SystemLine<'_>,
    parts: &mut SystemParts,
) -> Result<(), Memory>
    requires { spec.HasNames (spec.said line) }
    ensures { OnOk result (parts.new ≡ spec.with_line number parts.old (spec.said line.entry)) }
{
    match line {
        SystemLine::Blank => Ok(()),
        SystemLine::Module(file) => {
            let file = Bytes::from_slice(alloc, file)?;
            parts.entries.push(Entry::Module(file))
        }
        SystemLine::Object(file) => {
            let file = Bytes::from_slice(alloc, file)?;
            parts.entries.push(Entry::Object(file))
        }
        SystemLine::Library => parts.entries.push(Entry::Library),
        SystemLine::Task(task) => {
            let task = made_task(alloc, task, number)?;
            parts.tasks.push(task)
        }
    }
}

/// Adds a line to those before it, where it breaks no rule.
fn add_line(
    alloc: Global,
    objects: bool,
    parts: &mut SystemParts,
    line: &[u8],
    number: u32,
) -> Result<(), LineFault>
    requires { IsWithinLimits parts.old }
    ensures ok { OnOk result (Adds objects parts.old line.now number parts.new) }
    ensures bad { IfErr result (λ f. Refuses objects parts.old line.now number f) }
{
    let Some(said) = system_line(line) else {
        return Err(LineFault::BadLine { line: number });
    };
    if !said.is_taken(objects) {
        return Err(LineFault::ObjectLine { line: number });
    }
    if !has_room(parts, said) {
        return Err(LineFault::BadLine { line: number });
    }
    push_line(alloc, number, said, parts)?;
    Ok(())
}

/// Reads a system text: lines `MODULE file`, `OBJECT file`, `LIBRARY`, `TASK name root stack priority`, and blank
/// lines. Where `objects` is false, the first OBJECT line is refused as one.
pub fn read_system(alloc: Global, bytes: &[u8], objects: bool) -> Result<System, LineFault>
    requires { length bytes.now ≤ 4194304 }
    // What is answered is the system of the text.
    ensures system { IfOk result (λ s. IsSystem objects bytes.now s) }
    // The text of a system isn't refused.
    ensures only { (s : SystemParts) → IsSystem objects bytes.now s → (result ≡ Ok s) ⊎ (result ≡ Err fault.Memory) }
    // The line refused is the first that breaks a rule, or an object that isn't taken, or the line past the last where no task stands.
    ensures refused { IfErr result (RefusesSystem objects bytes.now) }
    // A text with such a line is refused by it.
    ensures line { (n : ℕ) → IsBadSystemLine objects bytes.now n → (result ≡ Err (fault.BadLine n)) ⊎ (result ≡ Err fault.Memory) }
    ensures object { (n : ℕ) → IsObjectLine objects bytes.now n → (result ≡ Err (fault.ObjectLine n)) ⊎ (result ≡ Err fault.Memory) }
{
    let mut parts = no_parts(alloc);
    let mut rest = bytes;
    let mut number: u32 = 0;
    while !rest.is_empty() {
        let (line, after) = first_line(rest);
        number += 1;
        add_line(alloc, objects, &mut parts, line, number)?;
        rest = after;
    }
    if parts.tasks.len() == 0 {
        return Err(LineFault::BadLine { line: number + 1 });
    }
    Ok(System { parts })
}
