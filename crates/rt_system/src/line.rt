//! What a line of a system text says.

ghost use Rattle.std.specs.Prelude.{◌≡◌};
ghost use Rattle.rt_system.specs.Reading.{Gives};
ghost use Rattle.rt_system.specs.ReadingSystems as spec;

use crate::fields::{is_file, is_name, is_spelled, next_field};
use crate::lines::is_blank_line;
use crate::numbers::plain_number;

/// The least urgent priority.
const MOST_PRIORITY: u32 = 255;

/// The words of a task's line. Its names are as written, in any mixture of cases.
#[derive(Clone, Copy)]
pub struct TaskLine<'a> {
    pub name: &'a [u8],
    pub root: &'a [u8],
    pub stack: &'a [u8],
    pub priority: u8,
}

/// What a line says.
#[derive(Clone, Copy)]
pub enum SystemLine<'a> {
    Blank,
    /// A module's text, in this file.
    Module(&'a [u8]),
    /// An object, in this file.
    Object(&'a [u8]),
    Library,
    Task(TaskLine<'a>),
}

/// The fields behind TASK.
#[derive(Clone, Copy)]
struct TaskFields<'a> {
    name: &'a [u8],
    root: &'a [u8],
    stack: &'a [u8],
    priority: &'a [u8],
}

#[tactic(auto, unfolding(crate::specs::ReadingSystems::task_fields))]
fn task_fields(text: &[u8]) -> Option<TaskFields<'_>>
    ensures { Gives (λ f. (f.name.now, (f.root.now, (f.stack.now, f.priority.now)))) result (spec.task_fields text.now) }
{
    let (name, text) = next_field(text)?;
    let (root, text) = next_field(text)?;
    let (stack, priority) = next_field(text)?;
    Some(TaskFields {
        name,
        root,
        stack,
        priority,
    })
}

#[tactic(auto, unfolding(crate::specs::ReadingSystems::task_of))]
fn task_of(fields: TaskFields<'_>) -> Option<TaskLine<'_>>
    ensures { Gives spec.said_task result (spec.task_of (fields.entry.name.now, (fields.entry.root.now, (fields.entry.stack.now, fields.entry.priority.now)))) }
{
    let TaskFields {
        name,
        root,
        stack,
        priority,
    } = fields;
    if !(is_name(name) && is_name(root) && is_name(stack)) {
        return None;
    }
    let priority = plain_number(MOST_PRIORITY, priority)? as u8;
    Some(TaskLine {
        name,
        root,
        stack,
        priority,
    })
}

#[tactic(auto, unfolding(crate::specs::ReadingSystems::task_line))]
fn task_line(text: &[u8]) -> Option<TaskLine<'_>>
    ensures { Gives spec.said_task result (spec.task_line text.now) }
{
    task_of(task_fields(text)?)
}

#[tactic(auto, unfolding(crate::specs::ReadingSystems::file))]
fn file(text: &[u8]) -> Option<&[u8]>
    ensures { Gives (λ it. it.now) result (spec.file text.now) }
{
    if is_file(text) { Some(text) } else { None }
}

/// A line that begins by this word, with this text behind it.
#[tactic(auto, unfolding(crate::specs::ReadingSystems::line_of))]
fn line_of<'a>(word: &[u8], text: &'a [u8]) -> Option<SystemLine<'a>>
    ensures { Gives spec.said result (spec.line_of word.now text.now) }
{
    if is_spelled(b"MODULE", word) {
        Some(SystemLine::Module(file(text)?))
    } else if is_spelled(b"OBJECT", word) {
        Some(SystemLine::Object(file(text)?))
    } else if is_spelled(b"TASK", word) {
        Some(SystemLine::Task(task_line(text)?))
    } else {
        None
    }
}

/// What a line says, or `None` where it has no right form.
#[tactic(auto, unfolding(crate::specs::ReadingSystems::system_line))]
pub fn system_line(line: &[u8]) -> Option<SystemLine<'_>>
    ensures { Gives spec.said result (spec.system_line line.now) }
{
    if is_blank_line(line) {
        return Some(SystemLine::Blank);
    }
    if is_spelled(b"LIBRARY", line) {
        return Some(SystemLine::Library);
    }
    let (word, text) = next_field(line)?;
    line_of(word, text)
}

impl SystemLine<'_> {
    /// Whether it isn't an object that isn't taken.
    pub fn is_taken(self, objects: bool) -> bool
        ensures { result ≡ spec.is_taken objects (spec.said self.entry) }
    {
        match self {
            SystemLine::Object(_) => objects,
            SystemLine::Blank | SystemLine::Module(_) | SystemLine::Library | SystemLine::Task(_) =>
                true,
        }
    }
}
