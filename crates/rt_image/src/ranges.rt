//! Whether the parts of an image are in their ranges.

ghost use Rattle.std.specs.Prelude.{◌≡◌, ◌↔◌, ◌+◌, ◌*◌, ◌^◌, ◌≤◌, length, sum, map, All, IsTrue};
ghost use Rattle.rt_image.specs.Grammar.{is_new};
ghost use Rattle.rt_image.specs.Ranges.{HasImageRanges, HasTaskRanges, HaveDifferentNames, IsByte, IsMark, IsWord, task_size};
ghost use Rattle.std.specs.List.{AllByRecursion};

use crate::image::{ImageParts, ImageTask};
use rt_words::Name;

/// How many words of code there may be, and how many words a brick may have.
const WORDS: usize = 28672;

/// How many bytes the parts may take of the memory.
pub const MEMORY: usize = 57344;

/// How many tasks there may be.
const TASKS: usize = 32;

pub fn are_in_range(parts: &ImageParts) -> bool
    ensures { IsTrue result ↔ HasImageRanges parts.now }
{
    let code = parts.code.as_slice();
    let marks = parts.marks.as_slice();
    let bytes = parts.bytes.as_slice();
    let tasks = parts.tasks.as_slice();
    if code.is_empty() || code.len() > WORDS || marks.len() != code.len() {
        return false;
    }
    if bytes.len() > MEMORY || bytes.len() % 2 != 0 || tasks.is_empty() || tasks.len() > TASKS {
        return false;
    }
    let code_end = 2 * code.len();
    words_are_small(code);
    bytes_are_small(bytes);
    if !are_marks(marks) || !are_tasks(tasks, code_end) || !have_different_names(tasks) {
        return false;
    }
    memory_behind(code_end + bytes.len(), tasks) <= MEMORY
}

fn are_marks(marks: &[u8]) -> bool
    ensures { IsTrue result ↔ All IsMark marks.now }
{
    marks.iter().all(|mark| *mark <= 2)
}

fn are_tasks(tasks: &[ImageTask], code_end: usize) -> bool
    ensures { IsTrue result ↔ All (HasTaskRanges code_end) tasks.now }
{
    for task in tasks {
        if !is_task(task, code_end) {
            return false;
        }
    }
    true
}

/// Whether a task is in its ranges, where the code ends at an address. A name always is.
fn is_task(task: &ImageTask, code_end: usize) -> bool
    ensures { IsTrue result ↔ HasTaskRanges code_end task.now }
{
    bytes_are_small(task.name.as_slice());
    words_are_small(task.block.as_slice());
    if task.priority == 0 || task.entry % 2 != 0 || usize::from(task.entry) >= code_end {
        return false;
    }
    1 <= task.stack && usize::from(task.stack) <= WORDS
}

fn have_different_names(tasks: &[ImageTask]) -> bool
    ensures { IsTrue result ↔ HaveDifferentNames tasks.now }
{
    for number in 0..tasks.len() {
        if !is_new(&tasks[..number], &tasks[number].name) {
            return false;
        }
    }
    true
}

/// Whether none of the tasks has a name.
pub fn is_new(tasks: &[ImageTask], name: &Name) -> bool
    ensures { result ≡ is_new tasks.now name.now }
{
    for task in tasks {
        if task.name.as_slice() == name.as_slice() {
            return false;
        }
    }
    true
}

/// How many bytes of the memory are taken behind the bricks of tasks, where so many are before them.
pub fn memory_behind(used: usize, tasks: &[ImageTask]) -> usize
    requires used { used ≤ 2 * 57344 }
    requires tasks { length tasks.now ≤ 32 }
    ensures end { result ≡ used + sum (map task_size tasks.now) }
    ensures bound { result ≤ 2 ^ 24 }
{
    let mut end = used;
    for task in tasks {
        end += 16 + 2 * usize::from(task.stack);
    }
    end
}

/// Bytes are below 256, as their type says.
fn bytes_are_small(_bytes: &[u8])
    ensures { AllByRecursion IsByte _bytes.now }
{}

/// Words are below 65,536, as their type says.
fn words_are_small(_words: &[u16])
    ensures { AllByRecursion IsWord _words.now }
{}
