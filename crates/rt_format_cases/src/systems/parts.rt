//! What a system text has.

use crate::told::tell_count;
use rt_system::{Entry, System, Task};
use rt_words::{Memory, Text};

/// The entries, and the tasks with their lines. There is a task in each system.
pub fn tell_system(system: &System, out: &mut Text) -> Result<(), Memory> {
    for entry in system.entries() {
        tell_entry(entry, out)?;
        out.push_all(b"; ")?;
    }
    for (number, task) in system.tasks().iter().enumerate() {
        if number > 0 {
            out.push(b' ')?;
        }
        tell_task(task, out)?;
    }
    Ok(())
}

fn tell_entry(entry: &Entry, out: &mut Text) -> Result<(), Memory> {
    match entry {
        Entry::Module(file) => tell_file(b"module ", file.as_slice(), out),
        Entry::Object(file) => tell_file(b"object ", file.as_slice(), out),
        Entry::Library => out.push_all(b"library"),
    }
}

fn tell_file(kind: &[u8], file: &[u8], out: &mut Text) -> Result<(), Memory> {
    out.push_all(kind)?;
    out.push_all(file)
}

fn tell_task(task: &Task, out: &mut Text) -> Result<(), Memory> {
    out.push_all(b"task ")?;
    out.push_all(task.name.as_slice())?;
    out.push(b' ')?;
    out.push_all(task.root.as_slice())?;
    out.push(b' ')?;
    out.push_all(task.stack.as_slice())?;
    tell_count(" ", u64::from(task.priority), out)?;
    tell_count(" at line ", u64::from(task.line), out)?;
    out.push(b';')
}
