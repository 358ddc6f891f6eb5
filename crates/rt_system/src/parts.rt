//! What a system is made of.

ghost use Rattle.std.specs.Prelude.{◌≡◌, [], length};
ghost use Rattle.rt_system.specs.SystemRanges as ranges;

use rt_words::{Bytes, List, Memory, Name};
use std::alloc::Global;

/// A module of a system.
#[derive(Drop)]
pub enum Entry {
    /// A module's text, in this file: 1 or more bytes from 33 to 126, as written.
    Module(Bytes),
    /// An object, in such a file.
    Object(Bytes),
    /// The library, whose text is [`crate::library`].
    Library,
}

impl Entry {
    /// Whether it is the library.
    pub fn is_library(&self) -> bool
        ensures { result ≡ ranges.is_library self.now }
    {
        match self {
            Entry::Module(_) | Entry::Object(_) => false,
            Entry::Library => true,
        }
    }
}

/// A task of a system. Its names are in upper case, and none of them is a reserved word.
#[derive(Drop)]
pub struct Task {
    pub name: Name,
    /// The procedure that is its root.
    pub root: Name,
    /// Its stack brick.
    pub stack: Name,
    /// 1 to 255; a smaller one is more urgent.
    pub priority: u8,
    /// The number of its line in the text, from 1.
    pub line: u32,
}

/// The entries and the tasks of a system, in the order of their lines.
#[derive(Drop)]
pub struct SystemParts {
    pub entries: List<Entry>,
    pub tasks: List<Task>,
}

/// No entries and no tasks.
pub fn no_parts(alloc: Global) -> SystemParts
    ensures entries { result.entries ≡ [] }
    ensures tasks { result.tasks ≡ [] }
{
    SystemParts {
        entries: List::from_vec(Vec::new(alloc)),
        tasks: List::from_vec(Vec::new(alloc)),
    }
}
