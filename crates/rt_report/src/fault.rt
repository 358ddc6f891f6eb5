//! What fault lines say.

use pdp_core::Kind;
use rt_words::{Bytes, List, Name};

/// A fault of a module's text that its line tells.
#[derive(Debug, Clone, Copy)]
pub enum TextFault {
    BadCharacter,
    NumberTooLarge,
    OpenString,
    OpenComment,
    BadInsert,
    BadLet,
    TooManyItems,
    LeftOutWord,
    Syntax,
    UnknownName,
    WrongMode,
    NotAssignable,
    WrongCount,
    ReferenceOfLocal,
    DeclaredTwice,
    BadStart,
    UnknownLabel,
    NoResult,
}

/// A form of the language that is left out.
#[derive(Clone, Copy)]
pub enum Form {
    /// LABEL other than that of RRERR's ERL.
    Label,
    /// A use of ERL.
    Recovery,
    /// An array or record as a local, a parameter or a result.
    Whole,
    /// An array of arrays, or an array in a PROC or REF mode.
    Array,
}

/// What a file is read as.
#[derive(Clone, Copy)]
pub enum FileKind {
    Module,
    Object,
    /// A system text or a tick text.
    Lines,
    Image,
}

/// A procedure: that of a module behind the module's title, and a supplied one without.
#[derive(Drop)]
pub struct ProcName {
    pub title: Option<Name>,
    pub name: Name,
}

/// A fault line. Files are the bytes of their words, LIBRARY that of the library; lines count from 1, places in bytes from 0.
#[derive(Drop)]
pub enum FaultLine {
    /// No command has the words.
    Words,
    Text {
        file: Bytes,
        fault: TextFault,
        line: u32,
    },
    LeftOut {
        file: Bytes,
        line: u32,
        form: Form,
    },
    /// The code of a procedure is too long.
    ProcTooLong {
        file: Bytes,
        procedure: Name,
    },
    /// A file has more than 4,194,304 bytes.
    TooLong {
        kind: FileKind,
        file: Bytes,
    },
    BadObject {
        file: Bytes,
        at: u64,
    },
    ObjectVersion {
        file: Bytes,
        found: u8,
    },
    BadLine {
        file: Bytes,
        line: u32,
    },
    /// A line OBJECT where objects aren't taken.
    ObjectLine {
        file: Bytes,
        line: u32,
    },
    BadImage {
        file: Bytes,
        at: u64,
    },
    /// Two ENT bricks have one name.
    Duplicate {
        brick: Name,
    },
    /// An EXT brick has no ENT brick.
    Missing {
        file: Bytes,
        brick: Name,
    },
    /// Two bricks that are to match have other full modes.
    Mismatch {
        file: Bytes,
        brick: Name,
        wanted: Bytes,
        found: Bytes,
    },
    NotSupplied {
        file: Bytes,
        brick: Name,
    },
    Recursion {
        cycle: List<ProcName>,
    },
    /// Words of the stack that a task needs, and has.
    SmallStack {
        task: Name,
        need: u32,
        has: u16,
    },
    BadTask {
        line: u32,
    },
    /// The system has so many bytes.
    NoRoom {
        bytes: u64,
    },
    /// A file isn't there, or can't be read.
    Unread {
        file: Bytes,
    },
    /// The console's input failed.
    Input,
    /// The output failed.
    Output,
    /// An instruction of a task faulted.
    Machine {
        task: Name,
        kind: Kind,
        at: u16,
    },
}
