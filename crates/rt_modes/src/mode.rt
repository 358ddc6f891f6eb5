//! Modes, and the records of a module.

use rt_words::{Boxed, List, Name};

/// A mode (BS 5904, modes). A record is known by its number in a table.
#[derive(Debug, Drop)]
#[cycle(modes)]
pub enum Mode {
    Byte,
    Int,
    Frac,
    Label,
    Ref(Boxed<Mode>),
    RefArray(Boxed<Mode>),
    /// The number of elements, and the mode of each.
    Array(u16, Boxed<Mode>),
    /// The number of the record, counted from 0.
    Record(u16),
    /// The modes of the parameters, and the mode of the result, where there is one.
    Proc(List<Mode>, Option<Boxed<Mode>>),
}

/// A field of a record.
#[derive(Debug, Drop)]
pub struct Field {
    pub name: Name,
    pub mode: Mode,
}

/// A record that a module declares.
#[derive(Drop)]
pub struct RecordDef {
    pub name: Name,
    pub fields: List<Field>,
}

/// The records of a module, in their order.
#[derive(Drop)]
pub struct ModeTable {
    pub records: List<RecordDef>,
}
