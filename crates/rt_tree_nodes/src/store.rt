//! What stands in a run: locations, data and their contents. There are no addresses.

use rt_words::List;

/// A procedure, by module and brick; modules count from 1, and module 0 has the supplied procedures by
/// their number.
#[derive(Clone, Copy, Debug, PartialEq, Eq)]
pub struct Proc {
    pub module: u16,
    pub brick: u16,
}

/// Where a shared location begins: a data brick by module and brick, or a string by module and number.
#[derive(Clone, Copy)]
pub enum Origin {
    Brick(u16, u16),
    Text(u16, u16),
}

/// A location of a run.
#[derive(Drop)]
pub enum Location {
    /// From where it begins on, through items, fields and elements by their numbers, each counted from 0.
    Shared(Origin, List<u16>),
    /// An item of the task's own supplied data: 0 ERL, 1 ERN, 2 ERP, 3 IN, 4 OUT.
    Own(u8),
}

/// What a location, a local or an operand holds.
#[derive(Drop)]
pub enum Datum {
    /// A BYTE, INT or FRAC.
    Word(u16),
    /// A REF: the location to which it leads.
    Reference(Location),
    /// A REF ARRAY: the location of the array, and its length.
    Row(Location, u16),
    /// A PROC.
    Procedure(Proc),
    /// A LABEL, of ERL once it has been set: an activation of the task, by its number from the outermost, which is 1, and a
    /// label of its procedure.
    Label(u16, u16),
    /// The answer of a test, which no location holds.
    Truth(bool),
}

/// The contents of a data brick, a string, a record or an array: a datum, or what its parts contain in their order.
#[cycle(contents)]
#[derive(Drop)]
pub enum Contents {
    Datum(Datum),
    Parts(List<Contents>),
}
