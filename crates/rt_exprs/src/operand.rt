//! What an expression is by itself, and what is wanted of it.

use rt_grammar::At;
use rt_modes::Mode;
use rt_tree_nodes::{Place, Value};

/// A mode of one word that a value may have.
#[derive(Clone, Copy)]
pub enum Base {
    Byte,
    Int,
    Frac,
}

/// Whether the reference of a place may be taken.
#[derive(Clone, Copy, Debug)]
pub enum Standing {
    /// In an own, ENT or EXT data brick, in a string, or where a reference leads.
    Shared,
    /// In a parameter, a local or SVC data: its reference can't be taken.
    Private,
}

/// What an expression is by itself.
#[derive(Drop)]
pub enum Meant<'a> {
    Number(u16),
    /// A string of the module, by its number.
    Text(u16),
    /// A procedure brick, by its number, and its mode.
    Brick(u16, &'a Mode),
    Place(Place, &'a Mode, Standing),
    /// The variable of a FOR loop, by the number of its local: a place of mode INT that can't be assigned
    /// and whose reference can't be taken.
    Loop(u16),
    /// The result of a call.
    Result(Value, &'a Mode),
    /// The result of an operator.
    Computed(Value, Base),
    /// A call of a procedure without result.
    Done(Value),
}

/// An expression: where it begins, and what it is by itself.
#[derive(Drop)]
pub struct Operand<'a> {
    pub at: At,
    pub is: Meant<'a>,
    /// Whether all of it is known. Where it isn't, `is` has the right mode, and others stand for those of its parts that can't be
    /// known: such an operand becomes no value.
    pub known: bool,
}

/// The mode that is wanted of a value.
#[derive(Clone, Copy)]
pub enum Wanted<'a> {
    Basic(Base),
    /// REF to this mode.
    Ref(&'a Mode),
    /// REF ARRAY of this mode.
    Row(&'a Mode),
    /// This mode, a PROC.
    Proc(&'a Mode),
    /// A record, an array or LABEL, of which there is no value.
    Nothing,
}
