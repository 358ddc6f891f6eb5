//! Places, values and calls.

use crate::operators::{Op1, Op2};
use rt_words::{Boxed, List};

/// A place.
#[cycle(values)]
#[derive(Drop)]
pub enum Place {
    /// A parameter or local of the procedure, by its number.
    Local(u16),
    /// An item of a data brick: the numbers of brick and item.
    Item(u16, u16),
    /// An item of the task's own supplied data: 0 ERL, 1 ERN, 2 ERP, 3 IN, 4 OUT.
    Svc(u8),
    /// A field of a record, by its number.
    Field(Boxed<Place>, u16),
    /// An element of an array, by a subscript from 1.
    Element(Boxed<Place>, Boxed<Value>),
    /// The place to which a reference leads.
    Through(Boxed<Value>),
}

/// A value.
#[cycle(values)]
#[derive(Drop)]
pub enum Value {
    Number(u16),
    /// A string of the module, by its number.
    Text(u16),
    /// A procedure brick, by its number.
    Proc(u16),
    /// What is read at a place.
    Read(Boxed<Place>),
    /// The reference of a place; of an array, that of its row.
    Reference(Boxed<Place>),
    /// The number of elements of an array.
    Length(Boxed<Place>),
    Monadic(Op1, Boxed<Value>),
    Dyadic(Op2, Boxed<Value>, Boxed<Value>),
    /// The result of a call with arguments.
    Call(Callee, List<Value>),
}

/// What is called.
#[cycle(values)]
#[derive(Drop)]
pub enum Callee {
    /// A procedure brick, by its number.
    Brick(u16),
    /// The procedure that a value is.
    Through(Boxed<Value>),
}
