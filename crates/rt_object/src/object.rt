//! Objects and their bricks.

ghost use Rattle.std.specs.Prelude.{◌≡◌};
ghost use Rattle.rt_object.specs.Ranges.{HasObjectRanges};

use rt_modes::{Field, Mode, ModeTable};
use rt_words::{Bytes, List, Name};
use std::marker::Model;

/// The parts of an object: what is compiled of a module.
#[derive(Drop)]
pub struct ObjectParts {
    pub title: Name,
    /// The MODEs of the module, in order.
    pub records: ModeTable,
    /// The strings, by their numbers.
    pub strings: List<Bytes>,
    /// The bricks, in the order of their declaration.
    pub bricks: List<Brick>,
    /// The numbers of the procedures that stand as values, rising.
    pub taken: List<u16>,
}

/// An object, whose parts keep their ranges at every moment. Contracts see its parts.
#[derive(Drop)]
pub struct Object {
    parts: ObjectParts,
}

impl Model for Object {
    ghost use Rattle.std.specs.Coded.{codes};
    ghost use Rattle.rt_modes.specs.contracts.mode.Mode as modes;
    ghost use Rattle.rt_object.specs.declared.object.ObjectParts.{ObjectParts};
    ghost use Rattle.rt_object.specs.Ranges.{HasObjectRanges};

    ghost Value = { ObjectParts };

    ghost coded = { Prim.hlevel (codes, modes.the_row.coded) };

    ghost view = { λ o. o.parts };

    ghost invariant = { λ o. HasObjectRanges o.parts };
}

impl Object {
    /// The object of these parts.
    pub fn new(parts: ObjectParts) -> Object
        requires { HasObjectRanges parts }
        ensures { result ≡ parts }
    {
        Object { parts }
    }

    /// Lends the parts.
    pub fn parts(&self) -> &ObjectParts
        ensures parts { result.now ≡ self.now }
        ensures ranges { HasObjectRanges self.now }
    {
        &self.parts
    }
}

/// A brick.
#[derive(Debug, Drop)]
pub struct Brick {
    pub name: Name,
    pub kind: BrickKind,
}

/// Whose a brick is, and what it holds.
#[derive(Debug, Drop)]
pub enum BrickKind {
    /// Of this module alone.
    Own(Content),
    /// Of this module, and seen by others.
    Ent(Content),
    /// Of another module.
    Ext(External),
    /// Of the supervisor.
    Svc(Supplied),
}

/// What a brick of this module holds.
#[derive(Debug, Drop)]
pub enum Content {
    Proc(ProcContent),
    Data(DataContent),
    /// The length of a stack in words.
    Stack(u16),
}

/// What is known of a brick of another module.
#[derive(Debug, Drop)]
pub enum External {
    Proc(Mode),
    Data(List<Field>),
    Stack,
}

/// What is known of a brick of the supervisor.
#[derive(Debug, Drop)]
pub enum Supplied {
    Proc(Mode),
    Data(List<Field>),
}

/// A procedure.
#[derive(Debug, Drop)]
pub struct ProcContent {
    /// A PROC mode.
    pub mode: Mode,
    /// How many items its text has.
    pub items: u16,
    /// How many words its locals take.
    pub locals: u16,
    /// How many words its temporaries take at most.
    pub deep: u16,
    pub calls: List<Call>,
    /// The words of its code.
    pub words: List<u16>,
    /// One mark for each word of the code.
    pub marks: Bytes,
    /// Places count words of the code.
    pub relocations: List<Relocation>,
}

/// A data brick.
#[derive(Debug, Drop)]
pub struct DataContent {
    pub fields: List<Field>,
    pub bytes: Bytes,
    /// Places count bytes, and are even.
    pub relocations: List<Relocation>,
}

/// A point of a procedure where another is called.
#[derive(Debug, Drop)]
pub struct Call {
    /// How many words of temporaries stand below it.
    pub depth: u16,
    /// How many arguments it has.
    pub args: u16,
    pub target: Target,
}

/// What is called.
#[derive(Debug, Drop)]
pub enum Target {
    /// The number of a brick.
    Brick(u16),
    /// A value of a mode.
    Mode(Mode),
    /// The procedure for recoverable errors.
    Error,
}

/// A word that becomes an address.
#[derive(Clone, Copy, Debug)]
pub struct Relocation {
    pub place: u16,
    pub of: Relocated,
    pub offset: u16,
}

/// What a relocated word is the address of.
#[derive(Clone, Copy, Debug)]
pub enum Relocated {
    /// The number of a brick.
    Brick(u16),
    /// The number of a string.
    String(u16),
    /// The number of a routine of the support code, 1 to 32.
    Support(u16),
}
