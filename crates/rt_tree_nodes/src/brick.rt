//! The parts of a module.

use crate::statement::Body;
use rt_modes::{Field, Mode, ModeTable};
use rt_words::{Bytes, List, Name};

/// How a brick is declared.
#[derive(Clone, Copy, Debug, PartialEq, Eq)]
pub enum Kind {
    Own,
    Ent,
    Ext,
    Svc,
}

/// The start of an item of a data brick.
#[derive(Drop)]
#[cycle(starts)]
pub enum DataStart {
    /// The 16 bits of a BYTE, INT or FRAC.
    Number(u16),
    /// A string of the module, by its number.
    Text(u16),
    /// A procedure brick, by its number.
    Proc(u16),
    /// A place of a data brick: the numbers of brick and item, then fields and subscripts.
    Place(u16, u16, List<u16>),
    /// The elements of an array or the fields of a record.
    List(List<DataStart>),
}

/// A parameter or local of a procedure, which has one word.
#[derive(Drop)]
pub enum Local {
    Variable(Mode),
    /// One of the three of a FOR or TO loop, of mode INT: its variable, its step, or the turns that are left. No
    /// statement assigns it.
    Loop,
}

/// What an own or ENT procedure does.
#[derive(Drop)]
pub struct ProcBody {
    /// The parameters, then the locals in the order of the text, three for each loop before those inside it.
    pub locals: List<Local>,
    /// The number of labels.
    pub labels: u32,
    /// The items from PROC to ENDPROC, both counted.
    pub items: u16,
    /// The bound of its recursion; 0 where it has none.
    pub most: u16,
    pub body: Body,
}

/// What a brick is.
#[derive(Drop)]
pub enum BrickSort {
    /// The mode of a procedure, and what an own or ENT one does.
    Proc(Mode, Option<ProcBody>),
    /// The items of a data brick, and the starts of those of an own or ENT one.
    Data(List<Field>, List<DataStart>),
    /// The words of an own or ENT stack; 0 for an EXT one.
    Stack(u16),
}

/// A brick.
#[derive(Drop)]
pub struct Brick {
    pub kind: Kind,
    pub name: Name,
    pub sort: BrickSort,
}

/// The parts of a module. Bricks stand in the order of declaration, strings in the order of their items.
#[derive(Drop)]
pub struct ModuleParts {
    pub title: Name,
    pub modes: ModeTable,
    pub bricks: List<Brick>,
    pub strings: List<Bytes>,
}
