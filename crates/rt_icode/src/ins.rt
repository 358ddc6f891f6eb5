//! The instructions.

use rt_tree_nodes::Rel;
use rt_words::List;

/// How much is read or written at a place: a BYTE, or a word of any other mode.
#[derive(Clone, Copy)]
pub enum Width {
    Byte,
    Word,
}

/// An item of the task's own supplied data. ERL is none of them: [`Ins::Recover`] and [`Ins::Restore`] alone write it.
#[derive(Clone, Copy)]
pub enum OwnItem {
    Ern,
    Erp,
    In,
    Out,
}

/// What is done with one word.
#[derive(Clone, Copy)]
pub enum Alter {
    /// The minus sign.
    Negate,
    /// ABS.
    Absolute,
    /// NOT.
    Complement,
    /// BYTE: the low byte alone.
    LowByte,
}

/// What is done with two words, other than a division.
#[derive(Clone, Copy)]
pub enum Merge {
    Plus,
    Minus,
    Times,
    /// The product of two FRACs.
    FracTimes,
    Land,
    Lor,
    Nev,
    Sll,
    Srl,
    Sla,
    Sra,
}

/// Which part of a division is wanted.
#[derive(Clone, Copy)]
pub enum Division {
    /// `:/`.
    Quotient,
    /// `MOD`.
    Remainder,
}

/// A place whose address is known when the image is: an item of a data brick of the module, or a field of its record, through no
/// REF and no subscript.
#[derive(Drop)]
pub struct Fixed {
    /// The number of the brick in the module.
    pub brick: u16,
    /// The number of the item in the brick, from 0.
    pub item: u16,
    /// The numbers of the fields, from the outermost on.
    pub fields: List<u16>,
    /// How many bytes of the brick stand before it.
    pub offset: u16,
}

/// An instruction. Values are put on a stack and taken off it; locals are counted from 0, the parameters first. `more` leaves out
/// so many instructions behind this one; `to` is the number of an instruction of the procedure, from 0.
#[derive(Drop)]
pub enum Ins {
    /// The frame of the procedure; first, and there alone.
    Enter {
        brick: u16,
        parameters: u16,
        locals: u16,
        recovers: bool,
    },
    /// Puts a number.
    Const(u16),
    /// Puts the row of a string.
    Text(u16),
    /// Puts a procedure brick of the module.
    Routine(u16),
    /// Puts the value of a local.
    LoadLocal(u16),
    /// Takes a value into a local.
    SaveLocal(u16),
    /// Makes a local 0.
    ClearLocal(u16),
    /// Takes a value off.
    Discard,
    /// Puts the address of a fixed place.
    Reach(Fixed),
    /// Puts the row of a fixed array of so many elements.
    ReachRow {
        row: Fixed,
        length: u16,
    },
    /// Reads a fixed place.
    Load {
        width: Width,
        place: Fixed,
    },
    /// Writes a fixed place.
    Save {
        width: Width,
        place: Fixed,
    },
    /// Makes a subscript the address of an element of a fixed array; `size` is an element's bytes.
    ElementAt {
        row: Fixed,
        length: u16,
        size: u16,
    },
    /// Reads an item of the task's own.
    LoadOwn(OwnItem),
    /// Writes an item of the task's own.
    SaveOwn(OwnItem),
    /// Makes the address of a record that of its field, so many bytes on.
    Into {
        field: u16,
        offset: u16,
    },
    /// Makes the address of a record the row of its field, an array.
    IntoRow {
        field: u16,
        offset: u16,
        length: u16,
    },
    /// Makes the address of an array and a subscript the address of an element.
    Element {
        length: u16,
        size: u16,
    },
    /// Makes a row and a subscript the address of an element.
    ElementRow {
        size: u16,
    },
    /// Makes an address what is read there.
    Fetch(Width),
    /// Takes a value and the address under it, and writes there.
    Store(Width),
    /// Makes an address a number: the LENGTH of an array.
    Tell(u16),
    /// Makes a row its length.
    Length,
    /// Changes a word.
    Alter(Alter),
    /// Makes two words one.
    Merge(Merge),
    /// Divides by a number that can't fail: neither 0 nor -1.
    Divide(Division),
    /// Divides by any number. Puts the result and leaves out two instructions; or puts the number of the error. The two are
    /// `LoadOwn(Erp)` and `Report`.
    DivideOr(Division),
    /// Calls the procedure on the stack with the number of the error under it, in whose place 0 comes.
    Report,
    /// Goes forward where the truth of a relation of two values is `when`.
    Test {
        relation: Rel,
        when: bool,
        more: u32,
    },
    /// Goes forward.
    Skip {
        more: u32,
    },
    /// Goes to an instruction: a visible jump.
    Go {
        to: u32,
    },
    /// Takes 1 off the number on the stack; where it is 0 then, drops it and goes to an instruction.
    Case {
        to: u32,
    },
    /// Takes the end of a FOR whose variable is a local, with its step in the next local, and goes forward where there is no
    /// turn. The turns behind the first stand in the local behind the step.
    CountFor {
        local: u16,
        more: u32,
    },
    /// Takes the number of a TO, and goes forward where there is no turn.
    CountTo {
        local: u16,
        more: u32,
    },
    /// Makes a further turn of a FOR, if there is one.
    TurnFor {
        local: u16,
        to: u32,
    },
    /// Makes a further turn of a TO, if there is one.
    TurnTo {
        local: u16,
        to: u32,
    },
    /// Calls a procedure brick of the module with so many arguments; `gives` is whether its result is kept.
    Invoke {
        brick: u16,
        arguments: u16,
        gives: bool,
    },
    /// Calls the procedure that stands under the arguments.
    InvokeBy {
        arguments: u16,
        gives: bool,
    },
    /// Returns with a value.
    GiveUp,
    /// Returns without one.
    Leave,
    /// ERL becomes this frame's record, with an instruction as its label.
    Recover {
        to: u32,
    },
    /// ERL becomes what it was when the procedure was entered.
    Restore,
}
