//! Items.

use rt_words::{Bytes, Name};

/// A reserved word (BS 5904, items), one variant for each of the 54.
#[derive(Clone, Copy, Debug, PartialEq, Eq)]
pub enum Word {
    Title,
    Option,
    Let,
    Mode,
    Proc,
    EndProc,
    Data,
    EndData,
    Stack,
    Ent,
    Ext,
    Svc,
    Block,
    EndBlock,
    If,
    Then,
    ElseIf,
    Else,
    End,
    For,
    By,
    To,
    Do,
    Rep,
    While,
    Goto,
    Switch,
    Of,
    Return,
    Val,
    Length,
    Byte,
    Int,
    Frac,
    Ref,
    Array,
    Label,
    Abs,
    Not,
    And,
    Or,
    Mod,
    Land,
    Lor,
    Nev,
    Sll,
    Srl,
    Sla,
    Sra,
    Bin,
    Oct,
    Hex,
    Real,
    Code,
}

/// A mark (BS 5904, items), one variant for each of the 19.
#[derive(Clone, Copy, Debug, PartialEq, Eq)]
pub enum Mark {
    /// `;`
    Semicolon,
    /// `,`
    Comma,
    /// `:`
    Colon,
    /// `.`
    Dot,
    /// `(`
    Open,
    /// `)`
    Close,
    /// `:=`
    Becomes,
    /// `=`
    Equal,
    /// `#`
    Unequal,
    /// `<`
    Less,
    /// `<=`
    LessOrEqual,
    /// `>`
    Greater,
    /// `>=`
    GreaterOrEqual,
    /// `:=:`
    Same,
    /// `:#:`
    Different,
    /// `+`
    Plus,
    /// `-`
    Minus,
    /// `*`
    Times,
    /// `:/`
    Divide,
}

/// What an item is.
#[derive(Drop)]
pub enum ItemKind {
    Word(Word),
    /// A name, in upper case.
    Name(Name),
    /// A number below 65,536; it stands for the INT with those 16 bits.
    Number(u16),
    /// A string's bytes, at most 8,191.
    Text(Bytes),
    Mark(Mark),
}

/// An item of a module's text.
#[derive(Drop)]
pub struct Item {
    pub kind: ItemKind,
    /// The line in which the item, or the use of the LET name that it comes from, begins, from 1.
    pub line: u32,
    /// The place where it begins, in bytes from 0.
    pub from: u32,
    /// The place past it, in bytes from 0.
    pub to: u32,
}

/// The line and the span of a piece.
#[derive(Clone, Copy)]
pub struct Span {
    /// The line in which it begins, from 1.
    pub line: u32,
    /// The place where it begins, in bytes from 0.
    pub from: u32,
    /// The place past it, in bytes from 0.
    pub to: u32,
}
