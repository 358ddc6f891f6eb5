//! The tree of a module. Each node and each name in a node says where it begins.

use rt_grammar::{At, Ident};
use rt_syntax::{Body, WrittenMode};
use rt_words::{Bytes, List, Name};

/// A number in parentheses, which begins at its `(`.
#[derive(Clone, Copy)]
pub struct Parenthesized {
    pub number: u16,
    pub at: At,
}

/// The sign before a number.
#[derive(Clone, Copy, Debug)]
pub enum Sign {
    Plus,
    Minus,
}

/// One step from a name in a start.
#[derive(Drop)]
pub enum Selector {
    /// `.` and a field's name, which begins at its `.`.
    Dot(Ident, At),
    Subscript(Parenthesized),
}

/// What a data item holds at the start.
#[cycle(starts)]
#[derive(Drop)]
pub enum Start {
    /// The sign, if there is one, the number, and how many copies of it.
    Number(Option<Sign>, u16, Option<Parenthesized>, At),
    Text(Bytes, At),
    /// A name and what is selected from there, which begins at the name.
    Place(Ident, List<Selector>),
    /// Starts in parentheses, and how many copies of the list.
    List(List<Start>, Option<Parenthesized>, At),
}

/// A mode and the names that have it: fields of a record, parameters, or items of an imported data brick.
#[derive(Drop)]
pub struct Fields {
    pub mode: WrittenMode,
    pub names: List<Ident>,
    pub at: At,
}

/// A name in a data brick, and its start.
#[derive(Drop)]
pub struct DataItem {
    pub name: Ident,
    pub start: Option<Start>,
}

/// A mode and the items of a data brick that have it.
#[derive(Drop)]
pub struct DataLine {
    pub mode: WrittenMode,
    pub items: List<DataItem>,
    pub at: At,
}

/// `MODE`: a record.
#[derive(Drop)]
pub struct RecordMode {
    pub name: Ident,
    pub fields: List<Fields>,
    pub at: At,
}

/// `DATA`: a data brick of the module.
#[derive(Drop)]
pub struct DataBrick {
    /// Whether ENT stands before it.
    pub entry: bool,
    pub name: Ident,
    pub lines: List<DataLine>,
    pub at: At,
}

/// `STACK`: a stack brick of the module.
#[derive(Drop)]
pub struct StackBrick {
    /// Whether ENT stands before it.
    pub entry: bool,
    pub name: Ident,
    /// Its length in words.
    pub length: u16,
    pub at: At,
}

/// `PROC` to `ENDPROC`: a procedure brick of the module, its result written before or after its name.
#[derive(Drop)]
pub struct ProcedureBrick {
    /// Whether ENT stands before it.
    pub entry: bool,
    pub name: Ident,
    pub fields: List<Fields>,
    pub result: Option<WrittenMode>,
    pub body: Body,
    /// Where its PROC stands.
    pub opens: At,
    /// Where its ENDPROC stands.
    pub ends: At,
    pub at: At,
}

/// How a brick of another module is named.
#[derive(Clone, Copy, Debug)]
pub enum Import {
    /// `EXT`: an entry of another module.
    External,
    /// `SVC`: a brick that the supervisor supplies.
    Service,
}

/// `EXT` or `SVC`, a procedure's mode, and the names that have it.
#[derive(Drop)]
pub struct ImportedProcedures {
    pub import: Import,
    pub mode: WrittenMode,
    pub names: List<Ident>,
    pub at: At,
}

/// `EXT DATA` or `SVC DATA`.
#[derive(Drop)]
pub struct ImportedData {
    pub import: Import,
    pub name: Ident,
    pub lines: List<Fields>,
    pub at: At,
}

/// `EXT STACK`.
#[derive(Drop)]
pub struct ImportedStacks {
    pub names: List<Ident>,
    pub at: At,
}

/// A declaration of a module, one variant for each form.
#[derive(Drop)]
pub enum Declaration {
    Record(RecordMode),
    Data(DataBrick),
    Stack(StackBrick),
    Procedure(ProcedureBrick),
    ImportedProcedures(ImportedProcedures),
    ImportedData(ImportedData),
    ImportedStacks(ImportedStacks),
}

/// A module: its title, and its declarations in their order. What else stands in the title, and options,
/// leave nothing.
#[derive(Drop)]
pub struct Module {
    pub title: Name,
    pub title_at: At,
    pub declarations: List<Declaration>,
    pub at: At,
}
