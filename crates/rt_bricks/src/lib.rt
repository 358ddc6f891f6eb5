//! Modules: from items to trees (BS 5904, modules, bricks and modes).
//!
//! `specs/Declarations.antt` and `specs/Modules.antt` have the grammar, one part for each line, over the
//! bodies of `rt_syntax` and the modes of `rt_syntax_exprs`; `specs/Derives.antt` says which module a list
//! of items derives. [`parse_module`] answers that module, or the unfit item's line.
#![tactic(auto)]

mod declarations;
mod fields;
mod modules;
mod parse;
mod starts;
mod table;
mod tree;

pub use fields::fields_are_groups;
pub use parse::{one_module, parse_module};
pub use rt_syntax::SyntaxFault;
pub use tree::{
    DataBrick, DataItem, DataLine, Declaration, Fields, Import, ImportedData, ImportedProcedures,
    ImportedStacks, Module, Parenthesized, ProcedureBrick, RecordMode, Selector, Sign, StackBrick,
    Start,
};
