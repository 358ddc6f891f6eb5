//! Statements and bodies: from items to trees (BS 5904, statements); and the strings of a body.
//!
//! `specs/Statements.antt` has the grammar, one part for each line, over the expressions, conditions and modes of
//! `rt_syntax_exprs`; `specs/Derives.antt` says which body a list of items derives and which item is unfit. [`parse_body`]
//! answers that body, or the unfit item's line.
//!
//! `specs/Strings.antt` says which strings stand in the expressions of a body, each with its item, by a fold over the syntax
//! tree; [`add_strings`] appends them to a list.
#![tactic(auto)]

mod fault;
mod parse;
mod statements;
mod strings;
mod table;
mod tree;

pub use fault::SyntaxFault;
pub use parse::{line_left, one_body, parse_body};
pub use rt_grammar::{At, Ident};
pub use rt_syntax_exprs::{
    BasicMode, Chain, Cond, Context, Expr, LIMITS, Limits, Link, Op1, Op2, Rel, WrittenMode,
};
pub use statements::{body, names};
pub use strings::{Text, add_strings, in_expr};
pub use tree::{Body, Branch, Control, Local, Locals, Simple, Stmt};
