//! Expressions, conditions and modes: from items to trees (BS 5904, expressions, conditions and modes).
//!
//! `specs/Expressions.antt` and `specs/Modes.antt` have the grammar, one part for each line. Each function
//! of a line has one clause, which names the line's parser as a function (`specs/ExpressionParser.antt`,
//! `specs/ModeParser.antt`); `proofs/` has that each of these is right for its line.
#![tactic(auto)]

mod conditions;
mod expressions;
mod limits;
mod modes;
mod table;
mod tree;

pub use conditions::condition;
pub use expressions::{expression, place};
pub use limits::{Context, LIMITS, Limits};
pub use modes::{mode_by_word, procedure, written_mode};
pub use table::{begins_expression, begins_mode, begins_mode_by_word, begins_result, is_link};
pub use tree::{BasicMode, Chain, Cond, Expr, Link, Op1, Op2, Rel, WrittenMode};
