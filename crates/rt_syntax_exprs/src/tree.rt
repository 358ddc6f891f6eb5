//! The trees. Each node and each name in a node says where it begins.

use rt_grammar::{At, Ident};
use rt_words::{Boxed, Bytes, List, Name};

/// A monadic operator.
#[derive(Clone, Copy, Debug)]
pub enum Op1 {
    Plus,
    Minus,
    Abs,
    Not,
    Length,
    Byte,
    Int,
    Frac,
}

/// A dyadic operator.
#[derive(Clone, Copy, Debug)]
pub enum Op2 {
    Sll,
    Srl,
    Sla,
    Sra,
    Times,
    Divide,
    Mod,
    Land,
    Plus,
    Minus,
    Lor,
    Nev,
}

/// A relation of a comparison.
#[derive(Clone, Copy, Debug)]
pub enum Rel {
    Equal,
    Unequal,
    Less,
    LessOrEqual,
    Greater,
    GreaterOrEqual,
    /// `:=:`
    Same,
    /// `:#:`
    Different,
}

/// An expression. Parentheses leave no node: an operand in parentheses begins at the item inside them,
/// and a dyadic node whose left operand stands in parentheses at the parenthesis.
#[cycle(expressions)]
#[derive(Drop)]
pub enum Expr {
    Number(u16, At),
    Text(Bytes, At),
    Chain(Chain),
    /// `VAL` and a chain, which begins at VAL.
    Val(Chain, At),
    Monadic(Op1, Boxed<Expr>, At),
    Dyadic(Op2, Boxed<Expr>, Boxed<Expr>, At),
}

/// A name and what is selected, subscripted or called from there.
#[cycle(expressions)]
#[derive(Drop)]
pub struct Chain {
    pub name: Name,
    pub links: List<Link>,
    pub at: At,
}

/// One step of a chain.
#[cycle(expressions)]
#[derive(Drop)]
pub enum Link {
    /// `.` and a field's name.
    Dot(Ident, At),
    /// `(`, subscripts or arguments, and `)`.
    Apply(List<Expr>, At),
}

/// A condition. A condition of one comparison is that comparison; `Or` and `And` hold two or more.
#[cycle(conditions)]
#[derive(Drop)]
pub enum Cond {
    Or(List<Cond>, At),
    And(List<Cond>, At),
    Compare(Rel, Expr, Expr, At),
}

/// A mode that is one word.
#[derive(Clone, Copy, Debug, PartialEq, Eq)]
pub enum BasicMode {
    Byte,
    Int,
    Frac,
    Label,
}

/// A mode as it is written.
#[cycle(modes)]
#[derive(Drop)]
pub enum WrittenMode {
    /// A record's name.
    Name(Ident),
    Basic(BasicMode, At),
    /// `ARRAY`, the length in parentheses, and the mode of an element.
    Array(u16, Boxed<WrittenMode>, At),
    Ref(Boxed<WrittenMode>, At),
    /// `REF ARRAY` and the mode of an element.
    RefArray(Boxed<WrittenMode>, At),
    /// `PROC`, the parameters' modes in parentheses, and the result's.
    Proc(List<WrittenMode>, Option<Boxed<WrittenMode>>, At),
}
