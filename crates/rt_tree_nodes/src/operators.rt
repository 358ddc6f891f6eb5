//! The operators and relations of the typed tree.

/// A monadic operator.
#[derive(Clone, Copy, Debug)]
pub enum Op1 {
    Plus,
    Minus,
    Abs,
    Not,
    Byte,
    Int,
    Frac,
}

/// A dyadic operator. The product of FRACs is one of its own.
#[derive(Clone, Copy, Debug)]
pub enum Op2 {
    Sll,
    Srl,
    Sla,
    Sra,
    Times,
    FracTimes,
    Divide,
    Mod,
    Land,
    Plus,
    Minus,
    Lor,
    Nev,
}

/// A relation of a comparison.
#[derive(Clone, Copy, Debug)]
pub enum Rel {
    Equal,
    Unequal,
    Less,
    LessOrEqual,
    Greater,
    GreaterOrEqual,
    /// `:=:`
    Same,
    /// `:#:`
    Different,
}
