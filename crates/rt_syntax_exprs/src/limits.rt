/// The limits of the grammar.
#[derive(Clone, Copy)]
pub struct Limits {
    /// How many parentheses may be open at a place.
    pub parentheses: usize,
    /// How many statements may be open at a place.
    pub statements: usize,
    /// How many modes may be open at a place.
    pub modes: usize,
    /// How many items an expression may have.
    pub items: usize,
    /// How many parameters a procedure or a PROC mode may have.
    pub parameters: usize,
    /// How many REF may stand in a row.
    pub references: usize,
}

/// What every line of the grammar is told.
#[derive(Clone, Copy)]
pub struct Context {
    /// The number of items in all, by which an item's number is known.
    pub total: usize,
    pub limits: Limits,
}

/// The limits of the language.
pub const LIMITS: Limits = Limits {
    parentheses: 100,
    statements: 100,
    modes: 100,
    items: 500,
    parameters: 32,
    references: 8,
};
