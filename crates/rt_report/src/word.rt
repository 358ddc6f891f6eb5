//! The words of a line.

/// A word of a line.
#[derive(Clone, Copy)]
pub enum Word<'a> {
    Text(&'a [u8]),
    /// In decimal digits.
    Number(u64),
    /// The same behind a minus sign.
    Negative(u64),
    /// Two names with a point between them.
    Dotted(&'a [u8], &'a [u8]),
}
