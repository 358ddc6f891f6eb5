// What a division gives, and the kinds of shift.

/// What the division of two signed words gives.
#[derive(Clone, Copy)]
pub enum Quotient {
    /// The quotient, rounded towards zero, and the remainder, which has the dividend's sign.
    Ok(u16, u16),
    /// The divisor is 0.
    Zero,
    /// -32,768 by -1: the quotient is no word.
    Wide,
}

/// The shift operators.
#[derive(Clone, Copy)]
pub enum Shift {
    /// To the left; zeros come in.
    Sll,
    /// To the right; zeros come in.
    Srl,
    /// To the left; zeros come in.
    Sla,
    /// To the right; copies of the sign come in.
    Sra,
}
