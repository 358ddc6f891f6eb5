//! The frame of a procedure.

use rt_modes::Mode;
use rt_words::List;

/// What is called at a point.
#[derive(Drop)]
pub enum Target {
    /// A procedure brick of the module, by its number.
    Brick(u16),
    /// A candidate of a variable's PROC mode.
    Variable(Mode),
    /// A candidate of PROC(INT), by the error of a division.
    Error,
}

/// A point of a procedure where it may call.
#[derive(Drop)]
pub struct CallPoint {
    /// The words of the stack below the call: operands, references and arguments that wait. That of the variable which is
    /// called isn't among them.
    pub depth: u16,
    /// The number of arguments.
    pub args: u16,
    pub target: Target,
}

/// What a procedure takes of the stack, in words.
#[derive(Drop)]
pub struct Frame {
    /// The parameters, of one word each.
    pub params: u16,
    /// The locals behind them: one word each, three for each loop, and four more where the procedure recovers.
    pub locals: u16,
    /// The greatest depth of its expressions and assignments; 0 where it has none.
    pub deep: u16,
    /// The points in the order of the text, each behind those of its arguments.
    pub calls: List<CallPoint>,
}
