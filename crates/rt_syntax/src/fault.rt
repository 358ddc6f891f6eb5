ghost use Rattle.std.specs.Prelude.{◌≡◌};

use thiserror::Error;

/// Why a list of items is no body or no module.
#[derive(Debug, Drop, Error)]
pub enum SyntaxFault {
    #[error("out of memory")]
    Memory,
    /// The number of the unfit item, counted from 0, and its line; where there is none, how many items there are, and
    /// the line of the last one, or 1.
    #[error("syntax error in line {line}")]
    Syntax { item: usize, line: u32 },
}
