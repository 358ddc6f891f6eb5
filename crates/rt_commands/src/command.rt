//! The commands.

ghost use Rattle.std.specs.Prelude.{◌≡◌};
ghost use Rattle.rt_commands.specs.declared.command.WordFault.TheVariants as fault;

use rt_words::Bytes;
use thiserror::Error;

/// A command, with the words after the first in their order. A file is named by the bytes of its word, one or more.
#[derive(Drop)]
pub enum Command {
    /// `go SYSTEM TICKS LIMIT NAME`, with a limit up to 4,000,000,000.
    Go(Bytes, Bytes, u64, Bytes),
    /// `compile SOURCE OBJECT`
    Compile(Bytes, Bytes),
    /// `link SYSTEM IMAGE MAP`
    Link(Bytes, Bytes, Bytes),
    /// `stacks SYSTEM`
    Stacks(Bytes),
    /// `run IMAGE TICKS LIMIT REPORT`, with a limit up to 4,000,000,000.
    Run(Bytes, Bytes, u64, Bytes),
    /// `show OBJECT`
    Show(Bytes),
    /// `gen N NAME`, with a number from 1 to 10,000, and a name of bytes from 33 to 126.
    Gen(u16, Bytes),
}

/// Why words aren't read.
#[derive(Debug, Clone, Copy, Drop, Error)]
pub enum WordFault {
    /// No command has these words.
    #[error("no command has these words")]
    NoCommand,
    #[error("out of memory")]
    Memory,
}

impl From<rt_words::Memory> for WordFault {
    ghost from_gives = { λ memory made. made ≡ fault.Memory };

    fn from(_memory: rt_words::Memory) -> WordFault {
        WordFault::Memory
    }
}
