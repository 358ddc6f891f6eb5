//! Why a format isn't read.

ghost use Rattle.std.specs.Prelude.{◌≡◌};
ghost use Rattle.rt_words.specs.declared.stop.Stop.TheVariants as stop;

/// Why a format isn't read.
#[derive(Clone, Copy, Drop)]
pub enum Stop {
    Memory,
    /// How many bytes are left from the field on that is cut or out of range.
    Refused(usize),
}

impl From<crate::Memory> for Stop {
    ghost from_gives = { λ memory made. made ≡ stop.Memory };

    fn from(_memory: crate::Memory) -> Stop {
        Stop::Memory
    }
}
