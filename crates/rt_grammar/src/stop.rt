ghost use Rattle.std.specs.Prelude.{◌≡◌};
ghost use Rattle.rt_grammar.specs.declared.stop.Stop.TheVariants as stop;

/// Why a parser stops.
#[derive(Drop)]
pub enum Stop {
    Memory,
    /// How many items there are from the unfit one on.
    Unfit(usize),
}

impl From<rt_words::Memory> for Stop {
    ghost from_gives = { λ _ e. e ≡ stop.Memory };

    fn from(_memory: rt_words::Memory) -> Stop {
        Stop::Memory
    }
}
