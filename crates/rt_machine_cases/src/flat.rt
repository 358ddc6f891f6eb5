//! A flat memory and registers, as cases begin with them, and the names of faults.

use pdp_core::{Bus, FlatBus, Kind, MEMORY_END, Protection, Regs};

/// The whole memory as data, while words are laid down.
pub const ALL: Protection = Protection {
    code_end: 0,
    data_end: MEMORY_END,
    block: 0,
    brick: 0,
    brick_end: 0,
};

/// All registers 0.
pub const CLEAR: Regs = Regs {
    r: [0; 8],
    n: false,
    z: false,
    v: false,
    c: false,
};

/// Lays words down from an address on, and answers the one behind them. A word that the memory refuses is left out.
pub fn put_words(bus: &mut FlatBus, from: u16, words: &[u16]) -> u16 {
    let mut at = from;
    for word in words {
        let _ = bus.write_word(at, *word);
        at = at.wrapping_add(2);
    }
    at
}

/// The name of a fault.
pub fn fault_name(kind: Kind) -> &'static str {
    match kind {
        Kind::Odd => "Odd",
        Kind::Reserved => "Reserved",
        Kind::Access => "Access",
        Kind::BadJump => "BadJump",
    }
}
