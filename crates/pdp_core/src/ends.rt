//! Which operands are registers, as types: what is generic over them is built for each by itself.

ghost use Rattle.std.specs.Prelude.{Bool, true, false};

/// Which operands of an instruction are known to be registers, so that no code asks.
pub trait Ends {
    ghost SOURCE: { Bool };

    ghost TARGET: { Bool };

    const SOURCE: bool;

    const TARGET: bool;
}

/// Both.
pub struct Registers;

impl Ends for Registers {
    ghost SOURCE = { true };

    ghost TARGET = { true };

    const SOURCE: bool = true;

    const TARGET: bool = true;
}

/// The source.
pub struct FromRegister;

impl Ends for FromRegister {
    ghost SOURCE = { true };

    ghost TARGET = { false };

    const SOURCE: bool = true;

    const TARGET: bool = false;
}

/// The destination.
pub struct ToRegister;

impl Ends for ToRegister {
    ghost SOURCE = { false };

    ghost TARGET = { true };

    const SOURCE: bool = false;

    const TARGET: bool = true;
}

/// None.
pub struct Anywhere;

impl Ends for Anywhere {
    ghost SOURCE = { false };

    ghost TARGET = { false };

    const SOURCE: bool = false;

    const TARGET: bool = false;
}
