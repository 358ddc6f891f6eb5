//! The laws of typed stores. Each is a function that does nothing, whose contract is the law.

ghost use Rattle.rt_tree.specs.Stored.{HoldsInside, HoldsWritten};

/// What a typed store holds at a place suits the mode of every part of the place.
pub fn parts_suit_their_modes()
    ensures { HoldsInside }
{}

/// A typed store stays typed where what is written suits its place.
pub fn writes_keep_modes()
    ensures { HoldsWritten }
{}
