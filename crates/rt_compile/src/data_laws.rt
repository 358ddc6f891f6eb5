//! What the bytes of a data brick keep. There is no code here but functions that do nothing, whose contracts are the laws;
//! `specs/DataLaws.antt` has their statements.

ghost use Rattle.rt_compile.specs.DataLaws as laws;

/// The places of relocations rise, are even, and lie in the bytes, whatever the starts are.
pub fn places_are_within()
    ensures { laws.PlacesAreWithin }
{}

/// Where every node of a module fits, each brick and string that its own and ENT data bricks name is one of the module.
pub fn places_are_named()
    ensures { laws.PlacesAreNamed }
{}

/// Where every node of a module fits, each of its own and ENT data bricks has as many bytes as its items.
pub fn bytes_are_counted()
    ensures { laws.BytesAreCounted }
{}
