//! The laws, as the contracts of functions that do nothing.

ghost use Rattle.rt_tree_laws.specs.DataItems.{FullDataOpen};
ghost use Rattle.rt_tree.specs.Opened.{FullModesOpen};
ghost use Rattle.rt_tree.specs.FullModes.{FullModesTell};

/// Two data bricks of two modules with one full mode have as many items, and each two items that stand at one place have one
/// name and one full mode.
pub fn full_data_open()
    ensures { FullDataOpen }
{}

/// In a module whose records have different names, none of them a word of a mode, two modes with one full mode are one
/// mode.
pub fn full_modes_tell_modes()
    ensures { FullModesTell }
{}

/// Two modes of two modules with one full mode have one first level, and inside it the same full modes: what a REF leads to,
/// the elements of an array, the parameters and the result of a PROC, and the fields of a record, which have one name each.
pub fn full_modes_open()
    ensures { FullModesOpen }
{}
