//! The laws, as the contracts of functions that do nothing.

ghost use Rattle.rt_bricks_laws.specs.Counted.{ProceduresAreCounted};
ghost use Rattle.rt_bricks_laws.specs.Laws.{ItemsAreCounted, BodiesAreBroad, LabelsAreFew};
ghost use Rattle.rt_bricks_laws.specs.Modes.{ModesAreShallow, DeeperIsShallow};
ghost use Rattle.rt_bricks_laws.specs.Numbers.{NumbersAreWords};
ghost use Rattle.rt_bricks_laws.specs.Strings.{StringsRise, StringsAreItems, StringsAreShort, SomeRise, SomeAreShort};
ghost use Rattle.rt_bricks_laws.specs.SpelledDeclarations.{DeclarationsAreSpelled};
ghost use Rattle.rt_bricks_laws.specs.Spelled.{NamesAreWords};

/// From its PROC to its ENDPROC each procedure of a module has at least as many items as its parts have.
pub fn procedures_are_counted()
    ensures { ProceduresAreCounted }
{}

/// A procedure's items, from PROC to ENDPROC, are fewer than 65,536, and no fewer than those of its parts.
pub fn items_are_counted()
    ensures { ItemsAreCounted }
{}

/// In the body of each procedure a SWITCH has a label, an IF a branch, and what AND and OR join are two or more.
pub fn bodies_are_broad()
    ensures { BodiesAreBroad }
{}

/// The body of each procedure has fewer than 65,536 labels.
pub fn labels_are_few()
    ensures { LabelsAreFew }
{}

/// In each mode that a module writes no more modes open, and no more REF stand in a row, than may where it stands; a procedure
/// has at most 32 parameters.
pub fn modes_are_shallow()
    ensures { ModesAreShallow }
{}

/// A mode in which so many modes may open may stand where more may.
pub fn deeper_is_shallow()
    ensures { DeeperIsShallow }
{}

/// The strings of a module's bodies and starts stand each behind the one before it.
pub fn strings_rise()
    ensures { StringsRise }
{}

/// Each string of a module's bodies and starts is that of an item.
pub fn strings_are_items()
    ensures { StringsAreItems }
{}

/// Where each item is as large as an item may be, each string has at most 8,191 bytes, each of 8 bits.
pub fn strings_are_short()
    ensures { StringsAreShort }
{}

/// Some of the strings, in the same order, stand each behind the one before it, too.
pub fn some_rise()
    ensures { SomeRise }
{}

/// Some of the strings are short, too.
pub fn some_are_short()
    ensures { SomeAreShort }
{}

/// Where each item is as large as an item may be, each number that a module writes is a word of 16 bits.
pub fn numbers_are_words()
    ensures { NumbersAreWords }
{}

/// Each name of a text is a word of digits and letters, not empty, and none of the words of modes.
pub fn names_are_words()
    ensures { NamesAreWords }
{}

/// Where each name among the items is such a word, so are the names of records, of their fields, and of the items of data.
pub fn declarations_are_spelled()
    ensures { DeclarationsAreSpelled }
{}
