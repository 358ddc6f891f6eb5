//! What names stand for, and what an expression sees.

ghost use Rattle.std.specs.Prelude.{◌≡◌, ◌==◌, position};

use crate::level::Level;
use crate::records::IndexedRecords;
use indexmap::IndexSet;
use rt_modes::{Mode, ModeTable};
use std::marker::Model;

/// What a name stands for.
#[derive(Drop)]
pub enum Meaning {
    /// A MODE, by the number of its record.
    Mode(u16),
    /// A procedure brick, by its number, and its mode.
    Proc(u16, Mode),
    /// A data brick, by its number.
    Data(u16),
    /// A stack brick, by its number.
    Stack(u16),
    /// An item of an own, ENT or EXT data brick: the numbers of brick and item, and the item's mode.
    Item(u16, u16, Mode),
    /// The same of an SVC data brick that isn't one of the task's own supplied ones.
    SvcItem(u16, u16, Mode),
    /// An item of the task's own supplied data: 0 ERL, 1 ERN, 2 ERP, 3 IN, 4 OUT, and its mode.
    Svc(u8, Mode),
    /// A parameter or a local of the procedure, by its number, and its mode.
    Local(u16, Mode),
    /// The variable of a FOR loop, by the number of its local, of mode INT.
    Loop(u16),
    /// A label, by its number.
    Label(u16),
    /// A procedure brick whose mode can't be known, since its heading is unfit.
    UnknownProc,
    /// An item, a parameter or a local whose mode can't be known, since the mode that is written for it is unfit.
    Unknown,
}

/// What an expression sees: the records of its module, the items of the module's strings, and the levels of names. Contracts
/// see it as a `Sight`.
#[derive(Drop)]
pub struct Scope<'a> {
    modes: &'a IndexedRecords,
    strings: &'a IndexSet<u16>,
    levels: &'a [Level<'a>],
}

impl<'a> Model for Scope<'a> {
    ghost use Rattle.std.specs.Coded.{codes};
    ghost use Rattle.rt_modes.specs.contracts.mode.Mode as trees;
    ghost use Rattle.rt_exprs.specs.Sights.{Sight};

    ghost Value = { Sight };

    ghost coded = { Prim.hlevel (codes, trees.the_row.coded) };

    ghost view = { λ s. record { records = s.modes.now.records; strings = s.strings.now.keys; levels = s.levels.now } };
}

impl<'a> Scope<'a> {
    /// What is seen among these records, items of strings, and levels of names, innermost first. A string's number is its place
    /// among the items, from 0.
    pub fn new(
        modes: &'a IndexedRecords,
        strings: &'a IndexSet<u16>,
        levels: &'a [Level<'a>],
    ) -> Scope<'a>
        ensures { result ≡ record { records = modes.now.records; strings = strings.now.keys; levels = levels.now } }
    {
        Scope {
            modes,
            strings,
            levels,
        }
    }

    /// The records of the module.
    pub fn modes(&self) -> &'a IndexedRecords
        ensures { result.now.records ≡ self.now.records }
    {
        self.modes
    }

    /// The table of the records.
    pub fn table(&self) -> &'a ModeTable
        ensures { result.now.records ≡ self.now.records }
    {
        self.modes.table()
    }

    /// The levels of names, innermost first.
    pub fn levels(&self) -> &'a [Level<'a>]
        ensures { result.now ≡ self.now.levels }
    {
        self.levels
    }

    /// The number of the string that begins at an item.
    pub fn string_at(&self, item: u16) -> Option<usize>
        ensures { result ≡ position (λ x. x == item) self.now.strings }
    {
        self.strings.get_index_of(&item)
    }
}
