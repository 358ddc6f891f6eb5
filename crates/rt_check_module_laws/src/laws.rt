//! The laws, as the contracts of functions that do nothing.

ghost use Rattle.rt_check_module_laws.specs.Modules.{RecordsFit, NamesHold, ModulesFit, ModulesStayWithin};
ghost use Rattle.rt_check_module_laws.specs.Tables.{DataItemsAreFields, RecordsAreTables};
ghost use Rattle.rt_check_module_laws.specs.Starts.{StartsFit, ReadStartsFit, AllAreFields, EachItemHasAPart};

/// In a module in which no fault stands the modes of all fields may stand: each is known.
pub fn records_fit()
    ensures { RecordsFit }
{}

/// In a module in which no fault stands each name that a procedure sees outside of itself stands for what is there in the
/// tree, with that mode.
pub fn names_hold()
    ensures { NamesHold }
{}

/// The tree of a module in which no fault stands is one of which every node fits, so that it is a typed module.
pub fn modules_fit()
    ensures { ModulesFit }
{}

/// In the tree of a module in which no fault stands each procedure stays within what a procedure may take: its parameters,
/// locals and depths, and at most 12 words of code and 24 unmarked instructions an item.
pub fn modules_stay_within()
    ensures { ModulesStayWithin }
{}

/// In a module in which no fault stands the records can be told apart by their names, and their fields are fields.
pub fn records_are_tables()
    ensures { RecordsAreTables }
{}

/// In a module in which no fault stands the items of data bricks are fields, but for those of supplied data.
pub fn data_items_are_fields()
    ensures { DataItemsAreFields }
{}

/// Where names and tree agree, the starts that are made for a data brick fit its items as the typed tree asks: where no fault
/// stands in the items, and so where the starts are read. Each item of a brick has a part that says what it is declared with;
/// where no fault stands in the modes of its lines, that is a mode.
pub fn what_is_made_fits()
    ensures made { StartsFit }
    ensures read { ReadStartsFit }
    ensures fields { AllAreFields }
    ensures parts { EachItemHasAPart }
{}
