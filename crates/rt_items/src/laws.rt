//! The law, as the contract of a function that does nothing.

ghost use Rattle.rt_items.specs.Ranges.{ItemsAreInRange};

/// Each item of a text is as large as an item may be.
pub fn items_are_in_range()
    ensures { ItemsAreInRange }
{}
