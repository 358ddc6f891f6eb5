//! The law of layouts, as the contract of a function that does nothing.

ghost use Rattle.std.specs.Prelude.{List};
ghost use Rattle.rt_object.specs.declared.object.ObjectParts.{ObjectParts};
ghost use Rattle.rt_tree_nodes.specs.declared.store.Proc.{Proc};
ghost use Rattle.rt_link.specs.Parts.{FillRoom};

/// The parts of every system lie one after another from address 0 on, each at an even address, and fill just its room.
pub fn parts_fill_room()
    ensures { (objects : List ObjectParts) (stacks : List Proc) → FillRoom objects stacks }
{}
