//! The law of modes: a function that does nothing, whose contract is the law.

ghost use Rattle.std.specs.Prelude.{◌≡◌, ◌↔◌, IsTrue};
ghost use Rattle.rt_modes.specs.declared.mode.Mode.{Mode};
ghost use Rattle.rt_tree_nodes.specs.Scopes.{same};

/// Two modes are the same exactly where they are equal.
pub fn same_modes_are_equal()
    ensures { (m n : Mode) → IsTrue (same m n) ↔ (m ≡ n) }
{}
