//! Laws of modules that the grammar derives (BS 5904, the grammar and its limits): what the checker and the tree want of a
//! text. There is no code here but functions that do nothing, whose contracts are the laws.
//!
//! - `specs/Counts.antt` says how many items the parts of a module have at least: parentheses around an operand leave no
//!   node, so a text may have more; `specs/Counted.antt` has the law.
//! - `specs/Laws.antt` has the laws of a procedure's items, labels and breadth (`specs/Bodies.antt`), `specs/Modes.antt`
//!   those of how deep written modes are (`specs/Shallow.antt`), `specs/Strings.antt` those of strings, and
//!   `specs/Numbers.antt` that of numbers.
//! - `specs/Spelled.antt` has the law of how names are spelled: they are words of digits and letters, and none of the words
//!   of modes; `specs/SpelledDeclarations.antt` says the same of the names that declarations hold.
#![tactic(auto)]

mod laws;

pub use laws::{
    bodies_are_broad, declarations_are_spelled, deeper_is_shallow, items_are_counted,
    labels_are_few, modes_are_shallow, names_are_words, numbers_are_words, procedures_are_counted,
    some_are_short, some_rise, strings_are_items, strings_are_short, strings_rise,
};
