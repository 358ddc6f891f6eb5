//! From the bytes of a module's text to its items (BS 5904, items): the pieces of `rt_pieces` mean items, LETs are taken out,
//! and their names are replaced.
//!
//! `specs/Lets.antt` says which items a text has; [`items`] answers them, or the first fault with its line, and by
//! [`one_reading`] a text has one reading. `specs/Ranges.antt` has the law of how large items are: a name has at most 32
//! bytes, a number is below 65,536, and a string has at most 8,191 bytes ([`items_are_in_range`]).
#![tactic(auto)]

mod expand;
mod laws;
mod meaning;
mod read;
mod rope;
mod table;
mod texts;

pub use laws::items_are_in_range;
pub use read::{items, one_reading};
pub use rt_pieces::{Item, ItemKind, Mark, TextFault, Word};
