//! What the grammars of bodies and of modules are made of.
//!
//! A part of a grammar is a pair of relations on lists of items, which items fit it and which begin it
//! (`specs/Parts.antt`); a line of a grammar is put together from parts. Beside each part stands its
//! parser as a function (`specs/Parsing.antt`), and `proofs/` has, once for each way of putting parts
//! together, that this parser is right: it answers what fits, and it stops at the first item with which
//! the items read so far begin the part no more. The functions here read one item each.
#![tactic(auto)]

mod at;
mod next;
mod stop;
mod tokens;

pub use at::{At, Ident};
pub use next::Next;
pub use stop::Stop;
pub use tokens::{
    after_mark, after_word, at_of, found_in, ident, label, label_comes, mark_comes, name,
    name_comes, next_of, number, open_mark, open_word, text, word_comes,
};
