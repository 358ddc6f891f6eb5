//! What the texts of modules promise to the laws of code and layout (BS 5904). There is no code here but functions that do nothing,
//! whose contracts are the laws.
//!
//! - `specs/Trees.antt`: what the typed tree of one text has: nodes that fit, records with fields, items with names, procedures that
//!   recover nowhere and have 6 items or more.
//! - `specs/Systems.antt`: what the modules of texts have together, and what they have where they match.
#![tactic(auto)]

mod systems;
mod trees;

pub use systems::{fitting_modules_promise, lists_have_texts, texts_promise};
pub use trees::{items_are_ranged, trees_promise};
