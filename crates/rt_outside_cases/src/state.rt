//! What earlier lines have left.

use rt_outside::MemStore;
use rt_words::{Bytes, List, Name};
use std::alloc::Global;

/// Files by name, the first of a name first.
pub type Files = List<(Name, Bytes)>;

/// The files, and the store that was made of them.
#[derive(Drop)]
pub struct State {
    pub files: Files,
    pub store: Option<MemStore>,
}

impl State {
    /// Nothing.
    pub fn new(alloc: Global) -> State {
        State {
            files: List::from_vec(Vec::new(alloc)),
            store: None,
        }
    }
}
