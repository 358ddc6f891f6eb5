//! What instructions do to a task as templates see it: its registers as numbers, the words of its brick and of its block as lists,
//! and nothing of the data that tasks share, which may be anything. `specs/Acts.antt` computes what an instruction asks of the memory
//! and leaves; that the machine does so is a law. There is no code here but functions that do nothing, whose contracts are the laws;
//! `specs/Laws.antt` has their statements.
#![tactic(auto)]

mod laws;

pub use laws::{
    acts_are_done, items_are_pushed, numbers_are_pushed, procedures_end, words_are_fetched,
};
