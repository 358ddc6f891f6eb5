//! The outside: the store of files, the console's input and its output, as traits that say what they
//! hold where they tell it, and count their faults; and deeds, which are what a command is to do to the store and the output.
//!
//! [`MemStore`], [`MemSource`], [`MemSink`] and [`SureSource`] are their forms in memory, for tests and for
//! texts that the program makes itself. All four tell what they hold. [`perform`] does deeds one after another, up to the first
//! failure; `specs/Laws.antt` says what follows.
#![tactic(auto)]

mod calls;
mod deed;
mod laws;
mod lookup;
mod mem_sink;
mod mem_source;
mod mem_store;
mod performing;
mod shelf;
mod sink;
mod source;
mod store;
mod sure_source;

pub use deed::Deed;
pub use laws::{
    counts_never_fall, files_change_by_writes, nothing_follows_a_failure, stretches_join,
};
pub use mem_sink::MemSink;
pub use mem_source::MemSource;
pub use mem_store::MemStore;
pub use performing::perform;
pub use sink::{Failed, Sink};
pub use source::{Next, Source};
pub use store::{LONGEST_FILE, Store, StoreError};
pub use sure_source::SureSource;
