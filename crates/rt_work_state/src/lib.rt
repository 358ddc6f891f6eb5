//! What an activation of a procedure holds: the trees that its code is, what is still to be done, its values and locals; the
//! store that all activations share, with what is read and written there; and where the labels of a body lead.
//!
//! `specs/Items.antt` has what is to be done and the next visible step, `specs/Nodes.antt` the trees of the code as plain trees, and
//! `specs/Stores.antt` the store, all on plain data.
#![tactic(auto)]

mod copies;
mod labels;
mod node;
mod request;
mod scene;
mod stack;
mod store;

pub use copies::{copy_datum, copy_scene, copy_values};
pub use labels::Body;
pub use node::{CondNode, LabelsNode, PathNode, SeqNode, StmtNode, TermNode, TermsNode};
pub use request::Request;
pub use scene::{Env, Item, Next, Scene};
pub use stack::Stack;
pub use store::{ModuleStore, read, read_own, write, write_own};
