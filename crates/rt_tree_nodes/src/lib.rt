//! The nodes of a typed tree: their types, their plain form, and what places and values are where they fit; and the locations
//! and contents of a run.
#![tactic(auto)]

mod brick;
mod copy;
mod found;
mod laws;
mod lent;
mod modes;
mod operator_modes;
mod operators;
mod scope;
mod statement;
mod step;
mod store;
mod supplied;
mod typing;
mod value;

pub use brick::{Brick, BrickSort, DataStart, Kind, Local, ModuleParts, ProcBody};
pub use copy::{copy_lent, copy_mode, copy_value_mode};
pub use laws::same_modes_are_equal;
pub use lent::{Found, Lent, Signature, ValueMode};
pub use modes::same_mode;
pub use operator_modes::{compares, dyadic_mode, monadic_mode};
pub use operators::{Op1, Op2, Rel};
pub use scope::Scope;
pub use statement::{Body, Branch, Labelled, LocalStart, Stat, Test};
pub use step::Step;
pub use store::{Contents, Datum, Location, Origin, Proc};
pub use supplied::{Supplied, is_error_data, is_stream_data};
pub use typing::{found_at, mode_called, mode_of, result_of, suits, suits_as};
pub use value::{Callee, Place, Value};
