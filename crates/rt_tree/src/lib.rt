//! The typed tree of a module, in which every node fits. Its nodes, and the locations and contents of a run, are those of
//! `rt_tree_nodes`.
#![tactic(auto)]

mod bricks;
mod closing;
mod fitting;
mod laws;
mod module;
mod sight;
mod standing;
mod starts;

pub use closing::is_closed;
pub use laws::{parts_suit_their_modes, writes_keep_modes};
pub use module::TypedModule;
pub use rt_tree_nodes::{
    Body, Branch, Brick, BrickSort, Callee, Contents, DataStart, Datum, Found, Kind, Labelled,
    Lent, Local, LocalStart, Location, ModuleParts, Op1, Op2, Origin, Place, Proc, ProcBody, Rel,
    Scope, Signature, Stat, Step, Test, Value, ValueMode, copy_mode, dyadic_mode, found_at,
    mode_called, mode_of, monadic_mode, result_of, same_mode, same_modes_are_equal, suits,
    suits_as,
};
pub use standing::Standing;
pub use starts::{part_mode, shared_mode};
