//! How many bytes the values of a module's modes have, and which records contain which (BS 5904, modes; the layout is this
//! project's own).
//!
//! `specs/Sizes.antt` has the definitions, on plain data: the size of a value of a mode, where the fields of a record lie, and
//! the field with which they pass 57,344 bytes. A record that contains itself other than through REF or PROC has no size.
//! `specs/Capped.antt` has what is kept of a size: the number of bytes up to 57,344, or that it is larger. `specs/Containing.antt` has
//! which records contain which, and `specs/Rings.antt` those that contain themselves: they are on cycles of the graph of records
//! (`rt_digraph`).
#![tactic(auto)]

mod contain;
mod fields;
mod first;
mod order;
mod settle;
mod size;
mod value;

pub use contain::contains_itself;
pub use fields::{data_size, field_offset, passing_field};
pub use first::{first_ring, is_ring, mark_rings};
pub use order::inner_first;
pub use settle::record_sizes;
pub use size::Size;
