//! Laws of full modes, over modes and tables of records alone (BS 5904, modes and linking). There is no code here but
//! functions that do nothing, whose contracts are the laws.
//!
//! `FullModes.antt` and `Opened.antt` of `rt_tree`'s specs have the laws of one module and of two: in a module two modes with
//! one full mode are one mode ([`full_modes_tell_modes`]), and two modes of two modules with one full mode have one first
//! level, and inside it the same full modes ([`full_modes_open`]). `specs/DataItems.antt` says what that makes of the items
//! of two data bricks ([`full_data_open`]).
#![tactic(auto)]

mod laws;

pub use laws::{full_data_open, full_modes_open, full_modes_tell_modes};
