//! Objects: what is compiled of a module, the ranges that an object keeps, and its bytes.
//!
//! `specs/Ranges.antt` has the ranges, `specs/Grammar.antt` the bytes field by field, and `specs/Spelling.antt` the bytes as
//! they are written.
#![tactic(auto)]

mod bad;
mod bricks;
mod data;
mod fault;
mod fields;
mod known;
mod laws;
mod modes;
mod names;
mod object;
mod procs;
mod read;
mod records;
mod relocations;
mod steps;
mod strings;
mod tag;
mod taken;
mod write;
mod write_bricks;

pub use bad::{first_bad, sizes_of};
pub use bricks::is_rrerr;
pub use data::even;
pub use fault::ObjectFault;
pub use known::Known;
pub use laws::{no_image_is_an_object, objects_are_spelled, objects_are_told};
pub use modes::{is_no_label, is_proc, is_value};
pub use names::note;
pub use object::{
    Brick, BrickKind, Call, Content, DataContent, External, Object, ObjectParts, ProcContent,
    Relocated, Relocation, Supplied, Target,
};
pub use read::read_object;
pub use taken::is_proc_at;
pub use write::write_object;
