//! Images: what the machine is loaded with, the ranges that an image keeps, its bytes, and where its parts lie in the memory.
//!
//! `specs/Ranges.antt` has the ranges, `specs/Grammar.antt` the bytes field by field, and `specs/Memory.antt` the memory that an
//! image makes.
#![tactic(auto)]

mod fault;
mod image;
mod laws;
mod map;
mod ranges;
mod read;
mod tasks;
mod write;

pub use fault::ImageFault;
pub use image::{Image, ImageParts, ImageTask};
pub use laws::{images_are_spelled, images_lie_in_memory};
pub use map::{Map, MapProc, MapTask};
pub use read::read_image;
pub use write::write_image;
