//! Where a linker has put the parts of an image.

use rt_words::{List, Name};

/// Where the parts of an image lie. A part is an address and a number of bytes.
#[derive(Drop)]
pub struct Map {
    pub code: (u16, u16),
    pub data: (u16, u16),
    pub tasks: List<MapTask>,
    pub procs: List<MapProc>,
}

/// A task of a map.
#[derive(Drop)]
pub struct MapTask {
    pub name: Name,
    /// The address of its block.
    pub block: u16,
    /// The address of its stack brick.
    pub stack: u16,
    /// The length of its stack brick in words.
    pub words: u16,
    /// The words that it may need.
    pub need: u16,
}

/// A procedure of a map.
#[derive(Drop)]
pub struct MapProc {
    /// The title of its module.
    pub title: Name,
    pub name: Name,
    /// The address of its first instruction.
    pub at: u16,
}
