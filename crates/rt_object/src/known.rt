//! What is known where bricks are read.

use rt_modes::RecordDef;
use rt_sizes::Size;

/// What bricks may name.
#[derive(Clone, Copy)]
pub struct Known<'r> {
    pub records: &'r [RecordDef],
    /// The number of records.
    pub count: u16,
    /// The size of each record.
    pub sizes: &'r [Option<Size>],
    /// The number of strings.
    pub strings: u16,
    /// The number of bricks.
    pub bricks: u16,
}
