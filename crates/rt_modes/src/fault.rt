use thiserror::Error;

/// Why no mode is read.
#[derive(Debug, Drop, Error)]
pub enum ModeFault {
    #[error("out of memory")]
    Memory,
    /// The place of the first field that is cut or out of range.
    #[error("no mode at byte {at}")]
    BadMode { at: usize },
}
