use thiserror::Error;

/// Why no object is read.
#[derive(Debug, Drop, Error)]
pub enum ObjectFault {
    #[error("out of memory")]
    Memory,
    /// The place of the first field that is cut or out of range, or of the first byte behind the last number
    /// of a procedure that stands as a value.
    #[error("no object: byte {at}")]
    BadObject { at: usize },
    /// The version that the bytes name, where they begin as an object of another version does.
    #[error("an object of version {found}")]
    Version { found: u8 },
}
