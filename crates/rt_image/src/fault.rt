use thiserror::Error;

/// Why no image is read.
#[derive(Debug, Drop, Error)]
pub enum ImageFault {
    #[error("out of memory")]
    Memory,
    /// The place of the first field that is cut or out of range, or of the first byte behind the last
    /// task.
    #[error("no image: byte {at}")]
    BadImage { at: usize },
}
