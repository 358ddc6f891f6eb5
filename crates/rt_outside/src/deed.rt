//! What is done to the store or the output.

use rt_words::Bytes;

/// What is done to the store or the output.
#[derive(Drop)]
pub enum Deed<'a> {
    /// The file of a name gets just these bytes.
    Write { name: &'a str, bytes: Bytes },
    /// These bytes go to the output.
    Put(Bytes),
}
