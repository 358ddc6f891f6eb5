//! Fields of one byte or one word.

ghost use Rattle.rt_words.specs.Reading as reads;
ghost use Rattle.rt_words.specs.Reading.{Gives};
ghost use Rattle.rt_modes.specs.Spelling.{code_at, record_of, count_of};

use crate::code::{Code, Place, code_at};
use rt_words::{Stop, front_word};

/// The code of a mode at a place where so many more modes may open, and so many more REF stand in the row.
pub fn code(place: Place, levels: usize, refs: usize, bytes: &[u8]) -> Result<(Code, &[u8]), Stop>
    ensures { Gives (λ x. (x.0, x.1.now)) result (reads.byte (code_at place levels refs) bytes.now) }
{
    match bytes.split_first() {
        Some((byte, rest)) => match code_at(*byte, place, levels, refs) {
            Some(code) => Ok((code, rest)),
            None => Err(Stop::Refused(bytes.len())),
        },
        None => Err(Stop::Refused(0)),
    }
}

/// The number of parameters.
pub fn count(bytes: &[u8]) -> Result<(u8, &[u8]), Stop>
    ensures { Gives (λ x. (x.0, x.1.now)) result (reads.byte count_of bytes.now) }
{
    match bytes.split_first() {
        Some((count, rest)) if *count <= 32 => Ok((*count, rest)),
        _ => Err(Stop::Refused(bytes.len())),
    }
}

/// The number of one of so many records.
pub fn record(records: u16, bytes: &[u8]) -> Result<(u16, &[u8]), Stop>
    ensures { Gives (λ x. (x.0, x.1.now)) result (reads.word (record_of records) bytes.now) }
{
    match front_word(bytes) {
        Some((record, rest)) if record < records => Ok((record, rest)),
        _ => Err(Stop::Refused(bytes.len())),
    }
}
