//! Many fields of one kind.

ghost use Rattle.std.specs.Prelude.{[]};
ghost use Rattle.rt_words.specs.Format.{any, within};
ghost use Rattle.rt_words.specs.Reading as reads;
ghost use Rattle.rt_words.specs.Reading.{Gives};

use crate::read::{read_byte_within, read_word};
use crate::stop::Stop;
use crate::{Bytes, List};
use std::alloc::Global;

/// So many words, each a field of its own.
#[tactic(auto, unfolding(crate::specs::Reading::each))]
pub fn read_words(alloc: Global, count: usize, bytes: &[u8]) -> Result<(List<u16>, &[u8]), Stop>
    ensures { Gives (λ x. (x.0, x.1.now)) result (reads.times (reads.word any) count [] bytes.now) }
{
    let mut found = List::new(alloc, count.min(bytes.len()))?;
    let mut rest = bytes;
    for _turn in 0..count {
        let (word, after) = read_word(rest)?;
        found.push(word)?;
        rest = after;
    }
    Ok((found, rest))
}

/// So many bytes from `least` to `most`, each a field of its own.
#[tactic(auto, unfolding(crate::specs::Reading::each))]
pub fn read_bytes_within(
    alloc: Global,
    count: usize,
    least: u8,
    most: u8,
    bytes: &[u8],
) -> Result<(Bytes, &[u8]), Stop>
    ensures { Gives (λ x. (x.0, x.1.now)) result (reads.times (reads.byte (within least most)) count [] bytes.now) }
{
    let mut found = List::new(alloc, count.min(bytes.len()))?;
    let mut rest = bytes;
    for _turn in 0..count {
        let (byte, after) = read_byte_within(least, most, rest)?;
        found.push(byte)?;
        rest = after;
    }
    Ok((found, rest))
}
