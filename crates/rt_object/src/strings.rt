//! The strings of an object.

ghost use Rattle.std.specs.Prelude.{◌≡◌, ◌<◌, ◌^◌, [], length, IfOk};
ghost use Rattle.rt_words.specs.Reading as formats;
ghost use Rattle.rt_words.specs.Reading.{Gives};
ghost use Rattle.rt_object.specs.Reading as reads;

use rt_words::{Bytes, List, Stop, read_block, read_word, read_word_within};
use std::alloc::Global;

/// Strings behind their number.
#[tactic(auto, unfolding(crate::specs::Reading::strings_reader))]
pub fn read_strings(alloc: Global, bytes: &[u8]) -> Result<(List<Bytes>, &[u8]), Stop>
    ensures strings { Gives (λ x. (x.0, x.1.now)) result (reads.strings_reader bytes.now) }
    ensures few { IfOk result (λ x. length x.0 < 2 ^ 16) }
{
    let (count, rest) = read_word(bytes)?;
    read_each_string(alloc, usize::from(count), rest)
}

/// So many strings.
#[tactic(auto, unfolding(rt_words::specs::Reading::each))]
fn read_each_string(alloc: Global, count: usize, bytes: &[u8]) -> Result<(List<Bytes>, &[u8]), Stop>
    ensures strings { Gives (λ x. (x.0, x.1.now)) result (formats.times reads.string_reader count [] bytes.now) }
    ensures number { IfOk result (λ x. length x.0 ≡ count) }
{
    let mut found = List::new(alloc, 0)?;
    let mut rest = bytes;
    for _turn in 0..count {
        let (string, after) = read_string(alloc, rest)?;
        found.push(string)?;
        rest = after;
    }
    Ok((found, rest))
}

#[tactic(auto, unfolding(crate::specs::Reading::string_reader))]
fn read_string(alloc: Global, bytes: &[u8]) -> Result<(Bytes, &[u8]), Stop>
    ensures { Gives (λ x. (x.0, x.1.now)) result (reads.string_reader bytes.now) }
{
    let (count, rest) = read_word_within(0, 8191, bytes)?;
    let (string, rest) = read_block(usize::from(count), rest)?;
    Ok((Bytes::from_slice(alloc, string)?, rest))
}
