//! One field.

ghost use Rattle.std.specs.Prelude.{◌≡◌, ◌≤◌, [], length, option_map, IfOk};
ghost use Rattle.rt_words.specs.Named.{IsNameLength};
ghost use Rattle.rt_words.specs.Format.{any, within};
ghost use Rattle.rt_words.specs.Reading as reads;
ghost use Rattle.rt_words.specs.Reading.{Gives, word_at};

use crate::Name;
use crate::stop::Stop;
use byteorder::{ByteOrder, LittleEndian};
use std::alloc::Global;

/// The word in front of the bytes, the low byte first, and the bytes behind it, where it isn't cut.
pub fn front_word(bytes: &[u8]) -> Option<(u16, &[u8])>
    ensures { option_map (λ x. (x.0, x.1.now)) result ≡ word_at bytes.now }
{
    if bytes.len() < 2 {
        return None;
    }
    Some((LittleEndian::read_u16(bytes), &bytes[2..]))
}

/// A word.
pub fn read_word(bytes: &[u8]) -> Result<(u16, &[u8]), Stop>
    ensures { Gives (λ x. (x.0, x.1.now)) result (reads.word any bytes.now) }
{
    front_word(bytes).ok_or(Stop::Refused(bytes.len()))
}

/// A word from `least` to `most`.
pub fn read_word_within(least: u16, most: u16, bytes: &[u8]) -> Result<(u16, &[u8]), Stop>
    ensures word { Gives (λ x. (x.0, x.1.now)) result (reads.word (within least most) bytes.now) }
    ensures range { IfOk result (λ x. (least ≤ x.0) × (x.0 ≤ most)) }
{
    match front_word(bytes) {
        Some((word, rest)) if least <= word && word <= most => Ok((word, rest)),
        _ => Err(Stop::Refused(bytes.len())),
    }
}

/// A byte.
pub fn read_byte(bytes: &[u8]) -> Result<(u8, &[u8]), Stop>
    ensures { Gives (λ x. (x.0, x.1.now)) result (reads.byte any bytes.now) }
{
    match bytes.split_first() {
        Some((byte, rest)) => Ok((*byte, rest)),
        None => Err(Stop::Refused(0)),
    }
}

/// A byte from `least` to `most`.
pub fn read_byte_within(least: u8, most: u8, bytes: &[u8]) -> Result<(u8, &[u8]), Stop>
    ensures byte { Gives (λ x. (x.0, x.1.now)) result (reads.byte (within least most) bytes.now) }
    ensures range { IfOk result (λ x. (least ≤ x.0) × (x.0 ≤ most)) }
{
    match bytes.split_first() {
        Some((byte, rest)) if least <= *byte && *byte <= most => Ok((*byte, rest)),
        _ => Err(Stop::Refused(bytes.len())),
    }
}

/// So many bytes, as one field.
pub fn read_block(count: usize, bytes: &[u8]) -> Result<(&[u8], &[u8]), Stop>
    ensures { Gives (λ x. (x.0.now, x.1.now)) result (reads.block count bytes.now) }
{
    if count <= bytes.len() {
        Ok((&bytes[..count], &bytes[count..]))
    } else {
        Err(Stop::Refused(bytes.len()))
    }
}

/// These bytes and no others, as one field. What stands behind them is answered.
pub fn read_tag<'b>(tag: &[u8], bytes: &'b [u8]) -> Result<&'b [u8], Stop>
    ensures { Gives (λ x. (tt, x.now)) result (reads.tag tag.now bytes.now) }
{
    if bytes.starts_with(tag) {
        Ok(&bytes[tag.len()..])
    } else {
        Err(Stop::Refused(bytes.len()))
    }
}

/// A name behind its length, as one field.
pub fn read_name(alloc: Global, bytes: &[u8]) -> Result<(Name, &[u8]), Stop>
    ensures { Gives (λ x. (x.0, x.1.now)) result (reads.name bytes.now) }
{
    let (name, rest) = front_name(bytes)?;
    match Name::new(alloc, name)? {
        Some(name) => Ok((name, rest)),
        None => Err(Stop::Refused(bytes.len())),
    }
}

/// The bytes of the name in front.
fn front_name(bytes: &[u8]) -> Result<(&[u8], &[u8]), Stop>
    ensures bytes { Gives (λ x. (x.0.now, x.1.now)) result (reads.name bytes.now) }
    ensures size { IfOk result (λ x. IsNameLength (length x.0.now)) }
{
    match bytes.split_first() {
        Some((count, rest)) if is_name(*count, rest) => {
            let count = usize::from(*count);
            Ok((&rest[..count], &rest[count..]))
        }
        _ => Err(Stop::Refused(bytes.len())),
    }
}

/// Whether a name of so many bytes stands in front.
fn is_name(count: u8, bytes: &[u8]) -> bool
    ensures { result ≡ reads.is_name count bytes.now }
{
    1 <= count && count <= 32 && usize::from(count) <= bytes.len()
}

/// The end of the bytes: a byte that stands there is refused.
pub fn read_end(bytes: &[u8]) -> Result<(), Stop>
    ensures { Gives (λ x. (x, [])) result (reads.ended tt bytes.now) }
{
    if bytes.is_empty() {
        Ok(())
    } else {
        Err(Stop::Refused(bytes.len()))
    }
}
