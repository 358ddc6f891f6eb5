//! What an object has of a data brick.

ghost use Rattle.std.specs.Prelude.{◌≡◌, true, length, IfOk};
ghost use Rattle.rt_words.specs.Format.{where_true};
ghost use Rattle.rt_words.specs.Reading as formats;
ghost use Rattle.rt_words.specs.Reading.{Gives};
ghost use Rattle.rt_object.specs.Grammar.{is_size, is_within_most, size_of};
ghost use Rattle.rt_object.specs.Ranges.{table_of};
ghost use Rattle.rt_object.specs.Reading as reads;
ghost use Rattle.rt_sizes.specs.Capped.{AreSizes};
ghost use Rattle.rt_sizes.specs.Sizes.{even};

use crate::fields::read_fields;
use crate::known::Known;
use crate::object::DataContent;
use crate::relocations::read_relocations;
use rt_modes::Field;
use rt_sizes::{Size, data_size};
use rt_words::{Bytes, List, Stop, front_word, read_block};
use std::alloc::Global;

#[tactic(auto, unfolding(crate::specs::Reading::data_reader))]
pub fn read_data<'b>(
    alloc: Global,
    known: &Known<'_>,
    bytes: &'b [u8],
) -> Result<(DataContent, &'b [u8]), Stop>
    requires count { known.now.count ≡ length known.now.records.now }
    requires sizes { AreSizes (table_of known.now.records.now) known.now.sizes.now }
    ensures { Gives (λ x. (x.0, x.1.now)) result (reads.data_reader known.now.records.now known.now.strings known.now.bricks bytes.now) }
{
    let (fields, rest) = read_data_fields(alloc, known, false, bytes)?;
    let (bytes, rest) = read_data_bytes(alloc, known, fields.as_slice(), rest)?;
    let (relocations, rest) = read_relocations(alloc, known, 2, bytes.len(), rest)?;
    Ok((
        DataContent {
            fields,
            bytes,
            relocations,
        },
        rest,
    ))
}

/// The fields of a data brick. Where they have more than 57,344 bytes their number is refused.
#[tactic(auto, unfolding(crate::specs::Reading::data_fields))]
pub fn read_data_fields<'b>(
    alloc: Global,
    known: &Known<'_>,
    labels: bool,
    bytes: &'b [u8],
) -> Result<(List<Field>, &'b [u8]), Stop>
    requires count { known.now.count ≡ length known.now.records.now }
    requires sizes { AreSizes (table_of known.now.records.now) known.now.sizes.now }
    ensures fields { Gives (λ x. (x.0, x.1.now)) result (reads.data_fields known.now.records.now known.now.strings known.now.bricks labels bytes.now) }
    ensures size { IfOk result (λ x. is_within_most (size_of known.now.records.now x.0) ≡ true) }
{
    let (fields, rest) = read_fields(alloc, known.count, labels, bytes)?;
    if are_within_most(known, fields.as_slice()) {
        Ok((fields, rest))
    } else {
        Err(Stop::Refused(bytes.len()))
    }
}

fn are_within_most(known: &Known<'_>, fields: &[Field]) -> bool
    requires { AreSizes (table_of known.now.records.now) known.now.sizes.now }
    ensures { result ≡ is_within_most (size_of known.now.records.now fields.now) }
{
    match data_size(known.sizes, fields) {
        Some(Size::Bytes(_)) => true,
        Some(Size::TooLarge) => false,
        None => false,
    }
}

/// So many bytes as the fields take.
#[tactic(auto, unfolding(crate::specs::Reading::data_bytes))]
fn read_data_bytes<'b>(
    alloc: Global,
    known: &Known<'_>,
    fields: &[Field],
    bytes: &'b [u8],
) -> Result<(Bytes, &'b [u8]), Stop>
    requires sizes { AreSizes (table_of known.now.records.now) known.now.sizes.now }
    requires most { is_within_most (size_of known.now.records.now fields.now) ≡ true }
    ensures { Gives (λ x. (x.0, x.1.now)) result (reads.data_bytes known.now.records.now known.now.strings known.now.bricks fields.now bytes.now) }
{
    let (size, rest) = read_size(known, fields, bytes)?;
    let (bytes, rest) = read_block(usize::from(size), rest)?;
    Ok((Bytes::from_slice(alloc, bytes)?, rest))
}

/// How many bytes fields take.
fn read_size<'b>(
    known: &Known<'_>,
    fields: &[Field],
    bytes: &'b [u8],
) -> Result<(u16, &'b [u8]), Stop>
    requires sizes { AreSizes (table_of known.now.records.now) known.now.sizes.now }
    requires most { is_within_most (size_of known.now.records.now fields.now) ≡ true }
    ensures { Gives (λ x. (x.0, x.1.now)) result (formats.word (where_true (is_size (size_of known.now.records.now fields.now))) bytes.now) }
{
    match front_word(bytes) {
        Some((size, rest)) if is_size(known, fields, size) => Ok((size, rest)),
        _ => Err(Stop::Refused(bytes.len())),
    }
}

fn is_size(known: &Known<'_>, fields: &[Field], size: u16) -> bool
    requires sizes { AreSizes (table_of known.now.records.now) known.now.sizes.now }
    requires most { is_within_most (size_of known.now.records.now fields.now) ≡ true }
    ensures { result ≡ is_size (size_of known.now.records.now fields.now) size }
{
    match data_size(known.sizes, fields) {
        Some(Size::Bytes(end)) => even(end) == usize::from(size),
        Some(Size::TooLarge) => false,
        None => false,
    }
}

/// How many bytes a data brick takes whose fields end behind so many: they lie as those of a record do, so the number is
/// rounded up to an even one.
pub fn even(end: u16) -> usize
    ensures { result ≡ even end }
{
    usize::from(end) + usize::from(end % 2)
}
