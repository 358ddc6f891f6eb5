//! The fields of a record or of a data brick.

ghost use Rattle.std.specs.Prelude.{◌≡◌, [], ◌∷◌, ◌++◌, IfOk};
ghost use Rattle.rt_words.specs.Reading as formats;
ghost use Rattle.rt_words.specs.Reading.{Gives};
ghost use Rattle.rt_object.specs.Known.{Knows};
ghost use Rattle.rt_object.specs.Ranges.{field_names};
ghost use Rattle.rt_object.specs.Reading as reads;

use crate::modes::read_field_mode;
use crate::names::{Names, read_new_name};
use rt_modes::Field;
use rt_words::{List, Stop, read_word};
use std::alloc::Global;
use std::collections::BTreeSet;

/// Fields behind their number, over so many records; a label stands only where labels may.
#[tactic(auto, unfolding(crate::specs::Reading::fields_reader))]
pub fn read_fields(
    alloc: Global,
    records: u16,
    labels: bool,
    bytes: &[u8],
) -> Result<(List<Field>, &[u8]), Stop>
    ensures { Gives (λ x. (x.0, x.1.now)) result (reads.fields_reader records labels bytes.now) }
{
    let (count, rest) = read_word(bytes)?;
    read_each_field(alloc, records, labels, usize::from(count), rest)
}

/// So many fields.
#[tactic(auto, unfolding(rt_words::specs::Reading::each))]
fn read_each_field(
    alloc: Global,
    records: u16,
    labels: bool,
    count: usize,
    bytes: &[u8],
) -> Result<(List<Field>, &[u8]), Stop>
    ensures { Gives (λ x. (x.0, x.1.now)) result (formats.each (reads.field_reader records labels) count [] bytes.now) }
{
    let mut found = List::new(alloc, 0)?;
    let mut names = BTreeSet::new(alloc);
    let mut rest = bytes;
    for _turn in 0..count {
        let (field, after) = read_field(
            alloc,
            records,
            labels,
            &mut names,
            found.as_slice(),
            rest,
        )?;
        found.push(field)?;
        rest = after;
    }
    Ok((found, rest))
}

/// A field behind others, whose names are known.
#[tactic(auto, unfolding(crate::specs::Reading::field_reader))]
fn read_field<'b>(
    alloc: Global,
    records: u16,
    labels: bool,
    names: &mut Names,
    _before: &[Field],
    bytes: &'b [u8],
) -> Result<(Field, &'b [u8]), Stop>
    requires { Knows names.old (field_names _before.now) }
    ensures field { Gives (λ x. (x.0, x.1.now)) result (reads.field_reader records labels _before.now bytes.now) }
    ensures known { IfOk result (λ x. Knows names.new (field_names _before.now ++ x.0.name ∷ [])) }
{
    let (name, rest) = read_new_name(alloc, names, bytes)?;
    let (mode, rest) = read_field_mode(alloc, records, labels, rest)?;
    Ok((Field { name, mode }, rest))
}
