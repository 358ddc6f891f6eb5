//! The records of an object.

ghost use Rattle.std.specs.Prelude.{◌≡◌, ◌⊎◌, ◌<◌, ◌^◌, List, ℕ, [], ◌∷◌, ◌++◌, map, length, Ok, IfOk};
ghost use Rattle.rt_words.specs.Reading as formats;
ghost use Rattle.rt_words.specs.Reading.{Gives};
ghost use Rattle.rt_words.specs.declared.stop.Stop.TheVariants as stop;
ghost use Rattle.rt_modes.specs.declared.mode.RecordDef.{RecordDef};
ghost use Rattle.rt_object.specs.Grammar.{records_format};
ghost use Rattle.rt_object.specs.Known.{Knows, Meets};
ghost use Rattle.rt_object.specs.Ranges.{record_names};
ghost use Rattle.rt_object.specs.Reading as reads;

use crate::bad::first_bad;
use crate::fields::read_fields;
use crate::names::{Names, read_new_name};
use rt_modes::RecordDef;
use rt_words::{List, Stop, read_word};
use std::alloc::Global;
use std::collections::BTreeSet;

/// Records behind their number. The first that contains itself other than through REF or PROC, or has more
/// than 57,344 bytes, is refused where it begins.
pub fn read_records(alloc: Global, bytes: &[u8]) -> Result<(List<RecordDef>, &[u8]), Stop>
    ensures records { Meets (λ x. (x.0, x.1.now)) result records_format bytes.now }
    ensures few { IfOk result (λ x. length x.0 < 2 ^ 16) }
{
    let (count, behind) = read_word(bytes)?;
    let (records, rest) = read_each_record(alloc, count, usize::from(count), behind)?;
    match first_bad(alloc, records.as_slice())? {
        None => Ok((records, rest)),
        Some(number) => Err(refused_behind(alloc, count, number, behind)),
    }
}

/// The refusal of the field behind so many records.
fn refused_behind(alloc: Global, records: u16, count: usize, bytes: &[u8]) -> Stop
    ensures { (found : List RecordDef) (rest : List ℕ) → formats.each (reads.record_reader records) count [] bytes.now ≡ Ok (found, rest)
        → (result ≡ stop.Memory) ⊎ (result ≡ stop.Refused (length rest)) }
{
    match read_each_record(alloc, records, count, bytes) {
        Ok((_records, rest)) => Stop::Refused(rest.len()),
        Err(stop) => stop,
    }
}

/// The first of so many records.
#[tactic(auto, unfolding(rt_words::specs::Reading::each))]
fn read_each_record(
    alloc: Global,
    records: u16,
    count: usize,
    bytes: &[u8],
) -> Result<(List<RecordDef>, &[u8]), Stop>
    ensures records { Gives (λ x. (x.0, x.1.now)) result (formats.each (reads.record_reader records) count [] bytes.now) }
    ensures number { IfOk result (λ x. length x.0 ≡ count) }
{
    let mut found = List::new(alloc, 0)?;
    let mut names = BTreeSet::new(alloc);
    let mut rest = bytes;
    for _turn in 0..count {
        let (definition, after) = read_record(alloc, records, &mut names, found.as_slice(), rest)?;
        found.push(definition)?;
        rest = after;
    }
    Ok((found, rest))
}

/// A record behind others, whose names are known.
#[tactic(auto, unfolding(crate::specs::Reading::record_reader))]
fn read_record<'b>(
    alloc: Global,
    records: u16,
    names: &mut Names,
    _before: &[RecordDef],
    bytes: &'b [u8],
) -> Result<(RecordDef, &'b [u8]), Stop>
    requires { Knows names.old (record_names _before.now) }
    ensures record { Gives (λ x. (x.0, x.1.now)) result (reads.record_reader records _before.now bytes.now) }
    ensures known { IfOk result (λ x. Knows names.new (record_names _before.now ++ x.0.name ∷ [])) }
{
    let (name, rest) = read_new_name(alloc, names, bytes)?;
    let (fields, rest) = read_fields(alloc, records, false, rest)?;
    Ok((RecordDef { name, fields }, rest))
}
