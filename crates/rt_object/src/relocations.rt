//! The relocations of a part.

ghost use Rattle.std.specs.Prelude.{◌≡◌, ◌≤◌, [], IfOk, IsTrue};
ghost use Rattle.rt_words.specs.Format.{where_true};
ghost use Rattle.rt_words.specs.Reading as formats;
ghost use Rattle.rt_words.specs.Reading.{Gives};
ghost use Rattle.rt_object.specs.Grammar.{below, is_place};
ghost use Rattle.rt_object.specs.Known.{AreBehind};
ghost use Rattle.rt_object.specs.Reading as reads;

use crate::known::Known;
use crate::object::{Relocated, Relocation};
use crate::tag::{Named, read_named};
use rt_words::{List, Stop, front_word, read_word, read_word_within};
use std::alloc::Global;

/// Relocations behind their number, in a part of so many places, of which each is a multiple of `step`.
#[tactic(auto, unfolding(crate::specs::Reading::relocations_reader))]
pub fn read_relocations<'b>(
    alloc: Global,
    known: &Known<'_>,
    step: usize,
    places: usize,
    bytes: &'b [u8],
) -> Result<(List<Relocation>, &'b [u8]), Stop>
    requires { 1 ≤ step }
    ensures { Gives (λ x. (x.0, x.1.now)) result (reads.relocations_reader known.now.records.now known.now.strings known.now.bricks step places bytes.now) }
{
    let (count, rest) = read_word(bytes)?;
    read_each_relocation(alloc, known, step, places, usize::from(count), rest)
}

/// So many relocations.
#[tactic(auto, unfolding(rt_words::specs::Reading::each))]
fn read_each_relocation<'b>(
    alloc: Global,
    known: &Known<'_>,
    step: usize,
    places: usize,
    count: usize,
    bytes: &'b [u8],
) -> Result<(List<Relocation>, &'b [u8]), Stop>
    requires { 1 ≤ step }
    ensures { Gives (λ x. (x.0, x.1.now)) result (formats.each (reads.relocation_reader known.now.records.now known.now.strings known.now.bricks step places) count [] bytes.now) }
{
    let mut least = 0;
    let mut found = List::new(alloc, 0)?;
    let mut rest = bytes;
    for _turn in 0..count {
        let (relocation, after) = read_relocation(
            known,
            step,
            places,
            least,
            found.as_slice(),
            rest,
        )?;
        least = usize::from(relocation.place) + 1;
        found.push(relocation)?;
        rest = after;
    }
    Ok((found, rest))
}

/// A relocation behind others, whose places are below `least`.
#[tactic(auto, unfolding(crate::specs::Reading::relocation_reader))]
fn read_relocation<'b>(
    known: &Known<'_>,
    step: usize,
    places: usize,
    least: usize,
    before: &[Relocation],
    bytes: &'b [u8],
) -> Result<(Relocation, &'b [u8]), Stop>
    requires step { 1 ≤ step }
    requires before { AreBehind least before.now }
    ensures relocation { Gives (λ x. (x.0, x.1.now)) result (reads.relocation_reader known.now.records.now known.now.strings known.now.bricks step places before.now bytes.now) }
    ensures least { IfOk result (λ x. least ≤ x.0.place) }
{
    let (place, rest) = read_place(step, places, least, before, bytes)?;
    let (named, rest) = read_named(rest)?;
    let (of, rest) = read_relocated(known, named, rest)?;
    let (offset, rest) = read_word(rest)?;
    Ok((Relocation { place, of, offset }, rest))
}

fn read_place<'b>(
    step: usize,
    places: usize,
    least: usize,
    before: &[Relocation],
    bytes: &'b [u8],
) -> Result<(u16, &'b [u8]), Stop>
    requires step { 1 ≤ step }
    requires before { AreBehind least before.now }
    ensures place { Gives (λ x. (x.0, x.1.now)) result (formats.word (where_true (is_place step places before.now)) bytes.now) }
    ensures least { IfOk result (λ x. least ≤ x.0) }
{
    match front_word(bytes) {
        Some((place, rest)) if is_place(step, places, least, before, place) => Ok((place, rest)),
        _ => Err(Stop::Refused(bytes.len())),
    }
}

fn is_place(step: usize, places: usize, least: usize, _before: &[Relocation], place: u16) -> bool
    requires step { 1 ≤ step }
    requires before { AreBehind least _before.now }
    ensures place { result ≡ is_place step places _before.now place }
    ensures least { IsTrue result → least ≤ place }
{
    let place = usize::from(place);
    least <= place && place % step == 0 && place < places
}

/// What is named by a number.
#[tactic(auto, unfolding(crate::specs::Reading::named_reader))]
fn read_relocated<'b>(
    known: &Known<'_>,
    named: Named,
    bytes: &'b [u8],
) -> Result<(Relocated, &'b [u8]), Stop>
    ensures { Gives (λ x. (x.0, x.1.now)) result (reads.named_reader known.now.records.now known.now.strings known.now.bricks named bytes.now) }
{
    match named {
        Named::Brick => {
            let (number, rest) = read_below(known.bricks, bytes)?;
            Ok((Relocated::Brick(number), rest))
        }
        Named::String => {
            let (number, rest) = read_below(known.strings, bytes)?;
            Ok((Relocated::String(number), rest))
        }
        Named::Support => {
            let (number, rest) = read_word_within(1, 32, bytes)?;
            Ok((Relocated::Support(number), rest))
        }
    }
}

/// The number of one of so many.
pub fn read_below(count: u16, bytes: &[u8]) -> Result<(u16, &[u8]), Stop>
    ensures { Gives (λ x. (x.0, x.1.now)) result (formats.word (below count) bytes.now) }
{
    match front_word(bytes) {
        Some((number, rest)) if number < count => Ok((number, rest)),
        _ => Err(Stop::Refused(bytes.len())),
    }
}
