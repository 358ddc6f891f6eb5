//! Whether the relocations of a part keep their ranges.

ghost use Rattle.std.specs.Prelude.{◌↔◌, ◌≤◌, All, IsTrue, map};
ghost use Rattle.rt_object.specs.Ranges.{HaveRelocationRanges, IsNamed, Rise};
ghost use Rattle.rt_object_ranges.specs.Parts.{HasRelocationRanges};

use crate::small::{COUNTED, word_is_small};
use rt_object::{Known, Relocated, Relocation};

/// Whether relocations keep their ranges, in a part of so many places, of which each is a multiple of `step`.
pub fn are_relocations(
    known: &Known<'_>,
    step: usize,
    places: usize,
    relocations: &[Relocation],
) -> bool
    requires { 1 ≤ step }
    ensures { IsTrue result ↔ HaveRelocationRanges known.now.strings known.now.bricks step places relocations.now }
{
    if relocations.len() > COUNTED || !places_rise(relocations) {
        return false;
    }
    is_each_relocation(known, step, places, relocations)
}

fn places_rise(relocations: &[Relocation]) -> bool
    ensures { IsTrue result ↔ Rise (map (λ r. r.place) relocations.now) }
{
    let mut least = 0;
    for relocation in relocations {
        let place = usize::from(relocation.place);
        if place < least {
            return false;
        }
        least = place + 1;
    }
    true
}

fn is_each_relocation(
    known: &Known<'_>,
    step: usize,
    places: usize,
    relocations: &[Relocation],
) -> bool
    requires { 1 ≤ step }
    ensures { IsTrue result ↔ All (HasRelocationRanges known.now.strings known.now.bricks step places) relocations.now }
{
    for relocation in relocations {
        if !is_relocation(known, step, places, relocation) {
            return false;
        }
    }
    true
}

fn is_relocation(known: &Known<'_>, step: usize, places: usize, relocation: &Relocation) -> bool
    requires { 1 ≤ step }
    ensures { IsTrue result ↔ HasRelocationRanges known.now.strings known.now.bricks step places relocation.now }
{
    word_is_small(relocation.offset);
    let place = usize::from(relocation.place);
    place < places && place % step == 0 && is_named(known, relocation.of)
}

/// Whether what is named is there.
fn is_named(known: &Known<'_>, of: Relocated) -> bool
    ensures { IsTrue result ↔ IsNamed known.now.strings known.now.bricks of }
{
    match of {
        Relocated::Brick(number) => number < known.bricks,
        Relocated::String(number) => number < known.strings,
        Relocated::Support(number) => 1 <= number && number <= 32,
    }
}
