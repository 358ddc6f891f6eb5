//! The names of a list, of which no two are one.

ghost use Rattle.std.specs.Prelude.{◌≡◌, List, ℕ, [], ◌∷◌, ◌++◌, OnOk, IfOk};
ghost use Rattle.rt_words.specs.Reading as formats;
ghost use Rattle.rt_words.specs.Reading.{Gives};
ghost use Rattle.rt_object.specs.Grammar.{is_new};
ghost use Rattle.rt_object.specs.Known.{Knows};

use crate::steps::passing;
use rt_words::{Memory, Name, Stop, read_name};
use std::alloc::Global;
use std::collections::BTreeSet;

/// The names of a list so far.
pub type Names = BTreeSet<Vec<u8>>;

/// A name in front of the bytes that isn't among those so far; it is one of them from then on.
pub fn read_new_name<'b>(
    alloc: Global,
    names: &mut Names,
    bytes: &'b [u8],
) -> Result<(Name, &'b [u8]), Stop>
    ensures name { (before : List (List ℕ)) → Knows names.old before → Gives (λ x. (x.0, x.1.now)) result (formats.passing (is_new before) formats.name bytes.now) }
    ensures known { (before : List (List ℕ)) → Knows names.old before → IfOk result (λ x. Knows names.new (before ++ x.0 ∷ [])) }
{
    let (name, rest) = read_name(alloc, bytes)?;
    let is_new = note(alloc, names, name.as_slice())?;
    passing(is_new, name, rest, bytes.len())
}

/// Notes a name; false where it is among those so far.
pub fn note(alloc: Global, names: &mut Names, name: &[u8]) -> Result<bool, Memory>
    ensures new { (before : List (List ℕ)) → Knows names.old before → IfOk result (λ b. b ≡ is_new before name.now) }
    ensures known { (before : List (List ℕ)) → Knows names.old before → IfOk result (λ b. Knows names.new (before ++ name.now ∷ [])) }
{
    let key = match Vec::from_slice(alloc, name) {
        Ok(key) => key,
        Err(_) => return Err(Memory),
    };
    match names.insert(key) {
        Ok(is_new) => Ok(is_new),
        Err(_) => Err(Memory),
    }
}
