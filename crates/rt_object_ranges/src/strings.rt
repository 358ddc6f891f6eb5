//! Whether the strings of an object keep their ranges.

ghost use Rattle.std.specs.Prelude.{◌↔◌, All, IsTrue};
ghost use Rattle.std.specs.List.{AllByRecursion};
ghost use Rattle.rt_object.specs.Ranges.{IsCounted};
ghost use Rattle.rt_object_ranges.specs.Parts.{IsString};

use crate::small::{COUNTED, bytes_are_small};
use rt_words::Bytes;

/// How many bytes a string may have.
const STRING: usize = 8191;

pub fn are_strings(strings: &[Bytes]) -> bool
    ensures { IsTrue result ↔ (IsCounted strings.now × AllByRecursion IsString strings.now) }
{
    strings.len() <= COUNTED && is_each_string(strings)
}

fn is_each_string(strings: &[Bytes]) -> bool
    ensures { IsTrue result ↔ All IsString strings.now }
{
    for string in strings {
        if !is_string(string) {
            return false;
        }
    }
    true
}

fn is_string(string: &Bytes) -> bool
    ensures { IsTrue result ↔ IsString string.now }
{
    let bytes = string.as_slice();
    bytes_are_small(bytes);
    bytes.len() <= STRING
}
