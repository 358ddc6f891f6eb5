ghost use Rattle.std.specs.Prelude.{◌≡◌, ◌+◌, ◌≤◌, ◌++◌, length, All};
ghost use Rattle.std.specs.Option.{option_copied, option_to_list};
ghost use Rattle.rt_outside.specs.Held.{first_of};
ghost use Rattle.rt_outside.specs.Places.{kept, IsPlace, HasNoName};

use crate::shelf::Place;
use rt_words::{Bytes, Name, Text};

/// The bytes of the file without a name, where that is the name.
pub fn unnamed<'a>(log: &'a [u8], place: Option<Place>, name: &[u8]) -> Option<&'a [u8]>
    requires within { All (IsPlace (length log.now)) (option_to_list place) }
    requires no_name { All HasNoName (option_to_list place) }
    ensures { option_copied result ≡ first_of (kept log.now (option_to_list place)) name.now }
{
    let place = place?;
    if name.is_empty() {
        Some(&log[place.middle..place.to])
    } else {
        None
    }
}

/// The bytes of the last file of a name among those at some places of a log.
pub fn latest<'a>(log: &'a [u8], places: &[Place], name: &[u8]) -> Option<&'a [u8]>
    requires { All (IsPlace (length log.now)) places.now }
    ensures { option_copied result ≡ first_of (kept log.now places.now) name.now }
{
    let mut found = None;
    for place in places {
        if &log[place.from..place.middle] == name {
            found = Some(&log[place.middle..place.to]);
        }
    }
    found
}

/// The bytes of the first of these files with a name.
pub fn first_given<'a>(files: &'a [(Name, Bytes)], name: &[u8]) -> Option<&'a [u8]>
    ensures { option_copied result ≡ first_of files.now name.now }
{
    for file in files {
        if file.0.as_slice() == name {
            return Some(file.1.as_slice());
        }
    }
    None
}

/// Appends a file to a log that has the spare for it, and says where it stands.
pub fn append(log: &mut Text, name: &[u8], bytes: &[u8]) -> Place
    requires { length name.now + length bytes.now ≤ log.old.spare }
    ensures log { log.new.items ≡ log.old.items ++ (name.now ++ bytes.now) }
    ensures spare { log.old.spare ≤ log.new.spare + (length name.now + length bytes.now) }
    ensures from { result.from ≡ length log.old.items }
    ensures middle { result.middle ≡ length log.old.items + length name.now }
    ensures to { result.to ≡ length log.old.items + length name.now + length bytes.now }
{
    let from = log.len();
    log.push_all(name).unwrap();
    let middle = log.len();
    log.push_all(bytes).unwrap();
    let to = log.len();
    Place { from, middle, to }
}
