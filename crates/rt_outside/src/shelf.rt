ghost use Rattle.std.specs.Prelude.{◌≡◌, ℕ, ◌+◌, ◌-◌, ◌≤◌, List, [], ◌++◌, length, All, Some, if◌then◌else◌, IfOk};
ghost use Rattle.std.specs.Option.{option_copied};
ghost use Rattle.std.specs.Str.{bytes_eq};
ghost use Rattle.rt_outside.specs.Held.{first_of};

use crate::lookup::{append, first_given, latest, unnamed};
use rt_words::{Bytes, List, ListBuilder, Memory, Name, Text};
use std::alloc::Global;
use std::marker::Model;

/// Where a file stands in the log: its name from `from` to `middle`, its bytes from there to `to`.
#[derive(Clone, Copy, Drop)]
pub struct Place {
    pub from: usize,
    pub middle: usize,
    pub to: usize,
}

/// The files of a store in memory: those given, and those put since, which stand in a log.
///
/// The room is the number of bytes that the log still takes. Each file with a name takes one byte of it or
/// more, so the places of such files are never more than the room. A file whose name is empty may take none;
/// its last place is kept apart.
#[derive(Drop)]
pub struct Shelf {
    given: List<(Name, Bytes)>,
    log: Text,
    unnamed: Option<Place>,
    named: ListBuilder<Place>,
    room: usize,
}

impl Model for Shelf {
    ghost use Rattle.std.specs.Prelude.{◌++◌};
    ghost use Rattle.std.specs.Option.{option_to_list};
    ghost use Rattle.rt_outside.specs.States.{ShelfState};

    ghost Value = { ShelfState };

    ghost use Rattle.rt_outside.specs.Places.{kept, IsShelf};

    ghost view = { λ s. record { files = kept s.log.items (option_to_list s.unnamed) ++ (kept s.log.items s.named.items ++ s.given); room = s.room } };

    ghost invariant = { λ s. IsShelf s.log.items s.unnamed s.named.items s.room s.log.spare s.named.spare };
}

impl Shelf {
    /// The shelf of these files, with room for `room` bytes, which is taken here.
    pub fn new(alloc: Global, given: List<(Name, Bytes)>, room: usize) -> Result<Shelf, Memory>
        ensures { IfOk result (λ s. s ≡ record { files = given; room = room }) }
    {
        let log = Text::new(alloc, room)?;
        let named = ListBuilder::new(alloc, room)?;
        Ok(Shelf {
            given,
            log,
            unnamed: None,
            named,
            room,
        })
    }

    /// How many bytes can still be put.
    pub fn room(&self) -> usize
        ensures { result ≡ self.now.room }
    {
        self.room
    }

    /// The bytes of the file of a name.
    pub fn find(&self, name: &[u8]) -> Option<&[u8]>
        ensures { option_copied result ≡ first_of self.now.files name.now }
    {
        let log = self.log.as_slice();
        match unnamed(log, self.unnamed, name) {
            Some(bytes) => Some(bytes),
            None => match latest(log, self.named.as_slice(), name) {
                Some(bytes) => Some(bytes),
                None => first_given(self.given.as_slice(), name),
            },
        }
    }

    /// Puts a file in the place of the one of its name.
    pub fn put(&mut self, name: &[u8], bytes: &[u8])
        requires { length name.now + length bytes.now ≤ self.old.room }
        ensures room { self.new.room ≡ self.old.room - (length name.now + length bytes.now) }
        ensures files { (other : List ℕ) → first_of self.new.files other ≡ (if bytes_eq name.now other then Some bytes.now else first_of self.old.files other) }
    {
        let place = append(&mut self.log, name, bytes);
        if name.is_empty() {
            self.unnamed = Some(place);
        } else {
            self.named.push(place).unwrap();
        }
        self.room -= name.len() + bytes.len();
    }
}
