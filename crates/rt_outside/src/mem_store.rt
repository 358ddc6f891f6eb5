ghost use Rattle.std.specs.Prelude.{◌≡◌, ◌≢◌, ℕ, ◌+◌, ◌-◌, ◌≤◌, ◌<◌, ◌||◌, ◌↔◌, nat_lt, false, List, length, Some, None, if◌then◌else◌, IfOk, OnOk, OnErr, IsErr, IsErrOf, IsTrue, is_ok};
ghost use Rattle.std.specs.Option.{option_copied};
ghost use Rattle.std.specs.Result.{is_err};
ghost use Rattle.std.specs.Str.{bytes_eq};
ghost use Rattle.rt_words.specs.Causes.{Rose};
ghost use Rattle.rt_outside.specs.Calls.{no_calls, next_fails, after_call};
ghost use Rattle.rt_outside.specs.Files.{Has, Lacks, HasTooLong, ChangesOnly, longest};
ghost use Rattle.rt_outside.specs.Held.{first_of};

use crate::calls::CallCount;
use crate::shelf::Shelf;
use crate::sink::Failed;
use crate::store::{LONGEST_FILE, Store, StoreError};
use rt_words::{Bytes, List, Memory, Name};
use std::alloc::Global;
use std::marker::Model;

/// A store in memory, which tells its files.
///
/// A call fails exactly where its number, counted from 1 over reads and writes together, is one of those
/// given, or where a write doesn't fit the room that is left. A write takes as much room as its name and its
/// content have bytes; one that fails takes none, and one over an older file gives none back. All memory for
/// writes is taken by `new`: some 25 bytes for each byte of room.
#[derive(Drop)]
pub struct MemStore {
    shelf: Shelf,
    calls: CallCount,
}

impl Model for MemStore {
    ghost use Rattle.rt_outside.specs.States.{StoreState};

    ghost Value = { StoreState };

    ghost view = { λ s. record { files = s.shelf.files; room = s.shelf.room; calls = s.calls } };
}

impl MemStore {
    /// A store of these files, of which the first of a name counts, with room for `room` bytes of writes,
    /// which is taken here. `fails` has the numbers of the calls that fail.
    pub fn new(
        alloc: Global,
        files: List<(Name, Bytes)>,
        room: usize,
        fails: List<u64>,
    ) -> Result<MemStore, Memory>
        ensures { IfOk result (λ s. s ≡ record { files = files; room = room; calls = no_calls fails }) }
    {
        let shelf = Shelf::new(alloc, files, room)?;
        Ok(MemStore {
            shelf,
            calls: CallCount::new(fails),
        })
    }

    /// The bytes of the file of a name. It is no call that may fail.
    pub fn file(&self, name: &str) -> Option<&[u8]>
        ensures { option_copied result ≡ first_of self.now.files name.now }
    {
        self.shelf.find(name.as_bytes())
    }

    /// How many bytes of names and contents can still be written.
    pub fn room(&self) -> usize
        ensures { result ≡ self.now.room }
    {
        self.shelf.room()
    }

    /// How many reads and writes were made.
    pub fn calls(&self) -> u64
        ensures { result ≡ self.now.calls.made }
    {
        self.calls.made()
    }

    /// How many reads and writes failed.
    pub fn faults(&self) -> u64
        ensures { result ≡ self.now.calls.faults }
    {
        self.calls.faults()
    }
}

impl Store for MemStore {
    ghost files = { λ s. Some (first_of s.files) };

    ghost read_faults = { λ s _. s.calls.faults };

    ghost write_faults = { λ s _. s.calls.faults };

    fn read(&mut self, alloc: Global, name: &str) -> Result<Vec<u8>, StoreError>
        ensures bytes { IfOk result (λ v. Has name.now v.items (first_of self.old.files)) }
        ensures short { IfOk result (λ v. length v.items ≤ longest) }
        ensures missing { IsErrOf result StoreError.Missing → Lacks name.now (first_of self.old.files) }
        ensures too_long { IsErrOf result StoreError.TooLong → HasTooLong name.now (first_of self.old.files) }
        ensures failed { IsErrOf result StoreError.Failed → Rose self.old.calls.faults self.new.calls.faults }
        ensures later { self.old.calls.faults ≤ self.new.calls.faults }
        ensures kept { self.new.files ≡ self.old.files }
        ensures room { self.new.room ≡ self.old.room }
        ensures fails { IsErrOf result StoreError.Failed ↔ IsTrue (next_fails self.old.calls) }
        ensures lacks { next_fails self.old.calls ≡ false → Lacks name.now (first_of self.old.files) → IsErrOf result StoreError.Missing }
        ensures longer { next_fails self.old.calls ≡ false → HasTooLong name.now (first_of self.old.files) → IsErrOf result StoreError.TooLong }
        ensures calls { self.new.calls ≡ after_call (next_fails self.old.calls) self.old.calls }
    {
        if self.calls.begin() {
            self.calls.fail();
            return Err(StoreError::Failed);
        }
        match self.shelf.find(name.as_bytes()) {
            Some(bytes) => read_out(alloc, bytes),
            None => Err(StoreError::Missing),
        }
    }

    fn write(&mut self, name: &str, bytes: &[u8]) -> Result<(), Failed>
        ensures bytes { OnOk result (Has name.now bytes.now (first_of self.new.files)) }
        ensures others { (other : List ℕ) → other ≢ name.now → first_of self.new.files other ≡ first_of self.old.files other }
        ensures failed { IsErr result → Rose self.old.calls.faults self.new.calls.faults }
        ensures later { self.old.calls.faults ≤ self.new.calls.faults }
        ensures kept { OnErr result (self.new.files ≡ self.old.files) }
        ensures fails { is_err result ≡ (next_fails self.old.calls || nat_lt self.old.room (length name.now + length bytes.now)) }
        ensures room { self.new.room ≡ (if is_ok result then self.old.room - (length name.now + length bytes.now) else self.old.room) }
        ensures calls { self.new.calls ≡ after_call (is_err result) self.old.calls }
    {
        let fails = self.calls.begin();
        let room = self.shelf.room();
        if fails || room < name.len() || room - name.len() < bytes.len() {
            self.calls.fail();
            return Err(Failed);
        }
        self.shelf.put(name.as_bytes(), bytes);
        Ok(())
    }
}

// The bytes of a file that may be read.
fn read_out(alloc: Global, bytes: &[u8]) -> Result<Vec<u8>, StoreError>
    ensures bytes { IfOk result (λ v. v.items ≡ bytes.now) }
    ensures short { IfOk result (λ v. length v.items ≤ longest) }
    ensures too_long { IsErrOf result StoreError.TooLong ↔ (longest < length bytes.now) }
    ensures not_missing { IsErrOf result StoreError.Missing → ⊥ }
    ensures not_failed { IsErrOf result StoreError.Failed → ⊥ }
{
    if bytes.len() > LONGEST_FILE {
        return Err(StoreError::TooLong);
    }
    match Vec::from_slice(alloc, bytes) {
        Ok(copy) => Ok(copy),
        Err(_) => Err(StoreError::Memory),
    }
}
