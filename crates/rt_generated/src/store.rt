//! Three texts as the files of a store.

ghost use Rattle.std.specs.Prelude.{◌≡◌, ◌≢◌, ◌≤◌, ◌<◌, ◌↔◌, ℕ, List, length, Some, IfOk, OnOk, IsErr, IsErrOf};
ghost use Rattle.std.specs.Option.{option_copied};
ghost use Rattle.rt_words.specs.Causes.{Rose};
ghost use Rattle.rt_outside.specs.Files.{Has, Lacks, HasTooLong, ChangesOnly, longest};
ghost use Rattle.rt_generated.specs.Stores as spec;

use rt_outside::{Failed, LONGEST_FILE, Store, StoreError};
use rt_words::Bytes;
use std::alloc::Global;

/// A text, and the name of its file.
#[derive(Drop)]
pub struct NamedText {
    pub name: String,
    pub text: Bytes,
}

/// The three texts of a generated system.
#[derive(Drop)]
pub struct Texts {
    pub module: NamedText,
    pub system: NamedText,
    pub ticks: NamedText,
}

impl Texts {
    fn find(&self, name: &str) -> Option<&[u8]>
        ensures { option_copied result ≡ spec.files_in self.now name.now }
    {
        if self.module.name.as_str() == name {
            return Some(self.module.text.as_slice());
        }
        if self.system.name.as_str() == name {
            return Some(self.system.text.as_slice());
        }
        if self.ticks.name.as_str() == name {
            return Some(self.ticks.text.as_slice());
        }
        None
    }
}

/// A store that holds just three texts, and tells them. No read of it fails, and each write does.
#[derive(Drop)]
pub struct TextStore<'a> {
    pub texts: &'a Texts,
    pub faults: u64,
}

impl<'a> Store for TextStore<'a> {
    ghost files = { λ s. Some (spec.files_in s.texts.now) };

    ghost read_faults = { λ s _. 0 };

    ghost write_faults = { λ s _. s.faults };

    fn read(&mut self, alloc: Global, name: &str) -> Result<Vec<u8>, StoreError>
        ensures bytes { IfOk result (λ v. Has name.now v.items (spec.files_in self.old.texts.now)) }
        ensures short { IfOk result (λ v. length v.items ≤ longest) }
        ensures missing { IsErrOf result StoreError.Missing → Lacks name.now (spec.files_in self.old.texts.now) }
        ensures too_long { IsErrOf result StoreError.TooLong → HasTooLong name.now (spec.files_in self.old.texts.now) }
        ensures not_failed { IsErrOf result StoreError.Failed → ⊥ }
        ensures kept { self.new.texts.now ≡ self.old.texts.now }
        ensures later { self.old.faults ≤ self.new.faults }
    {
        match self.texts.find(name) {
            Some(bytes) => read_out(alloc, bytes),
            None => Err(StoreError::Missing),
        }
    }

    fn write(&mut self, _name: &str, _bytes: &[u8]) -> Result<(), Failed>
        ensures fails { IsErr result }
        ensures counted { Rose self.old.faults self.new.faults }
        ensures later { self.old.faults ≤ self.new.faults }
        ensures kept { self.new.texts.now ≡ self.old.texts.now }
    {
        self.faults = self.faults.saturating_add(1);
        Err(Failed)
    }
}

/// The bytes of a file that may be read.
fn read_out(alloc: Global, bytes: &[u8]) -> Result<Vec<u8>, StoreError>
    ensures bytes { IfOk result (λ v. v.items ≡ bytes.now) }
    ensures short { IfOk result (λ v. length v.items ≤ longest) }
    ensures too_long { IsErrOf result StoreError.TooLong → longest < length bytes.now }
    ensures not_missing { IsErrOf result StoreError.Missing → ⊥ }
    ensures not_failed { IsErrOf result StoreError.Failed → ⊥ }
{
    if bytes.len() > LONGEST_FILE {
        return Err(StoreError::TooLong);
    }
    match Vec::from_slice(alloc, bytes) {
        Ok(copy) => Ok(copy),
        Err(_) => Err(StoreError::Memory),
    }
}
