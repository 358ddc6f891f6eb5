//! The modules of systems, by the lines of system texts.

ghost use Rattle.std.specs.Prelude.{◌≡◌, ◌≤◌, ℕ, List, length, IfOk, IfErr, OnOk};
ghost use Rattle.std.specs.List.{AllByRecursion};
ghost use Rattle.rt_items.specs.Ranges.{IsByte};
ghost use Rattle.rt_system.specs.Fields.{IsFile};
ghost use Rattle.rt_system.specs.Library.{library_text};
ghost use Rattle.rt_system.specs.SystemRanges.{HasFile};
ghost use Rattle.rt_system.specs.declared.parts.Entry.TheVariants as entry;
ghost use Rattle.rt_accept.specs.Reading.{IsDeclined};
ghost use Rattle.rt_accept.specs.Systems as spec;

use crate::faulting::not_compiled;
use crate::reading::{Unaccepted, accept_module, accept_object};
use rt_compile::compile;
use rt_object::Object;
use rt_outside::Store;
use rt_system::{Entry, library};
use rt_words::List;
use std::alloc::Global;
use std::str;

/// How the file of the library is printed.
pub const LIBRARY: &str = "LIBRARY";

/// The library's text has bytes, and few enough to be compiled.
fn library_is_short()
    ensures bytes { AllByRecursion IsByte library_text }
    ensures short { length library_text ≤ 4194304 }
{}

/// Compiles the text of the library. No file is read for it.
pub fn accept_library(alloc: Global) -> Result<Object, Unaccepted>
    ensures ok { IfOk result spec.IsLibrary }
    ensures err { (reads reads_after : List ℕ → ℕ) → IfErr result (IsDeclined (spec.IsFileOf entry.Library) spec.RefusesLibrary reads reads_after) }
{
    library_is_short();
    match compile(alloc, library()) {
        Ok(object) => Ok(object),
        Err(fault) => Err(not_compiled(alloc, LIBRARY, fault)),
    }
}

/// The name of a file.
fn name_in(file: &[u8]) -> &str
    requires { IsFile file.now }
    ensures { result.now ≡ file.now }
{
    str::from_utf8(file).unwrap()
}

/// Reads or compiles the module of a line.
fn accept_entry<S: Store>(alloc: Global, store: &mut S, entry: &Entry) -> Result<Object, Unaccepted>
    requires { HasFile entry.now }
    ensures ok { IfOk result (λ o. spec.HasEntry (S.files store.old) entry.now o) }
    ensures err { IfErr result (IsDeclined (spec.IsFileOf entry.now) (spec.RefusesEntry (S.files store.old) entry.now) (S.read_faults store.old) (S.read_faults store.new)) }
    ensures unchanged { S.files store.new ≡ S.files store.old }
    ensures reads_later { (other : List ℕ) → S.read_faults store.old other ≤ S.read_faults store.new other }
    ensures writes_later { (other : List ℕ) → S.write_faults store.old other ≤ S.write_faults store.new other }
{
    match entry {
        Entry::Module(file) => accept_module(alloc, store, name_in(file.as_slice())),
        Entry::Object(file) => accept_object(alloc, store, name_in(file.as_slice())),
        Entry::Library => accept_library(alloc),
    }
}

/// Adds the object of a line.
fn add_entry<S: Store>(
    alloc: Global,
    store: &mut S,
    entry: &Entry,
    objects: &mut List<Object>,
) -> Result<(), Unaccepted>
    requires { HasFile entry.now }
    ensures ok { OnOk result (spec.IsAdded (S.files store.old) entry.now objects.old objects.new) }
    ensures err { IfErr result (IsDeclined (spec.IsFileOf entry.now) (spec.RefusesEntry (S.files store.old) entry.now) (S.read_faults store.old) (S.read_faults store.new)) }
    ensures unchanged { S.files store.new ≡ S.files store.old }
    ensures reads_later { (other : List ℕ) → S.read_faults store.old other ≤ S.read_faults store.new other }
    ensures writes_later { (other : List ℕ) → S.write_faults store.old other ≤ S.write_faults store.new other }
{
    match accept_entry(alloc, store, entry) {
        Ok(object) => match objects.push(object) {
            Ok(()) => Ok(()),
            Err(_) => Err(Unaccepted::Memory),
        },
        Err(why) => Err(why),
    }
}

/// Reads or compiles the modules of a system, in the order of their lines, up to the first that isn't accepted.
pub fn accept_entries<S: Store>(
    alloc: Global,
    store: &mut S,
    entries: &[Entry],
) -> Result<List<Object>, Unaccepted>
    requires { AllByRecursion HasFile entries.now }
    ensures ok { IfOk result (λ os. spec.HaveEntries (S.files store.old) entries.now os) }
    ensures err { IfErr result (IsDeclined (spec.IsReadAmong (S.files store.old) entries.now) (spec.RefusesEntries (S.files store.old) entries.now) (S.read_faults store.old) (S.read_faults store.new)) }
    ensures unchanged { S.files store.new ≡ S.files store.old }
    ensures reads_later { (other : List ℕ) → S.read_faults store.old other ≤ S.read_faults store.new other }
    ensures writes_later { (other : List ℕ) → S.write_faults store.old other ≤ S.write_faults store.new other }
{
    let mut objects = List::from_vec(Vec::new(alloc));
    for entry in entries {
        add_entry(alloc, store, entry, &mut objects)?;
    }
    Ok(objects)
}
