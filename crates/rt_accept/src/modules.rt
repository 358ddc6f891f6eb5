//! Systems, with all their modules.

ghost use Rattle.std.specs.Prelude.{◌≡◌, ◌≤◌, ℕ, List, length, IfOk, IfErr};
ghost use Rattle.rt_accept.specs.Reading.{IsDeclined};
ghost use Rattle.rt_accept.specs.Systems.{HasModules, RefusesModules, IsInTurn};

use crate::entries::accept_entries;
use crate::reading::{Unaccepted, accept_system};
use rt_object::Object;
use rt_outside::Store;
use rt_system::System;
use rt_words::List;
use std::alloc::Global;

/// What is read of a system.
#[derive(Drop)]
pub struct Modules {
    /// Its text.
    pub system: System,
    /// The objects of its lines, in their order: modules are numbered from 1.
    pub objects: List<Object>,
}

/// Reads a system's text, and reads or compiles its modules in the order of their lines, up to the first that isn't accepted.
pub fn accept_modules<S: Store>(
    alloc: Global,
    store: &mut S,
    name: &str,
) -> Result<Modules, Unaccepted>
    ensures ok { IfOk result (λ m. HasModules (S.files store.old) name.now m.system m.objects) }
    ensures few { IfOk result (λ m. length m.objects ≤ 64) }
    ensures err { IfErr result (IsDeclined (IsInTurn (S.files store.old) name.now) (RefusesModules (S.files store.old) name.now) (S.read_faults store.old) (S.read_faults store.new)) }
    ensures unchanged { S.files store.new ≡ S.files store.old }
    ensures reads_later { (other : List ℕ) → S.read_faults store.old other ≤ S.read_faults store.new other }
    ensures writes_later { (other : List ℕ) → S.write_faults store.old other ≤ S.write_faults store.new other }
{
    let system = accept_system(alloc, store, name, true)?;
    let objects = accept_entries(alloc, store, system.entries())?;
    Ok(Modules { system, objects })
}
