//! The ENT bricks of a system by their names.

ghost use Rattle.std.specs.Prelude.{◌≡◌, suc, ◌<◌, ◌≤◌, ℕ, List, true, not, is_some, Some, length, if◌then◌else◌, IfOk, OnOk, IfErr};
ghost use Rattle.std.specs.Str.{bytes_eq};
ghost use Rattle.rt_match.specs.Matching.{Fails};
ghost use Rattle.rt_match.specs.Signatures.{system_of};
ghost use Rattle.rt_match.specs.Walking.{entry_in, is_ent, Noted, Known};

use crate::fault::MatchFault;
use rt_object::{Brick, BrickKind, Object};
use rt_words::Memory;
use std::alloc::Global;
use std::collections::BTreeMap;

/// Where an ENT brick stands: the number of its module, from 1, and its number there, from 0.
#[derive(Clone, Copy)]
pub struct Entry {
    pub module: u16,
    pub brick: u16,
}

/// The ENT bricks by their names.
pub type Entries<'o> = BTreeMap<&'o [u8], Entry>;

/// The ENT brick of a name.
pub fn find<'o>(entries: &Entries<'o>, name: &'o [u8]) -> Option<Entry>
    ensures { result ≡ entry_in entries.now name.now }
{
    entries.get(&name).copied()
}

/// Notes an ENT brick by its name; false where the name has one.
fn note<'o>(entries: &mut Entries<'o>, name: &'o [u8], entry: Entry) -> Result<bool, Memory>
    ensures new { IfOk result (λ new. new ≡ not (is_some (entry_in entries.old name.now))) }
    ensures noted { IfOk result (λ new. new ≡ true → (n : List ℕ) → entry_in entries.new n ≡ (if bytes_eq name.now n then Some entry else entry_in entries.old n)) }
{
    if find(entries, name).is_some() {
        return Ok(false);
    }
    match entries.insert(name, entry) {
        Ok(_) => Ok(true),
        Err(_) => Err(Memory),
    }
}

fn is_entry(brick: &Brick) -> bool
    ensures { result ≡ is_ent brick.now.kind }
{
    matches!(brick.kind, BrickKind::Ent(_))
}

/// Notes the ENT bricks of the module at `at`, counted from 0, where those of the modules before it are noted.
fn note_module<'o>(
    alloc: Global,
    entries: &mut Entries<'o>,
    objects: &'o [Object],
    at: usize,
) -> Result<(), MatchFault>
    requires few { length objects.now ≤ 64 }
    requires there { at < length objects.now }
    requires noted { Noted (system_of objects.now) entries.old (suc at) 0 }
    ensures ok { OnOk result (Noted (system_of objects.now) entries.new (suc (suc at)) 0) }
    ensures err { IfErr result (Fails (system_of objects.now)) }
{
    let bricks = objects[at].parts().bricks.as_slice();
    for number in 0..bricks.len() {
        let brick = &bricks[number];
        let name = brick.name.as_slice();
        let entry = Entry {
            module: at as u16 + 1,
            brick: number as u16,
        };
        if is_entry(brick) && !note(entries, name, entry)? {
            return Err(MatchFault::Duplicate {
                brick: brick.name.copy(alloc)?,
            });
        }
    }
    Ok(())
}

/// Notes the ENT bricks of all modules.
pub fn note_all(alloc: Global, objects: &[Object]) -> Result<Entries<'_>, MatchFault>
    requires { length objects.now ≤ 64 }
    ensures ok { IfOk result (λ entries. Known (system_of objects.now) entries) }
    ensures err { IfErr result (Fails (system_of objects.now)) }
{
    let mut entries = BTreeMap::new(alloc);
    for at in 0..objects.len() {
        note_module(alloc, &mut entries, objects, at)?;
    }
    Ok(entries)
}
