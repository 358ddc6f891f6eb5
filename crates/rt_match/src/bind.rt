//! The bindings of a system.

ghost use Rattle.std.specs.Prelude.{◌≡◌, suc, ◌<◌, ◌≤◌, ℕ, List, Some, length, IfOk, IfErr};
ghost use Rattle.rt_match.specs.Matching.{Signature, module_of, Lacks, Differs, IsUnsupplied, Never, Fails, Match, IsBound, Correspond, AreBound};
ghost use Rattle.rt_match.specs.Signatures.{system_of};
ghost use Rattle.rt_match.specs.Walking as walking;
ghost use Rattle.rt_match.specs.Walking.{Clear, Known, Bindable, Binds};

use crate::bindings::{Bindings, Bound};
use crate::entries::{Entries, find};
use crate::fault::MatchFault;
use rt_modes::Supplied;
use rt_object::{Brick, BrickKind, Object};
use rt_words::List;
use std::alloc::Global;

/// To what a brick is bound; none where nothing is there for which it asks.
fn binding<'o>(entries: &Entries<'o>, brick: &'o Brick) -> Option<Bound>
    ensures { result ≡ walking.binding entries.now brick.now }
{
    let name = brick.name.as_slice();
    match brick.kind {
        BrickKind::Own(_) | BrickKind::Ent(_) => Some(Bound::Own),
        BrickKind::Ext(_) => {
            find(entries, name).map(|entry| Bound::Brick(entry.module, entry.brick))
        }
        BrickKind::Svc(_) => {
            Supplied::named(name).map(|supplied| Bound::Supplied(supplied.number()))
        }
    }
}

/// Binds the bricks of the module at `at`, counted from 0; refuses its first SVC brick that isn't supplied.
fn bind_module<'o>(
    alloc: Global,
    entries: &Entries<'o>,
    objects: &'o [Object],
    at: usize,
) -> Result<List<Bound>, MatchFault>
    requires few { length objects.now ≤ 64 }
    requires there { at < length objects.now }
    requires known { Known (system_of objects.now) entries.now }
    requires bindable { Bindable (system_of objects.now) }
    requires clear { Clear (system_of objects.now) (IsUnsupplied (system_of objects.now)) (suc at) 0 }
    ensures ok { IfOk result (Binds (system_of objects.now) (suc at)) }
    ensures err { IfErr result (Fails (system_of objects.now)) }
{
    let bricks = objects[at].parts().bricks.as_slice();
    let mut bound = List::new(alloc, bricks.len())?;
    for number in 0..bricks.len() {
        let brick = &bricks[number];
        match binding(entries, brick) {
            Some(to) => bound.push(to)?,
            None => {
                return Err(MatchFault::NotSupplied {
                    module: at as u16 + 1,
                    brick: brick.name.copy(alloc)?,
                });
            }
        }
    }
    Ok(bound)
}

/// Binds the bricks of all modules, where each EXT brick's name is found, and no brick differs from that for which it asks;
/// refuses the first SVC brick that isn't supplied.
pub fn bind_all<'o>(
    alloc: Global,
    entries: &Entries<'o>,
    objects: &'o [Object],
) -> Result<Bindings, MatchFault>
    requires few { length objects.now ≤ 64 }
    requires known { Known (system_of objects.now) entries.now }
    requires bindable { Bindable (system_of objects.now) }
    ensures matched { IfOk result (λ bindings. Match (system_of objects.now)) }
    ensures bound { IfOk result (λ bindings. AreBound (system_of objects.now) bindings.of) }
    ensures err { IfErr result (Fails (system_of objects.now)) }
{
    let mut of = List::new(alloc, objects.len())?;
    for at in 0..objects.len() {
        let bound = bind_module(alloc, entries, objects, at)?;
        of.push(bound)?;
    }
    Ok(Bindings { of })
}
