//! EXT bricks that are in no module.

ghost use Rattle.std.specs.Prelude.{◌≡◌, ◌<◌, ◌≤◌, suc, length, OnOk, IfErr};
ghost use Rattle.rt_match.specs.Matching.{Lacks, Never, Fails};
ghost use Rattle.rt_match.specs.Signatures.{system_of};
ghost use Rattle.rt_match.specs.Walking as walking;
ghost use Rattle.rt_match.specs.Walking.{Clear, Known};

use crate::entries::{Entries, find};
use crate::fault::MatchFault;
use rt_object::{Brick, BrickKind, Object};
use std::alloc::Global;

fn is_missing<'o>(entries: &Entries<'o>, brick: &'o Brick) -> bool
    ensures { result ≡ walking.is_missing entries.now brick.now }
{
    matches!(brick.kind, BrickKind::Ext(_)) && find(entries, brick.name.as_slice()).is_none()
}

/// Refuses the first such brick of the module at `at`, counted from 0.
fn check_module<'o>(
    alloc: Global,
    entries: &Entries<'o>,
    objects: &'o [Object],
    at: usize,
) -> Result<(), MatchFault>
    requires few { length objects.now ≤ 64 }
    requires there { at < length objects.now }
    requires known { Known (system_of objects.now) entries.now }
    requires clear { Clear (system_of objects.now) (Lacks (system_of objects.now)) (suc at) 0 }
    ensures ok { OnOk result (Clear (system_of objects.now) (Lacks (system_of objects.now)) (suc (suc at)) 0) }
    ensures err { IfErr result (Fails (system_of objects.now)) }
{
    let bricks = objects[at].parts().bricks.as_slice();
    for number in 0..bricks.len() {
        let brick = &bricks[number];
        if is_missing(entries, brick) {
            return Err(MatchFault::Missing {
                module: at as u16 + 1,
                brick: brick.name.copy(alloc)?,
            });
        }
    }
    Ok(())
}

/// Refuses the first EXT brick whose name no ENT brick has.
pub fn check_found<'o>(
    alloc: Global,
    entries: &Entries<'o>,
    objects: &'o [Object],
) -> Result<(), MatchFault>
    requires few { length objects.now ≤ 64 }
    requires known { Known (system_of objects.now) entries.now }
    ensures ok { OnOk result (Never (system_of objects.now) (Lacks (system_of objects.now))) }
    ensures err { IfErr result (Fails (system_of objects.now)) }
{
    for at in 0..objects.len() {
        check_module(alloc, entries, objects, at)?;
    }
    Ok(())
}
