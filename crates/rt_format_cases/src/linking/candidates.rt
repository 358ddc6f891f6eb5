//! The candidates of modes.

ghost use Rattle.std.specs.Prelude.{◌≤◌, length};

use crate::linking::matching::tell_fault;
use crate::linking::procs::tell_procs;
use rt_graph::candidates;
use rt_match::{Bindings, match_all};
use rt_modes::Mode;
use rt_object::{Brick, BrickKind, Content, External, Object, Supplied};
use rt_words::{Memory, Text};
use std::alloc::Global;

/// Tells what a value of the mode of a brick of the first object may be; or the fault of matching.
pub fn tell_candidates(
    alloc: Global,
    name: &[u8],
    objects: &[Object],
    out: &mut Text,
) -> Result<(), Memory>
    requires { length objects.now ≤ 64 }
{
    match match_all(alloc, objects) {
        Ok(bindings) => tell_bound(alloc, name, objects, &bindings, out),
        Err(fault) => tell_fault(&fault, out),
    }
}

fn tell_bound(
    alloc: Global,
    name: &[u8],
    objects: &[Object],
    bindings: &Bindings,
    out: &mut Text,
) -> Result<(), Memory>
    requires { length objects.now ≤ 64 }
{
    match mode_named(objects, name) {
        Some(mode) => tell_found(alloc, objects, bindings, mode, out),
        None => out.push_all(b"no procedure"),
    }
}

fn tell_found(
    alloc: Global,
    objects: &[Object],
    bindings: &Bindings,
    mode: &Mode,
    out: &mut Text,
) -> Result<(), Memory>
    requires { length objects.now ≤ 64 }
{
    let found = candidates(alloc, objects, bindings, 1, mode)?;
    if found.len() == 0 {
        return out.push_all(b"none");
    }
    tell_procs(objects, found.as_slice(), out)
}

/// The mode of the procedure of a name in the first object.
fn mode_named<'o>(objects: &'o [Object], name: &[u8]) -> Option<&'o Mode> {
    let object = objects.first()?;
    let bricks = object.parts().bricks.as_slice();
    let brick = bricks.iter().find(|brick| brick.name.as_slice() == name)?;
    mode_of(brick)
}

fn mode_of(brick: &Brick) -> Option<&Mode> {
    match &brick.kind {
        BrickKind::Own(Content::Proc(proc)) | BrickKind::Ent(Content::Proc(proc)) => Some(
            &proc.mode,
        ),
        BrickKind::Ext(External::Proc(mode)) | BrickKind::Svc(Supplied::Proc(mode)) => Some(mode),
        _ => None,
    }
}
