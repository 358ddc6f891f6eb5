//! Bricks that differ from that for which they ask.

ghost use Rattle.std.specs.Prelude.{◌≡◌, suc, ◌<◌, ◌≤◌, ◌↔◌, ℕ, nat_le, length, MatchOption, IfOk, OnOk, IfErr, IsTrue};
ghost use Rattle.rt_modes.specs.Bricks.{number_of};
ghost use Rattle.rt_match.specs.Matching.{Signature, supplied_sort, HasBrick, IsEntry, Lacks, Differs, Never, Fails};
ghost use Rattle.rt_match.specs.Signatures.{signature, sort_of, system_of};
ghost use Rattle.rt_match.specs.Shapes.{form};
ghost use Rattle.rt_match.specs.Walking.{Clear, Compared, IsUnlike, IsAlike, Known, supplied_as};
ghost use Rattle.rt_match.specs.declared.fault.MatchFault.TheVariants as fault;

use crate::entries::{Entries, Entry, find};
use crate::fault::MatchFault;
use crate::shape::{Shape, full_text, same_shape, shape_of};
use rt_modes::{ModeTable, Supplied};
use rt_object::{Brick, BrickKind, Object};
use rt_words::{Bytes, List, Memory};
use std::alloc::Global;

/// The full mode of another brick, where one differs from it.
fn unlike_entry(
    alloc: Global,
    table: &ModeTable,
    brick: &Brick,
    other_table: &ModeTable,
    other: &Brick,
) -> Result<Option<Bytes>, Memory>
    ensures { IfOk result (Compared (signature table.now brick.now) (signature other_table.now other.now)) }
{
    let other_shape = shape_of(&other.kind);
    if same_shape(
        alloc,
        table,
        shape_of(&brick.kind),
        other_table,
        other_shape,
    )? {
        return Ok(None);
    }
    Ok(Some(full_text(alloc, other_table, other_shape)?))
}

fn is_sort_of(supplied: Supplied, shape: Shape<'_>) -> bool
    ensures { IsTrue result ↔ (sort_of (form shape.entry) ≡ supplied_sort (number_of supplied)) }
{
    match shape {
        Shape::Proc(_) => supplied.is_procedure(),
        Shape::Data(_) => !supplied.is_procedure(),
        Shape::Stack => false,
    }
}

/// The full mode of a supplied brick, where one differs from it.
fn unlike_supplied(
    alloc: Global,
    table: &ModeTable,
    brick: &Brick,
    supplied: Supplied,
) -> Result<Option<Bytes>, Memory>
    ensures { IfOk result (Compared (signature table.now brick.now) (supplied_as supplied)) }
{
    let own = shape_of(&brick.kind);
    let text = full_text(alloc, table, own)?;
    let found = supplied.text().as_bytes();
    if is_sort_of(supplied, own) && text.as_slice() == found {
        return Ok(None);
    }
    Ok(Some(List::from_slice(alloc, found)?))
}

/// An ENT brick, with the records of its module.
fn brick_at(objects: &[Object], entry: Entry) -> (&ModeTable, &Brick)
    requires { (s : Signature) × IsEntry (system_of objects.now) entry.module entry.brick s }
    ensures { HasBrick (system_of objects.now) entry.module entry.brick (signature result.0.now result.1.now) }
{
    let parts = objects[usize::from(entry.module) - 1].parts();
    (
        &parts.records,
        &parts.bricks.as_slice()[usize::from(entry.brick)],
    )
}

/// The full mode of that for which a brick asks, where the two differ.
fn unlike<'o>(
    alloc: Global,
    entries: &Entries<'o>,
    objects: &'o [Object],
    table: &'o ModeTable,
    brick: &'o Brick,
) -> Result<Option<Bytes>, Memory>
    requires { Known (system_of objects.now) entries.now }
    ensures { IfOk result (λ found. MatchOption found (IsAlike (system_of objects.now) (signature table.now brick.now)) (IsUnlike (system_of objects.now) (signature table.now brick.now))) }
{
    let name = brick.name.as_slice();
    match brick.kind {
        BrickKind::Own(_) | BrickKind::Ent(_) => Ok(None),
        BrickKind::Ext(_) => match find(entries, name) {
            Some(entry) => {
                let (other_table, other) = brick_at(objects, entry);
                unlike_entry(alloc, table, brick, other_table, other)
            }
            None => Ok(None),
        },
        BrickKind::Svc(_) => match Supplied::named(name) {
            Some(supplied) => unlike_supplied(alloc, table, brick, supplied),
            None => Ok(None),
        },
    }
}

/// The fault of a brick of the module of this number that differs from what has this full mode.
fn mismatch(
    alloc: Global,
    number: u16,
    table: &ModeTable,
    brick: &Brick,
    found: Bytes,
) -> Result<MatchFault, Memory>
    ensures { IfOk result (λ f. f ≡ fault.Mismatch number brick.now.name (signature table.now brick.now).mode found) }
{
    let wanted = full_text(alloc, table, shape_of(&brick.kind))?;
    Ok(MatchFault::Mismatch {
        module: number,
        brick: brick.name.copy(alloc)?,
        wanted,
        found,
    })
}

/// Refuses the first brick of the module at `at`, counted from 0, that differs from that for which it asks.
fn check_module<'o>(
    alloc: Global,
    entries: &Entries<'o>,
    objects: &'o [Object],
    at: usize,
) -> Result<(), MatchFault>
    requires few { length objects.now ≤ 64 }
    requires there { at < length objects.now }
    requires known { Known (system_of objects.now) entries.now }
    requires found { Never (system_of objects.now) (Lacks (system_of objects.now)) }
    requires clear { Clear (system_of objects.now) (Differs (system_of objects.now)) (suc at) 0 }
    ensures ok { OnOk result (Clear (system_of objects.now) (Differs (system_of objects.now)) (suc (suc at)) 0) }
    ensures err { IfErr result (Fails (system_of objects.now)) }
{
    let parts = objects[at].parts();
    let bricks = parts.bricks.as_slice();
    for number in 0..bricks.len() {
        let brick = &bricks[number];
        if let Some(found) = unlike(alloc, entries, objects, &parts.records, brick)? {
            return Err(mismatch(alloc, at as u16 + 1, &parts.records, brick, found)?);
        }
    }
    Ok(())
}

/// Refuses the first brick that differs from that for which it asks, where each EXT brick's name is found.
pub fn check_alike<'o>(
    alloc: Global,
    entries: &Entries<'o>,
    objects: &'o [Object],
) -> Result<(), MatchFault>
    requires few { length objects.now ≤ 64 }
    requires known { Known (system_of objects.now) entries.now }
    requires found { Never (system_of objects.now) (Lacks (system_of objects.now)) }
    ensures ok { OnOk result (Never (system_of objects.now) (Differs (system_of objects.now))) }
    ensures err { IfErr result (Fails (system_of objects.now)) }
{
    for at in 0..objects.len() {
        check_module(alloc, entries, objects, at)?;
    }
    Ok(())
}
