//! The printed names of modules' files and of procedures.

ghost use Rattle.std.specs.Prelude.{◌≡◌, map, slice_get, IfOk, IfSome};
ghost use Rattle.rt_modes.specs.Bricks.{brick_numbered, number_of, name_in};
ghost use Rattle.rt_accept.specs.Verdicts as spec;

use crate::entries::LIBRARY;
use rt_modes::{SUPPLIED, Supplied};
use rt_object::{Object, ObjectParts};
use rt_report::ProcName;
use rt_system::Entry;
use rt_tree_nodes::Proc;
use rt_words::{Bytes, List, Memory, Name};
use std::alloc::Global;

/// Lends the name of a line's file.
fn file_of(entry: &Entry) -> &[u8]
    ensures { result.now ≡ spec.file_of entry.now }
{
    match entry {
        Entry::Module(file) | Entry::Object(file) => file.as_slice(),
        Entry::Library => LIBRARY.as_bytes(),
    }
}

/// Lends the name of a module's file, an empty one where there is no such module.
fn lend_file(entries: &[Entry], module: Option<u16>) -> &[u8]
    ensures { result.now ≡ spec.file_at entries.now «module» }
{
    match module {
        None | Some(0) => b"",
        Some(number) => match entries.get(usize::from(number) - 1) {
            Some(entry) => file_of(entry),
            None => b"",
        },
    }
}

/// The name of a module's file.
pub fn file_at(alloc: Global, entries: &[Entry], module: Option<u16>) -> Result<Bytes, Memory>
    ensures { IfOk result (λ file. file ≡ spec.file_at entries.now «module») }
{
    Bytes::from_slice(alloc, lend_file(entries, module))
}

/// What is supplied by a number.
fn supplied(number: u16) -> Option<Supplied>
    ensures { IfSome result (λ brick. number_of brick ≡ number) }
{
    for brick in SUPPLIED {
        if u16::from(brick.number()) == number {
            return Some(brick);
        }
    }
    None
}

/// The name of what is supplied by a number. Where nothing is, it can't be told.
fn supplied_name(alloc: Global, number: u16) -> Result<Name, Memory>
    ensures { IfOk result (λ name. name ≡ name_in (brick_numbered number)) }
{
    match supplied(number) {
        Some(brick) => match Name::new(alloc, brick.name().as_bytes())? {
            Some(name) => Ok(name),
            None => Err(Memory),
        },
        None => Err(Memory),
    }
}

/// The name of a brick behind the title of its module. Where there is no such brick it can't be told.
fn name_within(alloc: Global, object: &ObjectParts, number: u16) -> Result<ProcName, Memory>
    ensures { IfOk result (λ name. name ≡ spec.titled object.now.title (slice_get object.now.bricks number)) }
{
    match object.bricks.get(usize::from(number)) {
        Some(brick) => {
            let title = object.title.copy(alloc)?;
            let name = brick.name.copy(alloc)?;
            Ok(ProcName {
                title: Some(title),
                name,
            })
        }
        None => Err(Memory),
    }
}

/// The name of a procedure. Where it isn't there it can't be told.
fn proc_name(alloc: Global, objects: &[Object], of: Proc) -> Result<ProcName, Memory>
    ensures { IfOk result (λ name. name ≡ spec.proc_name objects.now of) }
{
    if of.module == 0 {
        let name = supplied_name(alloc, of.brick)?;
        return Ok(ProcName { title: None, name });
    }
    match objects.get(usize::from(of.module) - 1) {
        Some(object) => name_within(alloc, object.parts(), of.brick),
        None => Err(Memory),
    }
}

/// The names of procedures.
pub fn proc_names(
    alloc: Global,
    objects: &[Object],
    procs: &[Proc],
) -> Result<List<ProcName>, Memory>
    ensures { IfOk result (λ names. names ≡ map (spec.proc_name objects.now) procs.now) }
{
    let mut names = List::new(alloc, procs.len())?;
    for of in procs {
        names.push(proc_name(alloc, objects, *of)?)?;
    }
    Ok(names)
}
