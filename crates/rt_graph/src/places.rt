//! What a system has at the places that its procedures name.

ghost use Rattle.std.specs.Prelude.{◌≡◌, ◌≤◌, ◌-◌, [], Some, slice_get, IfOk};
ghost use Rattle.rt_modes.specs.declared.supplied.TheConstants.{SUPPLIED};
ghost use Rattle.std.specs.Option.{option_copied};
ghost use Rattle.rt_modes.specs.FullMode.{FullMode};
ghost use Rattle.rt_graph.specs.Calls as calls;
ghost use Rattle.rt_graph.specs.Numbers as numbers;

use rt_match::{Bindings, Bound};
use rt_modes::{SUPPLIED, Supplied, write_mode};
use rt_object::{Brick, BrickKind, Content, Object, ObjectParts, ProcContent};
use rt_tree_nodes::Proc;
use rt_words::{Bytes, Memory, Text};
use std::alloc::Global;

/// The object of a module, by its number from 1.
pub fn object_at(objects: &[Object], module: u16) -> Option<&ObjectParts>
    ensures { option_copied result ≡ calls.numbered objects.now «module» }
{
    if module == 0 {
        return None;
    }
    match objects.get(usize::from(module) - 1) {
        Some(object) => Some(object.parts()),
        None => None,
    }
}

fn proc_of(kind: &BrickKind) -> Option<&ProcContent>
    ensures { option_copied result ≡ calls.body_in (calls.content_of kind.now) }
{
    match kind {
        BrickKind::Own(Content::Proc(proc)) => Some(proc),
        BrickKind::Ent(Content::Proc(proc)) => Some(proc),
        _ => None,
    }
}

fn proc_at(bricks: &[Brick], brick: u16) -> Option<&ProcContent>
    ensures { option_copied result ≡ calls.proc_at bricks.now brick }
{
    match bricks.get(usize::from(brick)) {
        Some(brick) => proc_of(&brick.kind),
        None => None,
    }
}

/// What a procedure of a module holds.
pub fn body_of(objects: &[Object], of: Proc) -> Option<&ProcContent>
    ensures { option_copied result ≡ numbers.body_of objects.now of }
{
    match object_at(objects, of.module) {
        Some(object) => proc_at(object.bricks.as_slice(), of.brick),
        None => None,
    }
}

fn is_supplied(number: u16) -> bool
    ensures { result ≡ numbers.is_supplied number }
{
    1 <= number && number <= 10
}

/// Whether there is such a procedure.
pub fn is_procedure(objects: &[Object], of: Proc) -> bool
    ensures { result ≡ numbers.is_procedure objects.now of }
{
    if of.module == 0 {
        is_supplied(of.brick)
    } else {
        body_of(objects, of).is_some()
    }
}

/// For what a brick of a module stands.
pub fn stands_for(bindings: &Bindings, module: u16, brick: u16) -> Option<Proc>
    ensures { result ≡ calls.stands_for bindings.now.of «module» brick }
{
    match bound_at(bindings, module, brick) {
        Some(bound) => Some(leads(module, brick, bound)),
        None => None,
    }
}

/// What a brick of a module was bound to; none where the module has no such brick, or there is no such module.
pub fn bound_at(bindings: &Bindings, module: u16, brick: u16) -> Option<Bound>
    ensures { result ≡ calls.bound_in (calls.numbered bindings.now.of «module») brick }
{
    if module == 0 {
        return None;
    }
    match bindings.of.get(usize::from(module) - 1) {
        Some(of) => match of.get(usize::from(brick)) {
            Some(bound) => Some(*bound),
            None => None,
        },
        None => None,
    }
}

fn leads(module: u16, brick: u16, bound: Bound) -> Proc
    ensures { result ≡ calls.leads «module» brick bound }
{
    match bound {
        Bound::Own => Proc { module, brick },
        Bound::Brick(module, brick) => Proc { module, brick },
        Bound::Supplied(number) => Proc {
            module: 0,
            brick: u16::from(number),
        },
    }
}

/// The full mode of a procedure, as a text.
pub fn full_mode(alloc: Global, objects: &[Object], of: Proc) -> Result<Option<Bytes>, Memory>
    ensures { IfOk result (λ text. text ≡ numbers.full_mode objects.now of) }
{
    if of.module == 0 {
        return supplied_mode(alloc, of.brick);
    }
    match (object_at(objects, of.module), body_of(objects, of)) {
        (Some(object), Some(body)) => Ok(Some(mode_text(alloc, object, body)?)),
        _ => Ok(None),
    }
}

fn mode_text(alloc: Global, object: &ObjectParts, body: &ProcContent) -> Result<Bytes, Memory>
    ensures { IfOk result (λ text. text ≡ FullMode object.now.records body.now.mode) }
{
    let mut text = Text::new(alloc, 0)?;
    write_mode(alloc, &object.records, &body.mode, &mut text)?;
    Ok(text.into_list())
}

fn supplied_mode(alloc: Global, number: u16) -> Result<Option<Bytes>, Memory>
    ensures { IfOk result (λ text. text ≡ numbers.full_in [] 0 number) }
{
    if !is_supplied(number) {
        return Ok(None);
    }
    let brick = supplied(usize::from(number));
    let text = Bytes::from_slice(alloc, brick.text().as_bytes())?;
    Ok(Some(text))
}

/// A supplied brick, by its number from 1.
fn supplied(number: usize) -> Supplied
    requires least { 1 ≤ number }
    requires most { number ≤ 12 }
    ensures { slice_get SUPPLIED (number - 1) ≡ Some result }
{
    SUPPLIED[number - 1]
}
