//! To what the bricks of the modules of a system are bound.

ghost use Rattle.std.specs.Prelude.{◌≡◌, ◌≤◌, All, IfOk, length};
ghost use Rattle.rt_work_state.specs.Stores as stores;
ghost use Rattle.rt_resolve.specs.Bindings as bindings;
ghost use Rattle.rt_resolve.specs.Systems.{IsNumbered};

use rt_modes::Supplied;
use rt_tree::{Brick, Kind, Proc, TypedModule};
use rt_words::{List, Memory};
use std::alloc::Global;

fn supplied(number: u16) -> Proc
    ensures { result ≡ stores.supplied number }
{
    Proc {
        module: 0,
        brick: number,
    }
}

// The number of a supplied procedure; 0 where the name isn't one.
fn supplied_number(name: &[u8]) -> u16
    ensures { result ≡ bindings.supplied_number name.now }
{
    match Supplied::named(name) {
        Some(brick) if brick.number() <= 10 => u16::from(brick.number()),
        _ => 0,
    }
}

// Whether a brick is the ENT brick of a name.
fn enters(name: &[u8], brick: &Brick) -> bool
    ensures { result ≡ bindings.enters name.now brick.now }
{
    matches!(brick.kind, Kind::Ent) && brick.name.as_slice() == name
}

// The ENT brick of a name in a module.
fn entry_in(name: &[u8], number: u16, bricks: &[Brick]) -> Option<Proc>
    requires { length bricks.now ≤ 65536 }
    ensures { result ≡ bindings.entry_from name.now number 0 bricks.now }
{
    for at in 0..bricks.len() {
        if enters(name, &bricks[at]) {
            return Some(Proc {
                module: number,
                brick: at as u16,
            });
        }
    }
    None
}

// The ENT brick of a name in a system.
fn entry(name: &[u8], modules: &[TypedModule]) -> Option<Proc>
    requires few { length modules.now ≤ 64 }
    requires numbered { All IsNumbered modules.now }
    ensures { result ≡ bindings.entry name.now 1 modules.now }
{
    for at in 0..modules.len() {
        let bricks = modules[at].bricks().as_slice();
        let found = entry_in(name, at as u16 + 1, bricks);
        if found.is_some() {
            return found;
        }
    }
    None
}

// To what brick `at` of a module is bound.
fn bound(modules: &[TypedModule], number: u16, at: u16, brick: &Brick) -> Proc
    requires few { length modules.now ≤ 64 }
    requires numbered { All IsNumbered modules.now }
    ensures { result ≡ bindings.bound modules.now number at brick.now }
{
    match brick.kind {
        Kind::Own | Kind::Ent => Proc {
            module: number,
            brick: at,
        },
        Kind::Ext => match entry(brick.name.as_slice(), modules) {
            Some(found) => found,
            None => supplied(0),
        },
        Kind::Svc => supplied(supplied_number(brick.name.as_slice())),
    }
}

/// To what each brick of a module is bound, in a system of these modules.
pub fn bounds(
    alloc: Global,
    modules: &[TypedModule],
    number: u16,
    bricks: &[Brick],
) -> Result<List<Proc>, Memory>
    requires few { length modules.now ≤ 64 }
    requires numbered { All IsNumbered modules.now }
    requires words { length bricks.now ≤ 65536 }
    ensures { IfOk result (λ fs. fs ≡ bindings.bounds_from modules.now number 0 bricks.now) }
{
    let mut all = List::new(alloc, bricks.len())?;
    for at in 0..bricks.len() {
        all.push(bound(modules, number, at as u16, &bricks[at]))?;
    }
    Ok(all)
}
