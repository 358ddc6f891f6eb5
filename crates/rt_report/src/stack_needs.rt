//! The needs of procedures.

ghost use Rattle.std.specs.Prelude.{◌≡◌, length, IfOk, OnOk};
ghost use Rattle.rt_report.specs.StackNeeds as spec;
ghost use Rattle.rt_report.specs.StackNeeds.{AddsFirst, Tells};

use rt_tree_nodes::Proc;
use rt_words::Memory;
use std::alloc::Global;
use std::collections::BTreeMap;

/// Needs by the modules and bricks of their procedures.
pub type NeedMap = BTreeMap<(u16, u16), u32>;

/// The need of a procedure, where it has one.
pub fn need_of(map: &NeedMap, of: Proc) -> Option<u32>
    ensures { result ≡ spec.need_in map.now of }
{
    map.get(&(of.module, of.brick)).copied()
}

/// Notes the need of a procedure that has none.
fn note(map: &mut NeedMap, of: Proc, need: u32) -> Result<(), Memory>
    ensures { OnOk result (AddsFirst of need map.old map.new) }
{
    if need_of(map, of).is_some() {
        return Ok(());
    }
    match map.insert((of.module, of.brick), need) {
        Ok(_) => Ok(()),
        Err(_) => Err(Memory),
    }
}

/// The needs that go with an order.
pub fn all_needs(alloc: Global, procs: &[Proc], needs: &[u32]) -> Result<NeedMap, Memory>
    requires { length needs.now ≡ length procs.now }
    ensures { IfOk result (Tells procs.now needs.now) }
{
    let mut map = BTreeMap::new(alloc);
    for number in 0..procs.len() {
        note(&mut map, procs[number], needs[number])?;
    }
    Ok(map)
}
