//! Records that contain themselves: cycles in the graph of records.

ghost use Rattle.std.specs.Prelude.{◌≡◌, ◌↔◌, List, IfOk, IsTrue};
ghost use Rattle.std.specs.List.{range_with_len};
ghost use Rattle.rt_modes.specs.declared.mode.RecordDef.{RecordDef};
ghost use Rattle.rt_sizes.specs.Containing.{Contains};
ghost use Rattle.rt_sizes.specs.Rings.{AreRings, IsFirstRing, begun_by, graph_of, held_in};

use crate::contain::{held, is_marked};
use rt_digraph::{Sorted, mark_cycles, sort};
use rt_modes::{Field, RecordDef};
use rt_words::{List, Memory};
use std::alloc::Global;

/// The first record that contains itself. Where none does that takes time by the number of records and fields alone.
pub fn first_ring(alloc: Global, records: &[RecordDef]) -> Result<Option<usize>, Memory>
    ensures { IfOk result (IsFirstRing records.now) }
{
    let graph = graph_of(alloc, records)?;
    let roots = numbers_below(alloc, records.len())?;
    let sorted = sort(alloc, graph.as_slice(), roots.as_slice())?;
    Ok(begun_by(&sorted))
}

/// Of each record whether it contains itself. Where few rings have records in common that takes time by the number of records and
/// fields alone.
pub fn mark_rings(alloc: Global, records: &[RecordDef]) -> Result<Vec<bool>, Memory>
    ensures { IfOk result (λ marks. AreRings records.now marks.items) }
{
    let graph = graph_of(alloc, records)?;
    mark_cycles(alloc, graph.as_slice())
}

/// Whether a record contains itself, where the records that do are marked.
pub fn is_ring(marks: &[bool], number: usize) -> bool
    ensures { (records : List RecordDef) → AreRings records marks.now → (IsTrue result ↔ Contains records number number) }
{
    is_marked(marks, number)
}

/// Of each record those that its fields hold.
fn graph_of(alloc: Global, records: &[RecordDef]) -> Result<List<List<usize>>, Memory>
    ensures { IfOk result (λ graph. graph ≡ graph_of records.now) }
{
    let mut graph = List::new(alloc, 0)?;
    for record in records {
        let inner = held_in(alloc, record.fields.as_slice())?;
        graph.push(inner)?;
    }
    Ok(graph)
}

/// The records that fields hold.
fn held_in(alloc: Global, fields: &[Field]) -> Result<List<usize>, Memory>
    ensures { IfOk result (λ inner. inner ≡ held_in fields.now) }
{
    let mut inner = List::new(alloc, 0)?;
    for field in fields {
        if let Some(number) = held(&field.mode) {
            inner.push(number)?;
        }
    }
    Ok(inner)
}

/// The numbers below one.
fn numbers_below(alloc: Global, count: usize) -> Result<List<usize>, Memory>
    ensures { IfOk result (λ numbers. numbers ≡ range_with_len 0 count) }
{
    let mut numbers = List::new(alloc, 0)?;
    for number in 0..count {
        numbers.push(number)?;
    }
    Ok(numbers)
}

/// The node with which a cycle begins, where one was found.
fn begun_by(sorted: &Sorted) -> Option<usize>
    ensures { result ≡ begun_by sorted.now }
{
    match sorted {
        Sorted::Order(_) => None,
        Sorted::Cycle(cycle) => match cycle.get(0) {
            Some(first) => Some(*first),
            None => None,
        },
    }
}
