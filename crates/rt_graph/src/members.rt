//! The candidates of a mode.

ghost use Rattle.std.specs.Prelude.{◌≡◌, ◌≤◌, length, slice_get, IfOk, Some};
ghost use Rattle.rt_graph.specs.Calls.{numbered};
ghost use Rattle.rt_object.specs.declared.object.ObjectParts.{ObjectParts};
ghost use Rattle.rt_graph.specs.Candidates.{AreCandidates};
ghost use Rattle.rt_graph.specs.Candidates as spec;
ghost use Rattle.rt_graph.specs.Classes as classes;
ghost use Rattle.rt_graph.specs.Nodes.{IsTable};
ghost use Rattle.rt_graph.specs.Nodes as nodes;
ghost use Rattle.rt_graph.specs.Rows.{IsRow};

use crate::nodes::{mode_node, push_some};
use crate::places::object_at;
use crate::row::Row;
use crate::table::Table;
use crate::taken::taken_texts;
use rt_match::Bindings;
use rt_modes::{Mode, ModeTable};
use rt_object::Object;
use rt_tree_nodes::Proc;
use rt_words::{Bytes, List, Memory};
use std::alloc::Global;

/// The procedures that a value of a mode of a module may be: those of its full mode whose names stand as values or starts in some
/// module, and RRIN, RROUT and RRGEL. Supplied ones come first, by number, then by module and declaration. A mode that is no PROC
/// has none.
pub fn candidates(
    alloc: Global,
    objects: &[Object],
    bindings: &Bindings,
    module: u16,
    mode: &Mode,
) -> Result<List<Proc>, Memory>
    requires { length objects.now ≤ 64 }
    ensures { (o : ObjectParts) → numbered objects.now «module» ≡ Some o → IfOk result (AreCandidates objects.now bindings.now.of o.records mode.now) }
{
    let row = Row::of(alloc, objects)?;
    let texts = taken_texts(alloc, objects, bindings, &row)?;
    match object_at(objects, module) {
        Some(object) => candidates_by(
            alloc,
            objects,
            bindings,
            &object.records,
            mode,
            row,
            texts.as_slice(),
        ),
        None => List::new(alloc, 0),
    }
}

fn candidates_by(
    alloc: Global,
    objects: &[Object],
    bindings: &Bindings,
    records: &ModeTable,
    mode: &Mode,
    row: Row,
    texts: &[Option<Bytes>],
) -> Result<List<Proc>, Memory>
    requires few { length objects.now ≤ 64 }
    requires row { IsRow objects.now row }
    requires texts { texts.now ≡ classes.taken_texts objects.now bindings.now.of }
    ensures { IfOk result (AreCandidates objects.now bindings.now.of records.now mode.now) }
{
    let table = Table::of(alloc, objects, bindings, row, texts)?;
    match mode_node(alloc, &table, records, mode)? {
        Some(node) => members(alloc, &table, node),
        None => List::new(alloc, 0),
    }
}

/// The bricks of the class that has a node.
fn members(alloc: Global, table: &Table<'_>, node: usize) -> Result<List<Proc>, Memory>
    ensures { IfOk result (λ fs. fs ≡ spec.members (nodes.total table.now) node table.now.classes.of 0 table.now.row.bricks) }
{
    let row = table.row.bricks.as_slice();
    let mut members = List::new(alloc, 0)?;
    for number in 0..row.len() {
        push_some(&mut members, member(table, node, number, row[number]))?;
    }
    Ok(members)
}

/// A brick of the row, if it is of the class that has a node.
fn member(table: &Table<'_>, node: usize, number: usize, of: Proc) -> Option<Proc>
    ensures { result ≡ spec.only_if (spec.is_member (nodes.total table.now) node (slice_get table.now.classes.of number)) of }
{
    if is_member(table, node, number) {
        Some(of)
    } else {
        None
    }
}

fn is_member(table: &Table<'_>, node: usize, number: usize) -> bool
    ensures { result ≡ spec.is_member (nodes.total table.now) node (slice_get table.now.classes.of number) }
{
    let total = table.row.bricks.len();
    match table.classes.of.get(number) {
        Some(Some(class)) => total <= node && node - total == *class,
        _ => false,
    }
}
