//! The call graph as nodes: the bricks of the row, and behind them one node for each class of full modes.

ghost use Rattle.std.specs.Prelude.{◌≡◌, [], ◌++◌, ◌≤◌, ℕ, List, length, map, replicate, IfOk, OnOk};
ghost use Rattle.std.specs.Option.{option_copied};
ghost use Rattle.rt_graph.specs.Calls.{int_taken};
ghost use Rattle.rt_graph.specs.Classes as classes;
ghost use Rattle.rt_object.specs.Grammar.{is_proc};
ghost use Rattle.rt_graph.specs.Nodes as spec;
ghost use Rattle.rt_graph.specs.Nodes.{IsTable};

use crate::places::{body_of, object_at};
use crate::table::{Linked, Table};
use crate::taken::number_taken;
use rt_modes::{Mode, ModeTable, write_mode};
use rt_object::{Call, ObjectParts, ProcContent, Target};
use rt_tree_nodes::Proc;
use rt_words::{List, Memory, Text};
use std::alloc::Global;

/// The full mode for errors.
const INT_TAKEN: &str = "PROC(INT)";

/// The node that is called at a point of a procedure of a module, where one is.
pub fn callee(
    alloc: Global,
    linked: Linked<'_, '_>,
    module: u16,
    object: &ObjectParts,
    target: &Target,
) -> Result<Option<usize>, Memory>
    requires { IsTable linked.objects.now linked.bindings.now.of linked.table.now }
    ensures { IfOk result (λ node. node ≡ spec.callee linked.entry.objects.now linked.entry.bindings.now.of linked.entry.table.now «module» object.now target.now) }
{
    match target {
        Target::Brick(brick) => Ok(number_taken(
            linked.objects,
            linked.bindings,
            &linked.table.row,
            module,
            *brick,
        )),
        Target::Mode(mode) => mode_node(alloc, linked.table, &object.records, mode),
        Target::Error => Ok(error_node(linked.table)),
    }
}

/// The node of a PROC mode; of another mode none.
pub fn mode_node(
    alloc: Global,
    table: &Table<'_>,
    records: &ModeTable,
    mode: &Mode,
) -> Result<Option<usize>, Memory>
    requires { spec.HasSmallNodes table.now }
    ensures { IfOk result (λ node. node ≡ spec.mode_node table.now records.now mode.now) }
{
    if !is_proc(mode) {
        return Ok(None);
    }
    let mut text = Text::new(alloc, 0)?;
    write_mode(alloc, records, mode, &mut text)?;
    Ok(table.class_node(text.as_slice()))
}

fn is_proc(mode: &Mode) -> bool
    ensures { result ≡ is_proc mode.now }
{
    matches!(mode, Mode::Proc(_, _))
}

/// The node of the procedures for errors.
pub fn error_node(table: &Table<'_>) -> Option<usize>
    requires { spec.HasSmallNodes table.now }
    ensures { result ≡ spec.class_node table.now int_taken }
{
    table.class_node(INT_TAKEN.as_bytes())
}

/// The nodes that some calls of a procedure of a module lead to.
fn callees(
    alloc: Global,
    linked: Linked<'_, '_>,
    module: u16,
    object: &ObjectParts,
    calls: &[Call],
) -> Result<List<usize>, Memory>
    requires { IsTable linked.objects.now linked.bindings.now.of linked.table.now }
    ensures { IfOk result (λ nodes. nodes ≡ spec.callees linked.entry.objects.now linked.entry.bindings.now.of linked.entry.table.now «module» object.now calls.now) }
{
    let mut nodes = List::new(alloc, 0)?;
    for call in calls {
        let node = callee(alloc, linked, module, object, &call.target)?;
        push_some(&mut nodes, node)?;
    }
    Ok(nodes)
}

pub fn push_some<T: Drop>(items: &mut List<T>, item: Option<T>) -> Result<(), Memory>
    ensures { OnOk result (items.new ≡ items.old ++ spec.with_one item []) }
{
    match item {
        Some(item) => items.push(item),
        None => Ok(()),
    }
}

/// Whether a supplied procedure meets errors.
pub fn meets_errors(number: u16) -> bool
    ensures { result ≡ spec.meets_errors number }
{
    4 <= number && number <= 7
}

/// The nodes that a brick calls.
fn nodes_of(alloc: Global, linked: Linked<'_, '_>, of: Proc) -> Result<List<usize>, Memory>
    requires { IsTable linked.objects.now linked.bindings.now.of linked.table.now }
    ensures { IfOk result (λ nodes. nodes ≡ spec.nodes_of linked.entry.objects.now linked.entry.bindings.now.of linked.entry.table.now of) }
{
    if of.module == 0 {
        return supplied_nodes(alloc, linked.table, of.brick);
    }
    match object_at(linked.objects, of.module) {
        Some(object) => match body_of(linked.objects, of) {
            Some(body) => callees(alloc, linked, of.module, object, body.calls.as_slice()),
            None => List::new(alloc, 0),
        },
        None => List::new(alloc, 0),
    }
}

fn supplied_nodes(alloc: Global, table: &Table<'_>, number: u16) -> Result<List<usize>, Memory>
    requires { spec.HasSmallNodes table.now }
    ensures { IfOk result (λ nodes. nodes ≡ spec.supplied_nodes table.now number) }
{
    let mut nodes = List::new(alloc, 0)?;
    if meets_errors(number) {
        push_some(&mut nodes, error_node(table))?;
    }
    Ok(nodes)
}

/// The call graph.
pub fn call_graph(alloc: Global, linked: Linked<'_, '_>) -> Result<List<List<usize>>, Memory>
    requires { IsTable linked.objects.now linked.bindings.now.of linked.table.now }
    ensures { IfOk result (λ graph. graph ≡ spec.call_graph linked.entry.objects.now linked.entry.bindings.now.of linked.entry.table.now) }
{
    let mut graph = List::new(alloc, 0)?;
    push_bricks(alloc, linked, &mut graph)?;
    push_none(alloc, &mut graph, linked.table.classes.count)?;
    let mut graph = graph.into_vec();
    group(linked.table, &mut graph)?;
    Ok(List::from_vec(graph))
}

fn push_bricks(
    alloc: Global,
    linked: Linked<'_, '_>,
    graph: &mut List<List<usize>>,
) -> Result<(), Memory>
    requires { IsTable linked.objects.now linked.bindings.now.of linked.table.now }
    ensures { OnOk result (graph.new ≡ graph.old ++ map (spec.nodes_of linked.entry.objects.now linked.entry.bindings.now.of linked.entry.table.now) linked.entry.table.now.row.bricks) }
{
    for of in linked.table.row.bricks.as_slice() {
        let nodes = nodes_of(alloc, linked, *of)?;
        graph.push(nodes)?;
    }
    Ok(())
}

fn push_none(alloc: Global, graph: &mut List<List<usize>>, count: usize) -> Result<(), Memory>
    ensures { OnOk result (graph.new ≡ graph.old ++ replicate count []) }
{
    for _ in 0..count {
        let none = List::new(alloc, 0)?;
        graph.push(none)?;
    }
    Ok(())
}

/// Makes the bricks of each class the successors of its node.
fn group(table: &Table<'_>, graph: &mut Vec<List<usize>>) -> Result<(), Memory>
    requires { spec.HasSmallNodes table.now }
    ensures { OnOk result (graph.new.items ≡ classes.grouped (spec.total table.now) 0 table.now.classes.of graph.old.items) }
{
    let of = table.classes.of.as_slice();
    for number in 0..of.len() {
        if let Some(class) = of[number] {
            add(graph, table.row.bricks.len().saturating_add(class), number)?;
        }
    }
    Ok(())
}

/// Puts a successor behind those of a node.
fn add(graph: &mut Vec<List<usize>>, node: usize, successor: usize) -> Result<(), Memory>
    ensures { OnOk result (graph.new.items ≡ classes.add graph.old.items node successor) }
{
    if node < graph.len() {
        graph[node].push(successor)
    } else {
        Ok(())
    }
}
