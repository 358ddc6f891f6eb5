//! The needs of procedures.

ghost use Rattle.std.specs.Prelude.{◌≡◌, ◌≤◌, ◌+◌, List, length, replicate, slice_get, slice_set, if◌then◌else◌, IfOk};
ghost use Rattle.rt_graph.specs.Calls as calls;
ghost use Rattle.rt_graph.specs.Classes as classes;
ghost use Rattle.rt_graph.specs.Needs.{AreNeeds, kept};
ghost use Rattle.rt_graph.specs.Nodes as nodes;
ghost use Rattle.rt_graph.specs.Nodes.{IsTable};
ghost use Rattle.rt_graph.specs.Reach.{IsCallOrder};
ghost use Rattle.rt_graph.specs.Rows.{IsRow};
ghost use Rattle.rt_graph.specs.Sums as spec;

use crate::nodes::{callee, error_node, meets_errors};
use crate::places::{body_of, object_at};
use crate::reached::Order;
use crate::row::Row;
use crate::table::{Linked, Table};
use crate::taken::taken_texts;
use rt_match::Bindings;
use rt_object::{Call, Object, ObjectParts, ProcContent, Target};
use rt_tree_nodes::Proc;
use rt_words::{Bytes, List, Memory};
use std::alloc::Global;

/// The needs found so far, in words: of bricks by their numbers, and the greatest of each class.
#[derive(Drop)]
pub struct Found {
    pub of: List<u32>,
    pub greatest: List<u32>,
}

/// How many words of the stack each procedure of an order needs, in its order; a need above 4,294,967,295 is that number.
pub fn needs(
    alloc: Global,
    objects: &[Object],
    bindings: &Bindings,
    order: &Order,
) -> Result<List<u32>, Memory>
    requires few { length objects.now ≤ 64 }
    requires order { (roots : List Proc) × IsCallOrder objects.now bindings.now.of roots order.now.procs }
    ensures { IfOk result (AreNeeds objects.now bindings.now.of order.now.procs) }
{
    let row = Row::of(alloc, objects)?;
    let texts = taken_texts(alloc, objects, bindings, &row)?;
    needs_by(alloc, objects, bindings, order, row, texts.as_slice())
}

fn needs_by(
    alloc: Global,
    objects: &[Object],
    bindings: &Bindings,
    order: &Order,
    row: Row,
    texts: &[Option<Bytes>],
) -> Result<List<u32>, Memory>
    requires few { length objects.now ≤ 64 }
    requires row { IsRow objects.now row }
    requires texts { texts.now ≡ classes.taken_texts objects.now bindings.now.of }
    requires order { (roots : List Proc) × IsCallOrder objects.now bindings.now.of roots order.now.procs }
    ensures { IfOk result (AreNeeds objects.now bindings.now.of order.now.procs) }
{
    let table = Table::of(alloc, objects, bindings, row, texts)?;
    let mut found = Found {
        of: zeros(alloc, table.row.bricks.len())?,
        greatest: zeros(alloc, table.classes.count)?,
    };
    let linked = Linked {
        objects,
        bindings,
        table: &table,
    };
    needs_of(alloc, linked, &mut found, order.procs.as_slice())
}

fn zeros(alloc: Global, count: usize) -> Result<List<u32>, Memory>
    ensures { IfOk result (λ ns. ns ≡ replicate count 0) }
{
    Ok(List::from_vec(vec![in alloc; 0; count]?))
}

/// The needs of procedures of which each stands behind those that it may call.
fn needs_of(
    alloc: Global,
    linked: Linked<'_, '_>,
    found: &mut Found,
    procs: &[Proc],
) -> Result<List<u32>, Memory>
    requires { IsTable linked.objects.now linked.bindings.now.of linked.table.now }
    ensures { IfOk result (λ needs. needs ≡ spec.needs_of linked.entry.objects.now linked.entry.bindings.now.of linked.entry.table.now procs.now found.old) }
{
    let mut needs = List::new(alloc, procs.len())?;
    for of in procs {
        let need = need_of(alloc, linked, found, *of)?;
        let number = linked.table.row.number(linked.objects, *of);
        found.note(linked.table, number, need);
        needs.push(need)?;
    }
    Ok(needs)
}

/// What a procedure needs, where all that it may call is found.
fn need_of(alloc: Global, linked: Linked<'_, '_>, found: &Found, of: Proc) -> Result<u32, Memory>
    requires { IsTable linked.objects.now linked.bindings.now.of linked.table.now }
    ensures { IfOk result (λ need. need ≡ spec.need_of linked.entry.objects.now linked.entry.bindings.now.of linked.entry.table.now found.now of) }
{
    if of.module == 0 {
        return Ok(supplied_need(linked.table, found, of.brick));
    }
    match object_at(linked.objects, of.module) {
        Some(object) => match body_of(linked.objects, of) {
            Some(body) => body_need(alloc, linked, found, of.module, object, body),
            None => Ok(0),
        },
        None => Ok(0),
    }
}

fn supplied_need(table: &Table<'_>, found: &Found, number: u16) -> u32
    requires { nodes.HasSmallNodes table.now }
    ensures { result ≡ (if nodes.meets_errors number then spec.plus 2 (spec.node_need table.now found.now (nodes.class_node table.now calls.int_taken)) else 1) }
{
    if meets_errors(number) {
        found.at(table, error_node(table)).saturating_add(2)
    } else {
        1
    }
}

fn body_need(
    alloc: Global,
    linked: Linked<'_, '_>,
    found: &Found,
    module: u16,
    object: &ObjectParts,
    body: &ProcContent,
) -> Result<u32, Memory>
    requires { IsTable linked.objects.now linked.bindings.now.of linked.table.now }
    ensures { IfOk result (λ need. need ≡ spec.plus (2 + body.now.locals) (spec.deepest linked.entry.objects.now linked.entry.bindings.now.of linked.entry.table.now found.now «module» object.now body.now.calls body.now.deep)) }
{
    let mut deepest = u32::from(body.deep);
    for call in body.calls.as_slice() {
        let node = callee(alloc, linked, module, object, &call.target)?;
        deepest = greater(deepest, point_need(call, found.at(linked.table, node)));
    }
    Ok((2 + u32::from(body.locals)).saturating_add(deepest))
}

fn greater(a: u32, b: u32) -> u32
    ensures { result ≡ spec.greater a b }
{
    if a < b { b } else { a }
}

fn point_need(call: &Call, callee: u32) -> u32
    ensures { result ≡ spec.plus (call.now.depth + kept call.now.target + call.now.args) callee }
{
    words(call.depth, kept(&call.target), call.args, callee)
}

fn words(depth: u16, kept: u32, args: u16, callee: u32) -> u32
    requires { kept ≤ 1 }
    ensures { result ≡ spec.plus (depth + kept + args) callee }
{
    (u32::from(depth) + kept + u32::from(args)).saturating_add(callee)
}

/// A call through a mode keeps the procedure below its arguments.
fn kept(target: &Target) -> u32
    ensures value { result ≡ kept target.now }
    ensures small { result ≤ 1 }
{
    match target {
        Target::Mode(_) => 1,
        Target::Brick(_) | Target::Error => 0,
    }
}

impl Found {
    /// What a node needs, where one is called.
    fn at(&self, table: &Table<'_>, node: Option<usize>) -> u32
        ensures { result ≡ spec.node_need table.now self.now node }
    {
        match node {
            Some(node) => {
                let total = table.row.bricks.len();
                if node < total {
                    need_at(&self.of, node)
                } else {
                    need_at(&self.greatest, node - total)
                }
            }
            None => 0,
        }
    }

    /// Notes the need of the procedure that has a number.
    fn note(&mut self, table: &Table<'_>, number: Option<usize>, need: u32)
        ensures { self.new ≡ spec.note table.now number need self.old }
    {
        if let Some(number) = number {
            raise(&mut self.greatest, class_at(table, number), need);
            put(&mut self.of, number, need);
        }
    }
}

/// The class of a brick of the row.
fn class_at(table: &Table<'_>, number: usize) -> Option<usize>
    ensures { result ≡ spec.flat (slice_get table.now.classes.of number) }
{
    match table.classes.of.get(number) {
        Some(class) => *class,
        None => None,
    }
}

fn need_at(needs: &List<u32>, at: usize) -> u32
    ensures { result ≡ spec.need_at needs.now at }
{
    match needs.get(at) {
        Some(need) => *need,
        None => 0,
    }
}

fn put(needs: &mut List<u32>, at: usize, need: u32)
    ensures { needs.new ≡ slice_set needs.old at need }
{
    if at < needs.len() {
        needs.set(at, need);
    }
}

fn raise(greatest: &mut List<u32>, class: Option<usize>, need: u32)
    ensures { greatest.new ≡ spec.raise class need greatest.old }
{
    if let Some(class) = class {
        let most = greater(need_at(greatest, class), need);
        put(greatest, class, most);
    }
}
