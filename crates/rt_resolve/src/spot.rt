//! The plain trees of places, from what they stand in.

ghost use Rattle.std.specs.Prelude.{◌≡◌, IfOk};
ghost use Rattle.rt_tree_nodes.specs.Code as seen;
ghost use Rattle.rt_tree.specs.Statements as statements;
ghost use Rattle.rt_tree_nodes.specs.Typing as typing;
ghost use Rattle.rt_tree_nodes.specs.Tree as tree;
ghost use Rattle.rt_modes.specs.declared.mode.Mode.{out-Mode};
ghost use Rattle.rt_work_state.specs.Nodes as n;
ghost use Rattle.rt_resolve.specs.Trees as trees;

use crate::share::shared;
use rt_modes::Mode;
use rt_tree::{Found, Lent, ValueMode, copy_mode};
use rt_tree_nodes::copy_lent;
use rt_words::Memory;
use rt_work_state::{PathNode, StmtNode, TermNode};
use std::alloc::Global;
use std::rc::Rc;

/// What a place is: a local, a shared place, or the array behind a REF ARRAY.
#[derive(Drop)]
pub enum Spot {
    Local(u16),
    Path(PathNode),
    Row(TermNode),
}

// The mode at a place of data.
fn mode_at<'a>(found: &Option<Found<'a>>) -> Lent<'a>
    ensures { seen.lent result ≡ typing.mode_at (seen.place_found found.now) }
{
    match found {
        None => Lent::Int,
        Some(found) => match found {
            Found::Shared(mode) => *mode,
            Found::Private(mode) => Lent::Of(mode),
            _ => Lent::Int,
        },
    }
}

/// A field of a place.
pub fn field(alloc: Global, spot: Spot, found: &Option<Found<'_>>, k: u16) -> Result<Spot, Memory>
    ensures { IfOk result (λ s. trees.spot s ≡ typing.field_tree (trees.placed_by (seen.place_found found.now) (trees.spot spot)) k) }
{
    match spot {
        Spot::Path(path) => {
            let path = field_path(alloc, &mode_at(found), path, k)?;
            Ok(Spot::Path(path))
        }
        other => Ok(other),
    }
}

fn field_path(alloc: Global, mode: &Lent<'_>, path: PathNode, k: u16) -> Result<PathNode, Memory>
    ensures { IfOk result (λ q. n.path q ≡ typing.field_path (out-Mode (seen.lent mode.now)) (n.path path) k) }
{
    match mode {
        Lent::Of(mode) => match mode {
            Mode::Record(r) => Ok(PathNode::FieldOf(shared(alloc, path)?, *r, k)),
            _ => Ok(path),
        },
        _ => Ok(path),
    }
}

/// An element of a place.
pub fn element(
    alloc: Global,
    spot: Spot,
    found: &Option<Found<'_>>,
    subscript: Rc<TermNode>,
) -> Result<Spot, Memory>
    ensures { IfOk result (λ s. trees.spot s ≡ typing.element_in (seen.place_found found.now) (trees.spot spot) (n.term subscript.value)) }
{
    match spot {
        Spot::Local(i) => Ok(Spot::Local(i)),
        Spot::Path(path) => {
            let path = element_path(alloc, &mode_at(found), path, subscript)?;
            Ok(Spot::Path(path))
        }
        Spot::Row(row) => element_of_row(alloc, found, row, subscript),
    }
}

fn element_path(
    alloc: Global,
    mode: &Lent<'_>,
    path: PathNode,
    subscript: Rc<TermNode>,
) -> Result<PathNode, Memory>
    ensures { IfOk result (λ q. n.path q ≡ typing.element_path (out-Mode (seen.lent mode.now)) (n.path path) (n.term subscript.value)) }
{
    match mode {
        Lent::Of(mode) => match mode {
            Mode::Array(length, of) => element_of_array(alloc, *length, of.get(), path, subscript),
            _ => Ok(path),
        },
        _ => Ok(path),
    }
}

// An element of an array, by its length and the mode of its elements.
fn element_of_array(
    alloc: Global,
    length: u16,
    of: &Mode,
    path: PathNode,
    subscript: Rc<TermNode>,
) -> Result<PathNode, Memory>
    ensures { IfOk result (λ q. n.path q ≡ tree.Elem (n.path path) (n.term subscript.value) length of.now) }
{
    let path = shared(alloc, path)?;
    let of = copy_mode(alloc, of)?;
    Ok(PathNode::Elem(path, subscript, length, of))
}

// An element of the array behind a REF ARRAY.
fn element_of_row(
    alloc: Global,
    found: &Option<Found<'_>>,
    row: TermNode,
    subscript: Rc<TermNode>,
) -> Result<Spot, Memory>
    ensures { IfOk result (λ s. trees.spot s ≡ typing.element_in (seen.place_found found.now) (typing.OnRow (n.term row)) (n.term subscript.value)) }
{
    match found {
        None => Ok(Spot::Row(row)),
        Some(found) => match found {
            Found::Row(mode) => element_behind(alloc, mode, row, subscript),
            _ => Ok(Spot::Row(row)),
        },
    }
}

// An element behind a reference to an array, by the mode of its elements.
fn element_behind(
    alloc: Global,
    mode: &Lent<'_>,
    row: TermNode,
    subscript: Rc<TermNode>,
) -> Result<Spot, Memory>
    ensures { IfOk result (λ s. trees.spot s ≡ typing.OnPath (tree.ElemRow (n.term row) (n.term subscript.value) (seen.lent mode.now))) }
{
    let row = shared(alloc, row)?;
    let of = copy_lent(alloc, mode)?;
    Ok(Spot::Path(PathNode::ElemRow(row, subscript, of)))
}

/// Where a reference leads.
pub fn led(alloc: Global, mode: &Option<ValueMode<'_>>, reference: TermNode) -> Result<Spot, Memory>
    ensures { IfOk result (λ s. trees.spot s ≡ typing.led_tree (seen.mode_found mode.now) (n.term reference)) }
{
    match mode {
        None => Ok(Spot::Row(reference)),
        Some(mode) => match mode {
            ValueMode::Reference(_) => past(alloc, reference),
            ValueMode::Row(_) => Ok(Spot::Row(reference)),
            ValueMode::Of(mode) => led_by(alloc, mode, reference),
        },
    }
}

fn led_by(alloc: Global, mode: &Lent<'_>, reference: TermNode) -> Result<Spot, Memory>
    ensures { IfOk result (λ s. trees.spot s ≡ typing.led_spot (out-Mode (seen.lent mode.now)) (n.term reference)) }
{
    match mode {
        Lent::Of(mode) => match mode {
            Mode::Ref(_) => past(alloc, reference),
            _ => Ok(Spot::Row(reference)),
        },
        _ => Ok(Spot::Row(reference)),
    }
}

fn past(alloc: Global, reference: TermNode) -> Result<Spot, Memory>
    ensures { IfOk result (λ s. trees.spot s ≡ typing.OnPath (tree.Past (n.term reference))) }
{
    Ok(Spot::Path(PathNode::Past(shared(alloc, reference)?)))
}

// ---- what is done with a place

/// What is read there.
pub fn read(alloc: Global, spot: Spot, found: &Option<Found<'_>>) -> Result<TermNode, Memory>
    ensures { IfOk result (λ t. n.term t ≡ typing.read_tree (trees.placed_by (seen.place_found found.now) (trees.spot spot))) }
{
    match spot {
        Spot::Local(i) => Ok(TermNode::Own(i)),
        Spot::Path(path) => {
            let path = shared(alloc, path)?;
            Ok(TermNode::Get(copy_lent(alloc, &mode_at(found))?, path))
        }
        Spot::Row(row) => Ok(row),
    }
}

/// Its reference.
pub fn reference(alloc: Global, spot: Spot, found: &Option<Found<'_>>) -> Result<TermNode, Memory>
    ensures { IfOk result (λ t. n.term t ≡ typing.reference_tree (trees.placed_by (seen.place_found found.now) (trees.spot spot))) }
{
    match spot {
        Spot::Local(i) => Ok(TermNode::Own(i)),
        Spot::Path(path) => reference_path(alloc, &mode_at(found), path),
        Spot::Row(row) => Ok(row),
    }
}

fn reference_path(alloc: Global, mode: &Lent<'_>, path: PathNode) -> Result<TermNode, Memory>
    ensures { IfOk result (λ t. n.term t ≡ typing.reference_path (out-Mode (seen.lent mode.now)) (n.path path)) }
{
    let path = shared(alloc, path)?;
    match mode {
        Lent::Of(mode) => match mode {
            Mode::Array(length, _) => Ok(TermNode::RefRow(path, *length)),
            _ => Ok(TermNode::Ref(path)),
        },
        _ => Ok(TermNode::Ref(path)),
    }
}

/// Its LENGTH.
pub fn length(alloc: Global, spot: Spot, found: &Option<Found<'_>>) -> Result<TermNode, Memory>
    ensures { IfOk result (λ t. n.term t ≡ typing.length_tree (trees.placed_by (seen.place_found found.now) (trees.spot spot))) }
{
    match spot {
        Spot::Local(i) => Ok(TermNode::Own(i)),
        Spot::Path(path) => length_path(alloc, &mode_at(found), path),
        Spot::Row(row) => Ok(TermNode::CountRow(shared(alloc, row)?)),
    }
}

fn length_path(alloc: Global, mode: &Lent<'_>, path: PathNode) -> Result<TermNode, Memory>
    ensures { IfOk result (λ t. n.term t ≡ typing.length_path (out-Mode (seen.lent mode.now)) (n.path path)) }
{
    let path = shared(alloc, path)?;
    match mode {
        Lent::Of(mode) => match mode {
            Mode::Array(length, _) => Ok(TermNode::Count(path, *length)),
            _ => Ok(TermNode::Ref(path)),
        },
        _ => Ok(TermNode::Ref(path)),
    }
}

/// What is assigned there.
pub fn assigned(
    alloc: Global,
    spot: Spot,
    found: &Option<Found<'_>>,
    value: Rc<TermNode>,
) -> Result<StmtNode, Memory>
    ensures { IfOk result (λ s. n.stmt s ≡ statements.assigned_tree (trees.placed_by (seen.place_found found.now) (trees.spot spot)) (n.term value.value)) }
{
    match spot {
        Spot::Local(i) => Ok(StmtNode::Keep(i, value)),
        Spot::Path(path) => put(alloc, &mode_at(found), path, value),
        Spot::Row(row) => Ok(run(row, value)),
    }
}

// A value that runs; the array behind a REF ARRAY is no place for it.
fn run(_row: TermNode, value: Rc<TermNode>) -> StmtNode
    ensures { n.stmt result ≡ tree.Run (n.term value.value) }
{
    StmtNode::Run(value)
}

// What is put at a shared place, by its mode.
fn put(
    alloc: Global,
    mode: &Lent<'_>,
    path: PathNode,
    value: Rc<TermNode>,
) -> Result<StmtNode, Memory>
    ensures { IfOk result (λ s. n.stmt s ≡ tree.Put (seen.lent mode.now) (n.path path) (n.term value.value)) }
{
    let path = shared(alloc, path)?;
    let mode = copy_lent(alloc, mode)?;
    Ok(StmtNode::Put(mode, path, value))
}
