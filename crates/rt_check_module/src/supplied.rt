//! The task's own supplied data.

ghost use Rattle.std.specs.Prelude.{◌≡◌, map, IfOk};
ghost use Rattle.rt_check_module.specs.Levels as spec;
ghost use Rattle.rt_tree_nodes.specs.Scopes.{is_svc};

use rt_check_declared::{Heading, Sort, fields_of};
use rt_modes::Field;
use rt_tree_nodes::{Kind, is_error_data, is_stream_data};
use rt_words::{List, Memory};
use std::alloc::Global;

/// A brick of the task's own data, as it is supplied.
#[derive(Clone, Copy, Debug, PartialEq, Eq)]
pub enum Own {
    /// RRERR: ERL, ERN and ERP.
    Errors,
    /// RRSIO: IN and OUT.
    Streams,
}

impl Own {
    /// The number of an item among the task's own data: 0 ERL, 1 ERN, 2 ERP, 3 IN, 4 OUT.
    pub fn item(self, item: u16) -> u8
        ensures { result ≡ spec.own_item self item }
    {
        match self {
            Own::Errors => error_item(item),
            Own::Streams => stream_item(item),
        }
    }
}

fn error_item(item: u16) -> u8
    ensures { result ≡ spec.error_item item }
{
    if item == 0 {
        0
    } else if item == 1 {
        1
    } else {
        2
    }
}

fn stream_item(item: u16) -> u8
    ensures { result ≡ spec.stream_item item }
{
    if item == 0 { 3 } else { 4 }
}

/// Of each brick which of the task's own data it has, where it is supplied.
pub fn own_bricks(alloc: Global, bricks: &[Heading]) -> Result<List<Option<Own>>, Memory>
    ensures { IfOk result (λ owns. owns ≡ map spec.own_of bricks.now) }
{
    let mut owns = List::new(alloc, bricks.len())?;
    for brick in bricks {
        let own = own_of(alloc, brick)?;
        owns.push(own)?;
    }
    Ok(owns)
}

fn own_of(alloc: Global, brick: &Heading) -> Result<Option<Own>, Memory>
    ensures { IfOk result (λ own. own ≡ spec.own_of brick.now) }
{
    if is_errors(alloc, brick)? {
        return Ok(Some(Own::Errors));
    }
    let streams = is_streams(alloc, brick)?;
    Ok(if streams { Some(Own::Streams) } else { None })
}

fn is_errors(alloc: Global, brick: &Heading) -> Result<bool, Memory>
    ensures { IfOk result (λ is. is ≡ spec.is_errors brick.now) }
{
    if !is_service(brick.kind) || brick.name.as_slice() != b"RRERR".as_slice() {
        return Ok(false);
    }
    let items = items_in(alloc, &brick.sort)?;
    Ok(match &items {
        Some(items) => is_error_data(items.as_slice()),
        None => false,
    })
}

fn is_streams(alloc: Global, brick: &Heading) -> Result<bool, Memory>
    ensures { IfOk result (λ is. is ≡ spec.is_streams brick.now) }
{
    if !is_service(brick.kind) || brick.name.as_slice() != b"RRSIO".as_slice() {
        return Ok(false);
    }
    let items = items_in(alloc, &brick.sort)?;
    Ok(match &items {
        Some(items) => is_stream_data(items.as_slice()),
        None => false,
    })
}

/// Whether a brick is SVC.
pub fn is_service(kind: Kind) -> bool
    ensures { result ≡ is_svc kind }
{
    matches!(kind, Kind::Svc)
}

fn items_in(alloc: Global, sort: &Sort) -> Result<Option<List<Field>>, Memory>
    ensures { IfOk result (λ items. items ≡ spec.items_in sort.now) }
{
    match sort {
        Sort::Items(parts) => fields_of(alloc, parts.as_slice()),
        _ => Ok(None),
    }
}
