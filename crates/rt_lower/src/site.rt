//! What places are, and what is done with them.

ghost use Rattle.std.specs.Prelude.{◌≡◌, ◌+◌, ◌∷◌, [], IfOk};
ghost use Rattle.rt_icode.specs.declared.ins.Fixed.{Fixed};
ghost use Rattle.rt_lower.specs.Values as values;
ghost use Rattle.rt_work_state.specs.Nodes as n;

use crate::layouts::Layouts;
use rt_icode::{Fixed, Ins, OwnItem, Width};
use rt_modes::Mode;
use rt_words::{List, Memory};
use rt_work_state::PathNode;
use std::alloc::Global;

/// What a place is.
#[derive(Drop)]
pub enum Site {
    /// An item of the task's own data.
    Own(OwnItem),
    /// An item of a data brick, or a field in it, through no REF and no subscript.
    Fixed(Fixed),
    /// Another: its address is put on the stack.
    Stacked,
}

/// A sum of bytes; one of more than 16 bits, to which no place comes, is answered as want of memory.
pub(crate) fn sum(a: u16, b: u16) -> Result<u16, Memory>
    ensures { IfOk result (λ s. s ≡ a + b) }
{
    match a.checked_add(b) {
        Some(sum) => Ok(sum),
        None => Err(Memory),
    }
}

/// How much is read or written at a place of a mode.
pub(crate) fn width(mode: &Mode) -> Width
    ensures { result ≡ values.width_of mode.now }
{
    match mode {
        Mode::Byte => Width::Byte,
        _ => Width::Word,
    }
}

fn own_item(k: u8) -> OwnItem
    ensures { result ≡ values.own_item k }
{
    match k {
        1 => OwnItem::Ern,
        2 => OwnItem::Erp,
        3 => OwnItem::In,
        _ => OwnItem::Out,
    }
}

/// What a place is. It recurses as deep as fields of records stand in one another.
pub(crate) fn site_of(alloc: Global, layouts: &Layouts, path: &PathNode) -> Result<Site, Memory>
    ensures { IfOk result (λ s. s ≡ values.site_of layouts.now (n.path path.now)) }
{
    match path {
        PathNode::ItemAt(brick, item) => Ok(Site::Fixed(Fixed {
            brick: *brick,
            item: *item,
            fields: List::new(alloc, 0)?,
            offset: layouts.item(*brick, *item),
        })),
        PathNode::Svc(k) => Ok(Site::Own(own_item(*k))),
        PathNode::FieldOf(record, r, k) => {
            let outer = site_of(alloc, layouts, record)?;
            field(layouts, outer, *r, *k)
        }
        _ => Ok(Site::Stacked),
    }
}

fn field(layouts: &Layouts, outer: Site, r: u16, k: u16) -> Result<Site, Memory>
    ensures { IfOk result (λ s. s ≡ values.field_site layouts.now r k outer) }
{
    match outer {
        Site::Fixed(place) => {
            let inner = field_of(layouts, place, r, k)?;
            Ok(Site::Fixed(inner))
        }
        _ => Ok(Site::Stacked),
    }
}

fn field_of(layouts: &Layouts, place: Fixed, r: u16, k: u16) -> Result<Fixed, Memory>
    ensures { IfOk result (λ f. f ≡ values.inside layouts.now r k place) }
{
    let Fixed {
        brick,
        item,
        mut fields,
        offset,
    } = place;
    fields.push(k)?;
    Ok(Fixed {
        brick,
        item,
        fields,
        offset: sum(offset, layouts.field(r, k))?,
    })
}

pub(crate) fn read(width: Width, site: Site) -> Ins
    ensures { result ≡ values.read width site }
{
    match site {
        Site::Own(item) => Ins::LoadOwn(item),
        Site::Fixed(place) => Ins::Load { width, place },
        Site::Stacked => Ins::Fetch(width),
    }
}

pub(crate) fn written(width: Width, site: Site) -> Ins
    ensures { result ≡ values.written width site }
{
    match site {
        Site::Own(item) => Ins::SaveOwn(item),
        Site::Fixed(place) => Ins::Save { width, place },
        Site::Stacked => Ins::Store(width),
    }
}

/// The LENGTH of an array.
pub(crate) fn told(length: u16, site: &Site) -> Ins
    ensures { result ≡ values.told length site.now }
{
    match site {
        Site::Fixed(_) => Ins::Const(length),
        _ => Ins::Tell(length),
    }
}

/// An element of an array, behind its subscript.
pub(crate) fn element(length: u16, size: u16, site: Site) -> Ins
    ensures { result ≡ values.element length size site }
{
    match site {
        Site::Fixed(row) => Ins::ElementAt { row, length, size },
        _ => Ins::Element { length, size },
    }
}
