//! The code of values and places.

ghost use Rattle.std.specs.Prelude.{◌≡◌, ◌++◌, ◌∷◌, [], OnOk, IfOk};
ghost use Rattle.rt_tree_nodes.specs.Tree as tree;
ghost use Rattle.rt_work_state.specs.Nodes as n;
ghost use Rattle.rt_work_state.specs.Items.{how_many};
ghost use Rattle.rt_lower.specs.Code as codes;
ghost use Rattle.rt_lower.specs.Drafts.{whole};
ghost use Rattle.rt_lower.specs.Layouts.{bytes};
ghost use Rattle.rt_lower.specs.Values as values;

use crate::draft::Piece;
use crate::layouts::Layouts;
use crate::site::{Site, element, read, site_of, sum, told, width, written};
use rt_icode::{Alter, Division, Ins, Merge, OwnItem};
use rt_modes::Mode;
use rt_tree::{Op1, Op2};
use rt_words::{List, Memory};
use rt_work_state::{PathNode, TermNode, TermsNode};
use std::alloc::Global;

/// Appends an instruction.
pub(crate) fn put(code: &mut List<Piece>, ins: Ins) -> Result<(), Memory>
    ensures { OnOk result (code.new ≡ code.old ++ whole (ins ∷ [])) }
{
    code.push(Piece::Whole(ins))
}

fn reached(code: &mut List<Piece>, site: Site) -> Result<(), Memory>
    ensures { OnOk result (code.new ≡ code.old ++ whole (values.reached site)) }
{
    match site {
        Site::Fixed(place) => put(code, Ins::Reach(place)),
        _ => Ok(()),
    }
}

fn row_reached(code: &mut List<Piece>, length: u16, site: Site) -> Result<(), Memory>
    ensures { OnOk result (code.new ≡ code.old ++ whole (values.row_reached length [] site)) }
{
    match site {
        Site::Fixed(row) => put(code, Ins::ReachRow { row, length }),
        _ => Ok(()),
    }
}

fn field_row(
    code: &mut List<Piece>,
    field: u16,
    offset: u16,
    length: u16,
    site: Site,
) -> Result<(), Memory>
    ensures { OnOk result (code.new ≡ code.old ++ whole (values.row_reached length (Ins.IntoRow field offset length ∷ []) site)) }
{
    match site {
        Site::Fixed(row) => put(code, Ins::ReachRow { row, length }),
        _ => put(
            code,
            Ins::IntoRow {
                field,
                offset,
                length,
            },
        ),
    }
}

fn altered(code: &mut List<Piece>, operator: Op1) -> Result<(), Memory>
    ensures { OnOk result (code.new ≡ code.old ++ whole (values.altered operator)) }
{
    match operator {
        Op1::Minus => put(code, Ins::Alter(Alter::Negate)),
        Op1::Abs => put(code, Ins::Alter(Alter::Absolute)),
        Op1::Not => put(code, Ins::Alter(Alter::Complement)),
        Op1::Byte => put(code, Ins::Alter(Alter::LowByte)),
        Op1::Plus | Op1::Int | Op1::Frac => Ok(()),
    }
}

fn division(operator: Op2) -> Division
    ensures { result ≡ values.division_of operator }
{
    match operator {
        Op2::Divide => Division::Quotient,
        _ => Division::Remainder,
    }
}

fn merged(operator: Op2) -> Ins
    ensures { result ≡ values.merged operator }
{
    match operator {
        Op2::Sll => Ins::Merge(Merge::Sll),
        Op2::Srl => Ins::Merge(Merge::Srl),
        Op2::Sla => Ins::Merge(Merge::Sla),
        Op2::Sra => Ins::Merge(Merge::Sra),
        Op2::Times => Ins::Merge(Merge::Times),
        Op2::FracTimes => Ins::Merge(Merge::FracTimes),
        Op2::Land => Ins::Merge(Merge::Land),
        Op2::Plus => Ins::Merge(Merge::Plus),
        Op2::Minus => Ins::Merge(Merge::Minus),
        Op2::Lor => Ins::Merge(Merge::Lor),
        Op2::Nev => Ins::Merge(Merge::Nev),
        Op2::Divide | Op2::Mod => Ins::Divide(division(operator)),
    }
}

fn is_safe(n: u16) -> bool
    ensures { result ≡ values.is_safe n }
{
    !(n == 0 || n == 65535)
}

/// Whether a division by this can't fail.
fn is_sure(divisor: &TermNode) -> bool
    ensures { result ≡ values.is_sure (n.term divisor.now) }
{
    match divisor {
        TermNode::Num(n) => is_safe(*n),
        _ => false,
    }
}

fn divided(code: &mut List<Piece>, operator: Op2, sure: bool) -> Result<(), Memory>
    ensures { OnOk result (code.new ≡ code.old ++ whole (values.divided operator sure)) }
{
    if sure {
        return put(code, Ins::Divide(division(operator)));
    }
    put(code, Ins::DivideOr(division(operator)))?;
    put(code, Ins::LoadOwn(OwnItem::Erp))?;
    put(code, Ins::Report)
}

/// Appends the code of a value.
#[cycle(values)]
pub(crate) fn term(
    alloc: Global,
    layouts: &Layouts,
    code: &mut List<Piece>,
    term: &TermNode,
) -> Result<(), Memory>
    ensures { OnOk result (code.new ≡ code.old ++ whole (values.value layouts.now (n.term term.now))) }
{
    match term {
        TermNode::Num(n) => put(code, Ins::Const(*n)),
        TermNode::Str(n) => put(code, Ins::Text(*n)),
        TermNode::Name(b) => put(code, Ins::Routine(*b)),
        TermNode::Own(i) => put(code, Ins::LoadLocal(*i)),
        TermNode::Get(mode, path) => {
            let site = site_of(alloc, layouts, path)?;
            wanted(alloc, layouts, code, &site, path)?;
            put(code, read(width(mode), site))
        }
        TermNode::Ref(path) => {
            let site = site_of(alloc, layouts, path)?;
            wanted(alloc, layouts, code, &site, path)?;
            reached(code, site)
        }
        TermNode::RefRow(path, length) => {
            let site = site_of(alloc, layouts, path)?;
            match &**path {
                PathNode::FieldOf(record, r, k) => {
                    wanted(alloc, layouts, code, &site, record)?;
                    field_row(code, *k, layouts.field(*r, *k), *length, site)
                }
                _ => {
                    wanted(alloc, layouts, code, &site, path)?;
                    row_reached(code, *length, site)
                }
            }
        }
        TermNode::Count(path, length) => {
            let site = site_of(alloc, layouts, path)?;
            wanted(alloc, layouts, code, &site, path)?;
            put(code, told(*length, &site))
        }
        TermNode::CountRow(row) => {
            self::term(alloc, layouts, code, row)?;
            put(code, Ins::Length)
        }
        TermNode::One(operator, operand) => {
            self::term(alloc, layouts, code, operand)?;
            altered(code, *operator)
        }
        TermNode::Two(operator, left, right) => {
            self::term(alloc, layouts, code, left)?;
            self::term(alloc, layouts, code, right)?;
            put(code, merged(*operator))
        }
        TermNode::Over(operator, left, right) => {
            self::term(alloc, layouts, code, left)?;
            self::term(alloc, layouts, code, right)?;
            divided(code, *operator, is_sure(right))
        }
        TermNode::Apply(brick, arguments) => {
            let count = terms(alloc, layouts, code, arguments)?;
            put(code, invoke(*brick, count, true))
        }
        TermNode::ApplyBy(_, procedure, arguments) => {
            self::term(alloc, layouts, code, procedure)?;
            let count = terms(alloc, layouts, code, arguments)?;
            put(code, invoke_by(count, true))
        }
    }
}

fn invoke(brick: u16, arguments: u16, gives: bool) -> Ins
    ensures { result ≡ Ins.Invoke brick arguments gives }
{
    Ins::Invoke {
        brick,
        arguments,
        gives,
    }
}

fn invoke_by(arguments: u16, gives: bool) -> Ins
    ensures { result ≡ Ins.InvokeBy arguments gives }
{
    Ins::InvokeBy { arguments, gives }
}

/// Appends the code of the address of a place.
#[cycle(values)]
fn address(
    alloc: Global,
    layouts: &Layouts,
    code: &mut List<Piece>,
    path: &PathNode,
) -> Result<(), Memory>
    ensures { OnOk result (code.new ≡ code.old ++ whole (values.address layouts.now (n.path path.now))) }
{
    match path {
        PathNode::ItemAt(_, _) => Ok(()),
        PathNode::Svc(_) => Ok(()),
        PathNode::FieldOf(record, r, k) => {
            address(alloc, layouts, code, record)?;
            put(code, into(*k, layouts.field(*r, *k)))
        }
        PathNode::Elem(array, subscript, length, mode) => {
            let site = site_of(alloc, layouts, array)?;
            wanted(alloc, layouts, code, &site, array)?;
            term(alloc, layouts, code, subscript)?;
            put_element(layouts, code, *length, mode, site)
        }
        PathNode::ElemRow(row, subscript, mode) => {
            term(alloc, layouts, code, row)?;
            term(alloc, layouts, code, subscript)?;
            put_row_element(layouts, code, mode)
        }
        PathNode::Past(reference) => term(alloc, layouts, code, reference),
    }
}

/// Appends the code of the address of a place where that is wanted.
#[cycle(values)]
fn wanted(
    alloc: Global,
    layouts: &Layouts,
    code: &mut List<Piece>,
    site: &Site,
    path: &PathNode,
) -> Result<(), Memory>
    ensures { OnOk result (code.new ≡ code.old ++ whole (values.wanted site.now (values.address layouts.now (n.path path.now)))) }
{
    match site {
        Site::Stacked => address(alloc, layouts, code, path),
        _ => Ok(()),
    }
}

/// Appends what makes an address of a subscript of an array.
fn put_element(
    layouts: &Layouts,
    code: &mut List<Piece>,
    length: u16,
    mode: &Mode,
    site: Site,
) -> Result<(), Memory>
    ensures { OnOk result (code.new ≡ code.old ++ whole (values.element length (bytes layouts.now mode.now) site ∷ [])) }
{
    let size = layouts.bytes(mode)?;
    put(code, element(length, size, site))
}

/// The same of an array behind a REF ARRAY.
fn put_row_element(layouts: &Layouts, code: &mut List<Piece>, mode: &Mode) -> Result<(), Memory>
    ensures { OnOk result (code.new ≡ code.old ++ whole (Ins.ElementRow (bytes layouts.now mode.now) ∷ [])) }
{
    let size = layouts.bytes(mode)?;
    put(code, Ins::ElementRow { size })
}

fn into(field: u16, offset: u16) -> Ins
    ensures { result ≡ Ins.Into field offset }
{
    Ins::Into { field, offset }
}

/// Appends the code of arguments, and tells how many they are. It doesn't recurse along them.
#[cycle(values)]
fn terms(
    alloc: Global,
    layouts: &Layouts,
    code: &mut List<Piece>,
    arguments: &TermsNode,
) -> Result<u16, Memory>
    ensures code { OnOk result (code.new ≡ code.old ++ whole (values.values layouts.now (n.terms arguments.now))) }
    ensures count { IfOk result (λ k. k ≡ how_many (n.terms arguments.now)) }
{
    let mut count = 0;
    let mut rest = arguments;
    while let TermsNode::MoreTerms(first, behind) = rest {
        term(alloc, layouts, code, first)?;
        count = sum(count, 1)?;
        rest = behind;
    }
    Ok(count)
}

/// Appends the code of a call that stands alone.
pub(crate) fn alone(
    alloc: Global,
    layouts: &Layouts,
    code: &mut List<Piece>,
    call: &TermNode,
) -> Result<(), Memory>
    ensures { OnOk result (code.new ≡ code.old ++ whole (values.alone layouts.now (n.term call.now))) }
{
    match call {
        TermNode::Apply(brick, arguments) => {
            let count = terms(alloc, layouts, code, arguments)?;
            put(code, invoke(*brick, count, false))
        }
        TermNode::ApplyBy(_, procedure, arguments) => {
            term(alloc, layouts, code, procedure)?;
            let count = terms(alloc, layouts, code, arguments)?;
            put(code, invoke_by(count, false))
        }
        _ => {
            term(alloc, layouts, code, call)?;
            put(code, Ins::Discard)
        }
    }
}

/// Appends the code of two values.
pub(crate) fn both(
    alloc: Global,
    layouts: &Layouts,
    code: &mut List<Piece>,
    left: &TermNode,
    right: &TermNode,
) -> Result<(), Memory>
    ensures { OnOk result (code.new ≡ code.old ++ whole (values.value layouts.now (n.term left.now) ++ values.value layouts.now (n.term right.now))) }
{
    term(alloc, layouts, code, left)?;
    term(alloc, layouts, code, right)
}

/// Appends the code of a value, and an instruction behind it.
pub(crate) fn followed(
    alloc: Global,
    layouts: &Layouts,
    code: &mut List<Piece>,
    value: &TermNode,
    ins: Ins,
) -> Result<(), Memory>
    ensures { OnOk result (code.new ≡ code.old ++ whole (values.value layouts.now (n.term value.now) ++ ins ∷ [])) }
{
    term(alloc, layouts, code, value)?;
    put(code, ins)
}

/// Appends the code of an assignment.
pub(crate) fn assignment(
    alloc: Global,
    layouts: &Layouts,
    code: &mut List<Piece>,
    mode: &Mode,
    path: &PathNode,
    value: &TermNode,
) -> Result<(), Memory>
    ensures { OnOk result (code.new ≡ code.old ++ whole (codes.statement layouts.now codes.nowhere 0 (tree.Put mode.now (n.path path.now) (n.term value.now)))) }
{
    let site = site_of(alloc, layouts, path)?;
    wanted(alloc, layouts, code, &site, path)?;
    term(alloc, layouts, code, value)?;
    put(code, written(width(mode), site))
}

/// Appends the code of the start, the step and the end of a FOR.
pub(crate) fn for_head(
    alloc: Global,
    layouts: &Layouts,
    code: &mut List<Piece>,
    local: u16,
    start: &TermNode,
    step: &TermNode,
    end: &TermNode,
) -> Result<(), Memory>
    ensures { OnOk result (code.new ≡ code.old ++ whole (codes.for_head layouts.now local (n.term start.now) (n.term step.now) (n.term end.now))) }
{
    followed(alloc, layouts, code, start, Ins::SaveLocal(local))?;
    followed(alloc, layouts, code, step, Ins::SaveLocal(sum(local, 1)?))?;
    term(alloc, layouts, code, end)
}
