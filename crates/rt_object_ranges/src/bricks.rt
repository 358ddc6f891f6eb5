//! Whether the bricks of an object keep their ranges.

ghost use Rattle.std.specs.Prelude.{◌↔◌, ◌≤◌, All, IfOk, IsTrue, length};
ghost use Rattle.std.specs.List.{AllByRecursion};
ghost use Rattle.rt_object.specs.Ranges.{AreDifferent, HasBrickRanges, HasContentRanges, HasExternalRanges, HasKindRanges, HasSuppliedRanges, brick_names, table_of};
ghost use Rattle.rt_sizes.specs.Capped.{AreSizes};

use crate::data::{are_outside, is_data_content};
use crate::modes::may_be_proc;
use crate::names::bricks_differ;
use crate::procs::is_proc_content;
use crate::small::name_is_short;
use rt_modes::RecordDef;
use rt_object::{Brick, BrickKind, Content, External, Known, Supplied, is_rrerr, sizes_of};
use rt_words::{Memory, Name};
use std::alloc::Global;

/// How many words a stack may have.
const STACK: u16 = 28672;

/// Whether bricks keep their ranges, where there are these records and so many strings.
pub fn are_bricks(
    alloc: Global,
    records: &[RecordDef],
    strings: usize,
    bricks: &[Brick],
) -> Result<bool, Memory>
    requires records { length records.now ≤ 65535 }
    requires strings { strings ≤ 65535 }
    requires bricks { length bricks.now ≤ 65535 }
    ensures { IfOk result (λ b. IsTrue b ↔ (AreDifferent (brick_names bricks.now) × AllByRecursion (HasBrickRanges records.now strings (length bricks.now)) bricks.now)) }
{
    if !bricks_differ(alloc, bricks)? {
        return Ok(false);
    }
    let sizes = sizes_of(alloc, records)?;
    let known = Known {
        records,
        count: records.len() as u16,
        sizes: sizes.as_slice(),
        strings: strings as u16,
        bricks: bricks.len() as u16,
    };
    is_each_brick(alloc, &known, bricks)
}

fn is_each_brick(alloc: Global, known: &Known<'_>, bricks: &[Brick]) -> Result<bool, Memory>
    requires { AreSizes (table_of known.now.records.now) known.now.sizes.now }
    ensures { IfOk result (λ b. IsTrue b ↔ All (HasBrickRanges known.now.records.now known.now.strings known.now.bricks) bricks.now) }
{
    for brick in bricks {
        if !is_brick(alloc, known, brick)? {
            return Ok(false);
        }
    }
    Ok(true)
}

fn is_brick(alloc: Global, known: &Known<'_>, brick: &Brick) -> Result<bool, Memory>
    requires { AreSizes (table_of known.now.records.now) known.now.sizes.now }
    ensures { IfOk result (λ b. IsTrue b ↔ HasBrickRanges known.now.records.now known.now.strings known.now.bricks brick.now) }
{
    name_is_short(&brick.name);
    is_kind(alloc, known, &brick.name, &brick.kind)
}

fn is_kind(alloc: Global, known: &Known<'_>, name: &Name, kind: &BrickKind) -> Result<bool, Memory>
    requires { AreSizes (table_of known.now.records.now) known.now.sizes.now }
    ensures { IfOk result (λ b. IsTrue b ↔ HasKindRanges known.now.records.now known.now.strings known.now.bricks name.now kind.now) }
{
    match kind {
        BrickKind::Own(content) => is_content(alloc, known, content),
        BrickKind::Ent(content) => is_content(alloc, known, content),
        BrickKind::Ext(external) => is_external(alloc, known, external),
        BrickKind::Svc(supplied) => is_supplied(alloc, known, name, supplied),
    }
}

/// Whether what a brick of this module holds keeps its ranges.
fn is_content(alloc: Global, known: &Known<'_>, content: &Content) -> Result<bool, Memory>
    requires { AreSizes (table_of known.now.records.now) known.now.sizes.now }
    ensures { IfOk result (λ b. IsTrue b ↔ HasContentRanges known.now.records.now known.now.strings known.now.bricks content.now) }
{
    match content {
        Content::Proc(content) => Ok(is_proc_content(known, content)),
        Content::Data(content) => is_data_content(alloc, known, content),
        Content::Stack(words) => Ok(is_stack(*words)),
    }
}

fn is_stack(words: u16) -> bool
    ensures { IsTrue result ↔ ((1 ≤ words) × (words ≤ 28672)) }
{
    1 <= words && words <= STACK
}

/// Whether what is known of a brick of another module keeps its ranges.
fn is_external(alloc: Global, known: &Known<'_>, external: &External) -> Result<bool, Memory>
    requires { AreSizes (table_of known.now.records.now) known.now.sizes.now }
    ensures { IfOk result (λ b. IsTrue b ↔ HasExternalRanges known.now.records.now known.now.strings known.now.bricks external.now) }
{
    match external {
        External::Proc(mode) => Ok(may_be_proc(known.records.len(), mode)),
        External::Data(fields) => are_outside(alloc, known, false, fields.as_slice()),
        External::Stack => Ok(true),
    }
}

/// Whether what is known of a brick of the supervisor keeps its ranges. A label stands in the data brick RRERR alone.
fn is_supplied(
    alloc: Global,
    known: &Known<'_>,
    name: &Name,
    supplied: &Supplied,
) -> Result<bool, Memory>
    requires { AreSizes (table_of known.now.records.now) known.now.sizes.now }
    ensures { IfOk result (λ b. IsTrue b ↔ HasSuppliedRanges known.now.records.now known.now.strings known.now.bricks name.now supplied.now) }
{
    match supplied {
        Supplied::Proc(mode) => Ok(may_be_proc(known.records.len(), mode)),
        Supplied::Data(fields) => are_outside(alloc, known, is_rrerr(name), fields.as_slice()),
    }
}
