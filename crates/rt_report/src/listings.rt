//! The text of an object.

ghost use Rattle.std.specs.Prelude.{◌≡◌, ◌++◌, IfOk, OnOk};
ghost use Rattle.std.specs.List.{AllByRecursion};
ghost use Rattle.rt_report.specs.Listing.{title_line, kind_text, brick_line, ListsCode, ListsBricks, IsListing};
ghost use Rattle.rt_report.specs.Writing.{Puts, MayStand};

use crate::listing_code::put_code;
use rt_match::write_full_mode;
use rt_modes::ModeTable;
use rt_object::{Brick, BrickKind, Content, Object};
use rt_words::{Memory, Name, Text};
use std::alloc::Global;

fn put_title(title: &Name, out: &mut Text) -> Result<(), Memory>
    ensures { OnOk result (out.new.items ≡ out.old.items ++ title_line title.now) }
{
    out.push_all(b"TITLE ")?;
    out.push_all(title.as_slice())?;
    out.push_all(b"\n")
}

fn kind_word(kind: &BrickKind) -> &'static str
    ensures { result.now ≡ kind_text kind.now }
{
    match kind {
        BrickKind::Own(_) => "OWN",
        BrickKind::Ent(_) => "ENT",
        BrickKind::Ext(_) => "EXT",
        BrickKind::Svc(_) => "SVC",
    }
}

fn put_brick_line(
    alloc: Global,
    table: &ModeTable,
    brick: &Brick,
    out: &mut Text,
) -> Result<(), Memory>
    ensures { OnOk result (out.new.items ≡ out.old.items ++ brick_line table.now brick.now) }
{
    out.push_all(b"BRICK ")?;
    out.push_all(kind_word(&brick.kind).as_bytes())?;
    out.push_all(b" ")?;
    out.push_all(brick.name.as_slice())?;
    out.push_all(b" ")?;
    write_full_mode(alloc, table, &brick.kind, out)?;
    out.push_all(b"\n")
}

/// The lines behind that of a brick.
fn put_content(kind: &BrickKind, out: &mut Text) -> Result<(), Memory>
    requires { MayStand kind.now }
    ensures { OnOk result (Puts (ListsCode kind.now) out.old.items out.new.items) }
{
    match kind {
        BrickKind::Own(Content::Proc(proc)) | BrickKind::Ent(Content::Proc(proc)) => {
            put_code(proc.words.as_slice(), proc.marks.as_slice(), out)
        }
        _ => Ok(()),
    }
}

/// The lines of a brick.
fn put_brick(alloc: Global, table: &ModeTable, brick: &Brick, out: &mut Text) -> Result<(), Memory>
    requires { MayStand brick.now.kind }
    ensures { OnOk result (Puts (λ code. ListsCode brick.now.kind code) (out.old.items ++ brick_line table.now brick.now) out.new.items) }
{
    put_brick_line(alloc, table, brick, out)?;
    put_content(&brick.kind, out)
}

/// The lines of bricks.
fn put_bricks(
    alloc: Global,
    table: &ModeTable,
    bricks: &[Brick],
    out: &mut Text,
) -> Result<(), Memory>
    requires { AllByRecursion (λ b. MayStand b.kind) bricks.now }
    ensures { OnOk result (Puts (ListsBricks table.now bricks.now) out.old.items out.new.items) }
{
    for brick in bricks {
        put_brick(alloc, table, brick, out)?;
    }
    Ok(())
}

/// The listing of an object: a line with its title, one for each brick, and behind that of a procedure of this module one for
/// each of its instructions.
pub fn listing(alloc: Global, object: &Object) -> Result<Text, Memory>
    ensures { IfOk result (λ text. IsListing object.now text.items) }
{
    let parts = object.parts();
    let mut out = Text::new(alloc, 0)?;
    put_title(&parts.title, &mut out)?;
    put_bricks(alloc, &parts.records, parts.bricks.as_slice(), &mut out)?;
    Ok(out)
}
