//! What a brick is, with that of which its full mode is made.

ghost use Rattle.std.specs.Prelude.{◌≡◌, ◌↔◌, ◌++◌, IfOk, OnOk, IsTrue};
ghost use Rattle.rt_match.specs.Shapes.{form, SameForm};
ghost use Rattle.rt_match.specs.Signatures.{content_form, form_of, full_mode};

use rt_modes::{
    Field, Mode, ModeTable, same_data_mode, same_full_mode, write_data_mode, write_mode,
};
use rt_object::{BrickKind, Content, External, Supplied};
use rt_words::{Bytes, Memory, Text};
use std::alloc::Global;

/// What a brick is: the mode of a procedure, or the items of a data brick.
#[derive(Clone, Copy)]
pub enum Shape<'o> {
    Proc(&'o Mode),
    Data(&'o [Field]),
    Stack,
}

fn content_shape(content: &Content) -> Shape<'_>
    ensures { form result ≡ content_form content.now }
{
    match content {
        Content::Proc(proc) => Shape::Proc(&proc.mode),
        Content::Data(data) => Shape::Data(data.fields.as_slice()),
        Content::Stack(_) => Shape::Stack,
    }
}

/// What a brick is.
pub fn shape_of(kind: &BrickKind) -> Shape<'_>
    ensures { form result ≡ form_of kind.now }
{
    match kind {
        BrickKind::Own(content) | BrickKind::Ent(content) => content_shape(content),
        BrickKind::Ext(External::Proc(mode)) | BrickKind::Svc(Supplied::Proc(mode)) => Shape::Proc(
            mode,
        ),
        BrickKind::Ext(External::Data(fields)) | BrickKind::Svc(Supplied::Data(fields)) => {
            Shape::Data(fields.as_slice())
        }
        BrickKind::Ext(External::Stack) => Shape::Stack,
    }
}

/// Whether two bricks are of one sort and one full mode, each over the records of its own module. No text is made: the two are
/// compared as they come.
pub fn same_shape(
    alloc: Global,
    left_table: &ModeTable,
    left: Shape<'_>,
    right_table: &ModeTable,
    right: Shape<'_>,
) -> Result<bool, Memory>
    ensures { IfOk result (λ same. IsTrue same ↔ SameForm left_table.now (form left.entry) right_table.now (form right.entry)) }
{
    match (left, right) {
        (Shape::Proc(left), Shape::Proc(right)) => {
            same_full_mode(alloc, left_table, left, right_table, right)
        }
        (Shape::Data(left), Shape::Data(right)) => {
            same_data_mode(alloc, left_table, left, right_table, right)
        }
        (Shape::Stack, Shape::Stack) => Ok(true),
        _ => Ok(false),
    }
}

fn write_shape(
    alloc: Global,
    table: &ModeTable,
    shape: Shape<'_>,
    out: &mut Text,
) -> Result<(), Memory>
    ensures { OnOk result (out.new.items ≡ out.old.items ++ full_mode table.now (form shape.entry)) }
{
    match shape {
        Shape::Proc(mode) => write_mode(alloc, table, mode, out),
        Shape::Data(fields) => write_data_mode(alloc, table, fields, out),
        Shape::Stack => out.push_all(b"STACK"),
    }
}

/// Appends the full mode of a brick, over the records of its module.
pub fn write_full_mode(
    alloc: Global,
    table: &ModeTable,
    kind: &BrickKind,
    out: &mut Text,
) -> Result<(), Memory>
    ensures { OnOk result (out.new.items ≡ out.old.items ++ full_mode table.now (form_of kind.now)) }
{
    write_shape(alloc, table, shape_of(kind), out)
}

/// The full mode as a text.
pub fn full_text(alloc: Global, table: &ModeTable, shape: Shape<'_>) -> Result<Bytes, Memory>
    ensures { IfOk result (λ text. text ≡ full_mode table.now (form shape.entry)) }
{
    let mut out = Text::new(alloc, 0)?;
    write_shape(alloc, table, shape, &mut out)?;
    Ok(out.into_list())
}
