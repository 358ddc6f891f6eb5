//! The code of an image, and its marks.

ghost use Rattle.std.specs.Prelude.{◌≡◌, ◌++◌, ◌≤◌, suc, length, IfOk, OnOk};
ghost use Rattle.std.specs.List.{flat_map};
ghost use Rattle.rt_object.specs.Ranges.{HasObjectRanges, HasBrickRanges};
ghost use Rattle.rt_templates.specs.Lines as lines;
ghost use Rattle.rt_link.specs.Imaged as spec;
ghost use Rattle.rt_link.specs.Ready.{AreReady};

use crate::held::content_of;
use crate::linking::Linking;
use crate::patches::patched;
use rt_graph::Proc;
use rt_object::{Brick, Content, Object, ObjectParts};
use rt_templates::Support;
use rt_words::{Bytes, List, ListBuilder, Memory, Text};
use std::alloc::Global;

/// `JSR PC,@#` of the address in the next word.
const CALL: u16 = 0o004737;

/// `TRAP 11`, the end of a task.
const END: u16 = 0o104413;

/// The code of an image of tasks with these roots: the support code, for each task the words by which it enters its root, and all
/// own and ENT procedures by module and brick.
pub fn image_code(alloc: Global, linking: Linking<'_>, roots: &[Proc]) -> Result<List<u16>, Memory>
    requires few { length linking.objects.now ≤ 64 }
    requires ready { AreReady linking.objects.now linking.stacks.now linking.layout.now linking.support.now }
    ensures { IfOk result (λ words. words ≡ spec.image_code linking.entry.objects.now linking.entry.stacks.now linking.entry.bindings.now.of roots.now) }
{
    let mut out = ListBuilder::new(alloc, 0)?;
    out.push_all(linking.support.words.as_slice())?;
    put_entries(linking, roots, &mut out)?;
    put_modules(alloc, linking, &mut out)?;
    Ok(out.into_list())
}

fn put_entries(
    linking: Linking<'_>,
    roots: &[Proc],
    out: &mut ListBuilder<u16>,
) -> Result<(), Memory>
    requires ready { AreReady linking.objects.now linking.stacks.now linking.layout.now linking.support.now }
    ensures { OnOk result (out.new.items ≡ out.old.items ++ flat_map (λ f. lines.words (spec.root_entering linking.entry.objects.now linking.entry.stacks.now linking.entry.bindings.now.of f)) roots.now) }
{
    for root in roots {
        put_entry(linking, *root, out)?;
    }
    Ok(())
}

fn put_entry(linking: Linking<'_>, root: Proc, out: &mut ListBuilder<u16>) -> Result<(), Memory>
    requires ready { AreReady linking.objects.now linking.stacks.now linking.layout.now linking.support.now }
    ensures { OnOk result (out.new.items ≡ out.old.items ++ lines.words (spec.root_entering linking.entry.objects.now linking.entry.stacks.now linking.entry.bindings.now.of root)) }
{
    let address = linking.layout.brick(root);
    out.push_all(&[CALL, address, END])
}

fn put_modules(
    alloc: Global,
    linking: Linking<'_>,
    out: &mut ListBuilder<u16>,
) -> Result<(), Memory>
    requires few { length linking.objects.now ≤ 64 }
    requires ready { AreReady linking.objects.now linking.stacks.now linking.layout.now linking.support.now }
    ensures { OnOk result (out.new.items ≡ out.old.items ++ spec.modules_words linking.entry.objects.now linking.entry.stacks.now linking.entry.bindings.now.of 1 linking.entry.objects.now) }
{
    for at in 0..linking.objects.len() {
        put_module(
            alloc,
            linking,
            at as u16 + 1,
            linking.objects[at].parts(),
            out,
        )?;
    }
    Ok(())
}

fn put_module(
    alloc: Global,
    linking: Linking<'_>,
    module: u16,
    object: &ObjectParts,
    out: &mut ListBuilder<u16>,
) -> Result<(), Memory>
    requires ranges { HasObjectRanges object.now }
    requires ready { AreReady linking.objects.now linking.stacks.now linking.layout.now linking.support.now }
    ensures { OnOk result (out.new.items ≡ out.old.items ++ flat_map (spec.brick_words linking.entry.objects.now linking.entry.stacks.now linking.entry.bindings.now.of «module») object.now.bricks) }
{
    for brick in object.bricks.as_slice() {
        put_brick(alloc, linking, module, brick, out)?;
    }
    Ok(())
}

fn put_brick(
    alloc: Global,
    linking: Linking<'_>,
    module: u16,
    brick: &Brick,
    out: &mut ListBuilder<u16>,
) -> Result<(), Memory>
    requires inside { spec.HasCodeInside brick.now }
    requires ready { AreReady linking.objects.now linking.stacks.now linking.layout.now linking.support.now }
    ensures { OnOk result (out.new.items ≡ out.old.items ++ spec.brick_words linking.entry.objects.now linking.entry.stacks.now linking.entry.bindings.now.of «module» brick.now) }
{
    match content_of(brick) {
        Some(Content::Proc(proc)) => {
            let words = patched(
                alloc,
                linking,
                module,
                proc.words.as_slice(),
                proc.relocations.as_slice(),
            )?;
            out.push_all(words.as_slice())
        }
        _ => Ok(()),
    }
}

/// The marks of that code, one for each word.
pub fn image_marks(alloc: Global, linking: Linking<'_>, tasks: usize) -> Result<Bytes, Memory>
    requires ready { AreReady linking.objects.now linking.stacks.now linking.layout.now linking.support.now }
    ensures { IfOk result (λ marks. marks ≡ spec.image_marks linking.entry.objects.now tasks) }
{
    let mut out = Text::new(alloc, 0)?;
    out.push_all(linking.support.marks.as_slice())?;
    for _task in 0..tasks {
        out.push_all(&[1, 0, 1])?;
    }
    put_all_marks(linking.objects, &mut out)?;
    Ok(out.into_list())
}

fn put_all_marks(objects: &[Object], out: &mut Text) -> Result<(), Memory>
    ensures { OnOk result (out.new.items ≡ out.old.items ++ spec.modules_marks objects.now) }
{
    for object in objects {
        put_marks(object.parts(), out)?;
    }
    Ok(())
}

fn put_marks(object: &ObjectParts, out: &mut Text) -> Result<(), Memory>
    ensures { OnOk result (out.new.items ≡ out.old.items ++ flat_map spec.brick_marks object.now.bricks) }
{
    for brick in object.bricks.as_slice() {
        if let Some(Content::Proc(proc)) = content_of(brick) {
            out.push_all(proc.marks.as_slice())?;
        }
    }
    Ok(())
}
