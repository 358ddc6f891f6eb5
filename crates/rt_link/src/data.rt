//! The data part of an image.

ghost use Rattle.std.specs.Prelude.{◌≡◌, ◌++◌, ◌≤◌, suc, length, IfOk, OnOk};
ghost use Rattle.std.specs.List.{flat_map, AllByRecursion};
ghost use Rattle.rt_object.specs.Ranges.{HasObjectRanges};
ghost use Rattle.rt_link.specs.Imaged as spec;
ghost use Rattle.rt_link.specs.Ready.{AreReady};

use crate::held::content_of;
use crate::linking::Linking;
use crate::patches::{padded, patched_bytes};
use rt_object::{Brick, Content, ObjectParts};
use rt_words::{Bytes, Memory, Text, put_word};
use std::alloc::Global;

/// The data part of an image: by module its strings, and then its own and ENT data bricks.
pub fn image_bytes(alloc: Global, linking: Linking<'_>) -> Result<Bytes, Memory>
    requires few { length linking.objects.now ≤ 64 }
    requires ready { AreReady linking.objects.now linking.stacks.now linking.layout.now linking.support.now }
    ensures { IfOk result (λ bytes. bytes ≡ spec.image_bytes linking.entry.objects.now linking.entry.stacks.now linking.entry.bindings.now.of) }
{
    let mut out = Text::new(alloc, 0)?;
    put_modules(alloc, linking, &mut out)?;
    Ok(out.into_list())
}

fn put_modules(alloc: Global, linking: Linking<'_>, out: &mut Text) -> Result<(), Memory>
    requires few { length linking.objects.now ≤ 64 }
    requires ready { AreReady linking.objects.now linking.stacks.now linking.layout.now linking.support.now }
    ensures { OnOk result (out.new.items ≡ out.old.items ++ spec.modules_data linking.entry.objects.now linking.entry.stacks.now linking.entry.bindings.now.of 1 linking.entry.objects.now) }
{
    for at in 0..linking.objects.len() {
        put_module(
            alloc,
            linking,
            at as u16 + 1,
            linking.objects[at].parts(),
            out,
        )?;
    }
    Ok(())
}

fn put_module(
    alloc: Global,
    linking: Linking<'_>,
    module: u16,
    object: &ObjectParts,
    out: &mut Text,
) -> Result<(), Memory>
    requires ranges { HasObjectRanges object.now }
    requires ready { AreReady linking.objects.now linking.stacks.now linking.layout.now linking.support.now }
    ensures { OnOk result (out.new.items ≡ out.old.items ++ spec.module_data linking.entry.objects.now linking.entry.stacks.now linking.entry.bindings.now.of «module» object.now) }
{
    put_strings(alloc, object.strings.as_slice(), out)?;
    put_bricks(alloc, linking, module, object, out)
}

fn put_strings(alloc: Global, strings: &[Bytes], out: &mut Text) -> Result<(), Memory>
    requires { AllByRecursion (λ s. length s ≤ 65535) strings.now }
    ensures { OnOk result (out.new.items ≡ out.old.items ++ spec.strings_data strings.now) }
{
    for string in strings {
        put_string(alloc, string.as_slice(), out)?;
    }
    Ok(())
}

fn put_string(alloc: Global, string: &[u8], out: &mut Text) -> Result<(), Memory>
    requires { length string.now ≤ 65535 }
    ensures { OnOk result (out.new.items ≡ out.old.items ++ spec.string_data string.now) }
{
    let bytes = padded(alloc, string)?;
    put_word(string.len() as u16, out)?;
    out.push_all(bytes.as_slice())
}

fn put_bricks(
    alloc: Global,
    linking: Linking<'_>,
    module: u16,
    object: &ObjectParts,
    out: &mut Text,
) -> Result<(), Memory>
    requires ranges { HasObjectRanges object.now }
    requires ready { AreReady linking.objects.now linking.stacks.now linking.layout.now linking.support.now }
    ensures { OnOk result (out.new.items ≡ out.old.items ++ flat_map (spec.brick_data linking.entry.objects.now linking.entry.stacks.now linking.entry.bindings.now.of «module») object.now.bricks) }
{
    for brick in object.bricks.as_slice() {
        put_brick(alloc, linking, module, brick, out)?;
    }
    Ok(())
}

fn put_brick(
    alloc: Global,
    linking: Linking<'_>,
    module: u16,
    brick: &Brick,
    out: &mut Text,
) -> Result<(), Memory>
    requires inside { spec.HasDataInside brick.now }
    requires ready { AreReady linking.objects.now linking.stacks.now linking.layout.now linking.support.now }
    ensures { OnOk result (out.new.items ≡ out.old.items ++ spec.brick_data linking.entry.objects.now linking.entry.stacks.now linking.entry.bindings.now.of «module» brick.now) }
{
    match content_of(brick) {
        Some(Content::Data(data)) => {
            let bytes = patched_bytes(
                alloc,
                linking,
                module,
                data.bytes.as_slice(),
                data.relocations.as_slice(),
            )?;
            out.push_all(bytes.as_slice())
        }
        _ => Ok(()),
    }
}
