//! The image of a system.

ghost use Rattle.std.specs.Prelude.{◌≡◌, ◌≤◌, length, IfOk};
ghost use Rattle.std.specs.List.{All, AllByRecursion};
ghost use Rattle.rt_image.specs.Ranges as ranges;
ghost use Rattle.rt_link.specs.Room.{room};
ghost use Rattle.rt_object.specs.Ranges.{HasObjectRanges};
ghost use Rattle.rt_link.specs.Imaged as spec;
ghost use Rattle.rt_link.specs.Ready.{AreReady};

use crate::code::{image_code, image_marks};
use crate::data::image_bytes;
use crate::linking::Linking;
use crate::starts::image_tasks;
use rt_graph::Proc;
use rt_image::{Image, ImageParts};
use rt_object::Object;
use rt_system::{System, Task};
use rt_words::Memory;
use std::alloc::Global;

/// The image of a system whose tasks have these roots, and the stack bricks of the layout.
pub fn image(
    alloc: Global,
    linking: Linking<'_>,
    system: &System,
    roots: &[Proc],
) -> Result<Image, Memory>
    requires few { length linking.objects.now ≤ 64 }
    requires ready { AreReady linking.objects.now linking.stacks.now linking.layout.now linking.support.now }
    requires stacks { length linking.stacks.now ≡ length system.now.tasks }
    requires roots { length roots.now ≡ length system.now.tasks }
    requires words { spec.AreStackBricks linking.objects.now linking.stacks.now }
    requires room { room linking.objects.now linking.stacks.now ≤ 57344 }
    ensures { IfOk result (λ image. image ≡ spec.image_of linking.entry.objects.now linking.entry.bindings.now.of system.now.tasks roots.now linking.entry.stacks.now) }
{
    let parts = image_parts(alloc, linking, system, roots)?;
    words_are_small(parts.code.as_slice());
    bytes_are_small(parts.bytes.as_slice());
    objects_are_in_range(linking.objects);
    tasks_are_named(system.tasks());
    match Image::new(parts) {
        Some(image) => Ok(image),
        None => unreachable!(),
    }
}

fn image_parts(
    alloc: Global,
    linking: Linking<'_>,
    system: &System,
    roots: &[Proc],
) -> Result<ImageParts, Memory>
    requires few { length linking.objects.now ≤ 64 }
    requires ready { AreReady linking.objects.now linking.stacks.now linking.layout.now linking.support.now }
    requires stacks { length linking.stacks.now ≡ length system.now.tasks }
    ensures { IfOk result (λ parts. parts ≡ spec.image_of linking.entry.objects.now linking.entry.bindings.now.of system.now.tasks roots.now linking.entry.stacks.now) }
{
    let code = image_code(alloc, linking, roots)?;
    let marks = image_marks(alloc, linking, system.tasks().len())?;
    let bytes = image_bytes(alloc, linking)?;
    let tasks = image_tasks(alloc, linking, system.tasks())?;
    Ok(ImageParts {
        code,
        marks,
        bytes,
        tasks,
    })
}

/// Words are below 65,536, as their type says.
fn words_are_small(_words: &[u16])
    ensures { AllByRecursion ranges.IsWord _words.now }
{}

/// Bytes are below 256, as their type says.
fn bytes_are_small(_bytes: &[u8])
    ensures { AllByRecursion ranges.IsByte _bytes.now }
{}

/// Objects are in their ranges, as their type says.
fn objects_are_in_range(objects: &[Object])
    ensures { All HasObjectRanges objects.now }
{
    for object in objects {
        let _parts = object.parts();
    }
}

/// Names have 1 to 32 bytes, as their type says.
fn tasks_are_named(tasks: &[Task])
    ensures { All spec.HasName tasks.now }
{
    for task in tasks {
        is_named(task);
    }
}

fn is_named(task: &Task)
    ensures { spec.HasName task.now }
{
    bytes_are_small(task.name.as_slice());
}
