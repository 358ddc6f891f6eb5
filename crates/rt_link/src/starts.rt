//! The tasks of an image, as they start.

ghost use Rattle.std.specs.Prelude.{◌≡◌, ◌≤◌, ◌<◌, length, slice_index_or, IfOk};
ghost use Rattle.rt_graph.specs.Calls as calls;
ghost use Rattle.rt_link.specs.Addresses as addresses;
ghost use Rattle.rt_templates.specs.Supported.{IsSupport};
ghost use Rattle.rt_link.specs.Imaged as spec;
ghost use Rattle.rt_link.specs.Ready.{AreReady};

use crate::address::routine_address;
use crate::held::stack_words;
use crate::linking::Linking;
use rt_graph::Proc;
use rt_image::ImageTask;
use rt_system::Task;
use rt_templates::{Routine, Support};
use rt_words::{List, Memory};
use std::alloc::Global;

/// The block of a task at the start.
fn start_block(support: &Support) -> [u16; 8]
    requires { IsSupport support.now }
    ensures { result ≡ spec.start_block }
{
    [
        0,
        0,
        0,
        0,
        0,
        routine_address(support, Routine::Rrgel.number()),
        routine_address(support, Routine::Rrin.number()),
        routine_address(support, Routine::Rrout.number()),
    ]
}

/// The tasks of an image, which have the stack bricks of the layout in their order.
pub fn image_tasks(
    alloc: Global,
    linking: Linking<'_>,
    tasks: &[Task],
) -> Result<List<ImageTask>, Memory>
    requires ready { AreReady linking.objects.now linking.stacks.now linking.layout.now linking.support.now }
    requires one_each { length linking.stacks.now ≡ length tasks.now }
    requires few { length tasks.now ≤ 32 }
    ensures { IfOk result (λ made. made ≡ spec.image_tasks linking.entry.objects.now 0 tasks.now linking.entry.stacks.now) }
{
    let mut made = List::new(alloc, tasks.len())?;
    for number in 0..tasks.len() {
        made.push(image_task(alloc, linking, &tasks[number], number)?)?;
    }
    Ok(made)
}

fn image_task(
    alloc: Global,
    linking: Linking<'_>,
    task: &Task,
    number: usize,
) -> Result<ImageTask, Memory>
    requires ready { AreReady linking.objects.now linking.stacks.now linking.layout.now linking.support.now }
    requires there { number < length linking.stacks.now }
    ensures { IfOk result (λ made. made ≡ spec.image_task linking.entry.objects.now number task.now (slice_index_or linking.entry.stacks.now number (calls.brick 0 0))) }
{
    let entry = entry_of(linking, number);
    let block = start_block(linking.support);
    let stack = stack_words(linking.objects, linking.stacks[number]);
    Ok(ImageTask {
        name: task.name.copy(alloc)?,
        priority: task.priority,
        entry,
        block,
        stack,
    })
}

/// The address of the words by which a task enters.
fn entry_of(linking: Linking<'_>, number: usize) -> u16
    requires ready { AreReady linking.objects.now linking.stacks.now linking.layout.now linking.support.now }
    requires there { number < length linking.stacks.now }
    ensures { result ≡ addresses.entry_at number }
{
    match linking.layout.tasks.get(number) {
        Some(place) => place.entry,
        None => 0,
    }
}
