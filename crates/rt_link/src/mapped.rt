//! The map of an image.

ghost use Rattle.std.specs.Prelude.{◌≡◌, ◌++◌, ◌≤◌, ◌<◌, length, slice_index, slice_index_or, IfOk, OnOk};
ghost use Rattle.rt_graph.specs.Calls as calls;
ghost use Rattle.rt_object.specs.Ranges.{HasObjectRanges};
ghost use Rattle.rt_link.specs.Mapped as spec;
ghost use Rattle.rt_link.specs.Ready.{AreReady};

use crate::held::{content_of, stack_words};
use crate::linking::Linking;
use rt_graph::Proc;
use rt_image::{Map, MapProc, MapTask};
use rt_object::{Brick, Content, ObjectParts};
use rt_system::Task;
use rt_words::{List, Memory, Name};
use std::alloc::Global;

/// The map of an image: where its code and data lie, its tasks, which need so many words each, and its own and ENT procedures by module
/// and declaration.
pub fn image_map(
    alloc: Global,
    linking: Linking<'_>,
    tasks: &[Task],
    needs: &[u16],
) -> Result<Map, Memory>
    requires few { length linking.objects.now ≤ 64 }
    requires ready { AreReady linking.objects.now linking.stacks.now linking.layout.now linking.support.now }
    requires stacks { length linking.stacks.now ≡ length tasks.now }
    requires needs { length needs.now ≡ length tasks.now }
    ensures { IfOk result (λ map. map ≡ spec.map_of linking.entry.objects.now linking.entry.stacks.now tasks.now needs.now) }
{
    let tasks = map_tasks(alloc, linking, tasks, needs)?;
    let procs = map_procs(alloc, linking)?;
    let code_end = linking.layout.code_end;
    Ok(Map {
        code: (0, code_end),
        data: (code_end, linking.layout.data_end - code_end),
        tasks,
        procs,
    })
}

fn map_tasks(
    alloc: Global,
    linking: Linking<'_>,
    tasks: &[Task],
    needs: &[u16],
) -> Result<List<MapTask>, Memory>
    requires ready { AreReady linking.objects.now linking.stacks.now linking.layout.now linking.support.now }
    requires stacks { length linking.stacks.now ≡ length tasks.now }
    requires needs { length needs.now ≡ length tasks.now }
    ensures { IfOk result (λ made. made ≡ spec.map_tasks linking.entry.objects.now linking.entry.stacks.now 0 tasks.now linking.entry.stacks.now needs.now) }
{
    let mut made = List::new(alloc, tasks.len())?;
    for number in 0..tasks.len() {
        made.push(map_task(alloc, linking, &tasks[number], number, needs[number])?)?;
    }
    Ok(made)
}

fn map_task(
    alloc: Global,
    linking: Linking<'_>,
    task: &Task,
    number: usize,
    need: u16,
) -> Result<MapTask, Memory>
    requires ready { AreReady linking.objects.now linking.stacks.now linking.layout.now linking.support.now }
    requires there { number < length linking.stacks.now }
    ensures { IfOk result (λ made. made ≡ spec.map_task linking.entry.objects.now linking.entry.stacks.now number task.now (slice_index_or linking.entry.stacks.now number (calls.brick 0 0)) need) }
{
    let words = stack_words(linking.objects, linking.stacks[number]);
    let name = task.name.copy(alloc)?;
    Ok(match linking.layout.tasks.get(number) {
        Some(place) => MapTask {
            name,
            block: place.block,
            stack: place.stack,
            words,
            need,
        },
        None => MapTask {
            name,
            block: 0,
            stack: 0,
            words,
            need,
        },
    })
}

fn map_procs(alloc: Global, linking: Linking<'_>) -> Result<List<MapProc>, Memory>
    requires few { length linking.objects.now ≤ 64 }
    requires ready { AreReady linking.objects.now linking.stacks.now linking.layout.now linking.support.now }
    ensures { IfOk result (λ made. made ≡ spec.modules_procs linking.entry.objects.now linking.entry.stacks.now 1 linking.entry.objects.now) }
{
    let mut made = List::new(alloc, 0)?;
    for at in 0..linking.objects.len() {
        push_procs(
            alloc,
            linking,
            at as u16 + 1,
            linking.objects[at].parts(),
            &mut made,
        )?;
    }
    Ok(made)
}

/// The procedures of a module behind others.
fn push_procs(
    alloc: Global,
    linking: Linking<'_>,
    module: u16,
    object: &ObjectParts,
    made: &mut List<MapProc>,
) -> Result<(), Memory>
    requires ranges { HasObjectRanges object.now }
    requires ready { AreReady linking.objects.now linking.stacks.now linking.layout.now linking.support.now }
    ensures { OnOk result (made.new ≡ made.old ++ spec.procs_from linking.entry.objects.now linking.entry.stacks.now object.now.title «module» 0 object.now.bricks) }
{
    let bricks = object.bricks.as_slice();
    for number in 0..bricks.len() {
        let of = Proc {
            module,
            brick: number as u16,
        };
        push_proc(alloc, linking, &object.title, of, &bricks[number], made)?;
    }
    Ok(())
}

fn push_proc(
    alloc: Global,
    linking: Linking<'_>,
    title: &Name,
    of: Proc,
    brick: &Brick,
    made: &mut List<MapProc>,
) -> Result<(), Memory>
    requires ready { AreReady linking.objects.now linking.stacks.now linking.layout.now linking.support.now }
    ensures { OnOk result (made.new ≡ made.old ++ spec.proc_in linking.entry.objects.now linking.entry.stacks.now title.now of.«module» of.brick brick.now (calls.content_of brick.now.kind)) }
{
    match content_of(brick) {
        Some(Content::Proc(_)) => {
            let title = title.copy(alloc)?;
            made.push(MapProc {
                title,
                name: brick.name.copy(alloc)?,
                at: linking.layout.brick(of),
            })
        }
        _ => Ok(()),
    }
}
