//! The text of the table.

ghost use Rattle.std.specs.Prelude.{◌≡◌, ◌≤◌, ◌++◌, length, IfOk, OnOk};
ghost use Rattle.rt_graph.specs.Scans.{told_need};
ghost use Rattle.rt_report.specs.StackNeeds.{need_in, Tells};
ghost use Rattle.rt_report.specs.Stacks as spec;

use crate::line::put_line;
use crate::stack_needs::{NeedMap, all_needs, need_of};
use crate::word::Word;
use rt_graph::{Order, root_named, stack_named};
use rt_object::{Object, ObjectParts};
use rt_system::{System, Task};
use rt_tree_nodes::Proc;
use rt_words::{Memory, Text};
use std::alloc::Global;

/// The word before a need.
const NEED: Word<'static> = Word::Text(b"NEED");

#[tactic(auto, unfolding(crate::specs::Stacks::proc_line))]
fn put_proc(out: &mut Text, title: &[u8], name: &[u8], need: Option<u32>) -> Result<(), Memory>
    ensures { OnOk result (out.new.items ≡ out.old.items ++ spec.line_of title.now name.now need) }
{
    match need {
        None => Ok(()),
        Some(need) => {
            let words = [
                Word::Dotted(title, name),
                NEED,
                Word::Number(u64::from(need)),
            ];
            put_line(out, Word::Text(b"PROC"), &words)
        }
    }
}

/// The lines of a module's procedures.
fn put_bricks(
    out: &mut Text,
    map: &NeedMap,
    object: &ObjectParts,
    module: u16,
) -> Result<(), Memory>
    requires { length object.now.bricks ≤ 65535 }
    ensures { OnOk result (out.new.items ≡ out.old.items ++ spec.bricks_text (need_in map.now) object.now.title «module» 0 object.now.bricks) }
{
    let title = object.title.as_slice();
    let bricks = object.bricks.as_slice();
    for number in 0..bricks.len() {
        let brick = number as u16;
        let need = need_of(map, Proc { module, brick });
        put_proc(out, title, bricks[number].name.as_slice(), need)?;
    }
    Ok(())
}

/// The lines of all procedures.
fn put_modules(out: &mut Text, map: &NeedMap, objects: &[Object]) -> Result<(), Memory>
    requires { length objects.now ≤ 64 }
    ensures { OnOk result (out.new.items ≡ out.old.items ++ spec.modules_text (need_in map.now) 1 objects.now) }
{
    for number in 0..objects.len() {
        put_bricks(out, map, objects[number].parts(), number as u16 + 1)?;
    }
    Ok(())
}

/// What a task's root needs.
fn root_need(map: &NeedMap, objects: &[Object], name: &[u8]) -> Option<u32>
    requires { length objects.now ≤ 64 }
    ensures { result ≡ spec.root_need (need_in map.now) objects.now name.now }
{
    match root_named(objects, name) {
        Some(root) => need_of(map, root),
        None => None,
    }
}

#[tactic(auto, unfolding(crate::specs::Stacks::task_line))]
fn put_task_line(out: &mut Text, task: &Task, need: u32, has: u16) -> Result<(), Memory>
    ensures { OnOk result (out.new.items ≡ out.old.items ++ spec.task_line task.now.name task.now.stack need has) }
{
    let words = [
        Word::Text(task.name.as_slice()),
        Word::Text(b"STACK"),
        Word::Text(task.stack.as_slice()),
        NEED,
        Word::Number(u64::from(need)),
        Word::Text(b"HAS"),
        Word::Number(u64::from(has)),
    ];
    put_line(out, Word::Text(b"TASK"), &words)
}

fn put_task(out: &mut Text, map: &NeedMap, objects: &[Object], task: &Task) -> Result<(), Memory>
    requires { length objects.now ≤ 64 }
    ensures { OnOk result (out.new.items ≡ out.old.items ++ spec.task_text (need_in map.now) objects.now task.now) }
{
    let need = root_need(map, objects, task.root.as_slice());
    let has = stack_named(objects, task.stack.as_slice());
    match (need, has) {
        (Some(need), Some(has)) => put_task_line(out, task, need, has),
        _ => Ok(()),
    }
}

/// The lines of tasks.
fn put_tasks(
    out: &mut Text,
    map: &NeedMap,
    objects: &[Object],
    tasks: &[Task],
) -> Result<(), Memory>
    requires { length objects.now ≤ 64 }
    ensures { OnOk result (out.new.items ≡ out.old.items ++ spec.tasks_text (need_in map.now) objects.now tasks.now) }
{
    for task in tasks {
        put_task(out, map, objects, task)?;
    }
    Ok(())
}

/// The stack table of a system. The order and the needs are those for the roots of its tasks.
pub fn stack_table(
    alloc: Global,
    objects: &[Object],
    system: &System,
    order: &Order,
    needs: &[u32],
) -> Result<Text, Memory>
    requires few { length objects.now ≤ 64 }
    requires needs { length needs.now ≡ length order.now.procs }
    ensures { IfOk result (λ text. text.items ≡ spec.table_text (told_need order.now.procs needs.now) objects.now system.now.tasks) }
{
    let map = all_needs(alloc, order.procs.as_slice(), needs)?;
    let mut out = Text::new(alloc, 0)?;
    put_modules(&mut out, &map, objects)?;
    put_tasks(&mut out, &map, objects, system.tasks())?;
    Ok(out)
}
