//! Where the tasks of a system lie.

ghost use Rattle.std.specs.Prelude.{◌≡◌, ◌+◌, ◌≤◌, ◌<◌, ℕ, length, IfOk};
ghost use Rattle.std.specs.List.{sum_by};
ghost use Rattle.rt_link.specs.Addresses as addresses;
ghost use Rattle.rt_link.specs.Room as spec;
ghost use Rattle.rt_link.specs.Tables.{AreTaskPlaces};

use crate::held::task_bytes;
use crate::sums::code_start;
use rt_graph::is_same;
use rt_object::Object;
use rt_tree_nodes::Proc;
use rt_words::{List, Memory};
use std::alloc::Global;

/// Where a task lies.
#[derive(Clone, Copy)]
pub struct TaskPlace {
    /// The address of the words by which it enters its root.
    pub entry: u16,
    /// The address of its block.
    pub block: u16,
    /// The address of its stack brick, which lies behind the block.
    pub stack: u16,
}

/// Where the tasks lie that have these stack bricks, behind data that end at an address.
pub fn task_places(
    alloc: Global,
    objects: &[Object],
    stacks: &[Proc],
    data_end: u16,
) -> Result<List<TaskPlace>, Memory>
    requires tasks { length stacks.now ≤ 32 }
    requires start { data_end ≡ spec.data_end objects.now stacks.now }
    requires room { spec.room objects.now stacks.now ≤ 57344 }
    ensures { IfOk result (AreTaskPlaces objects.now stacks.now) }
{
    let mut places = List::new(alloc, stacks.len())?;
    let mut block = u64::from(data_end);
    for number in 0..stacks.len() {
        places.push(TaskPlace {
            entry: code_start(number) as u16,
            block: block as u16,
            stack: block as u16 + 16,
        })?;
        block += task_bytes(objects, stacks[number]);
    }
    Ok(places)
}

/// The address of a stack brick, by the first task that has it; 0 where none has it.
pub fn stack_address(_objects: &[Object], stacks: &[Proc], places: &[TaskPlace], of: Proc) -> u16
    requires { AreTaskPlaces _objects.now stacks.now places.now }
    ensures { result ≡ addresses.stack_address _objects.now stacks.now of }
{
    for number in 0..stacks.len() {
        if is_same(of, stacks[number]) {
            return places[number].stack;
        }
    }
    0
}
