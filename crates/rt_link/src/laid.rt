//! Where the parts of a system lie.

ghost use Rattle.std.specs.Prelude.{◌≡◌, ◌≤◌, length, slice_index, IfOk};
ghost use Rattle.rt_link.specs.Room as spec;
ghost use Rattle.rt_link.specs.Tables as tables;

use crate::rows::{Placed, brick_rows, string_rows};
use crate::sums::{all_bytes, all_code, code_start};
use crate::tasks::{TaskPlace, task_places};
use rt_object::Object;
use rt_tree_nodes::Proc;
use rt_words::{List, Memory};
use std::alloc::Global;

/// How many bytes the memory has.
pub const MEMORY: u64 = 57344;

/// Where the parts of a system lie. Modules count from 1.
#[derive(Drop)]
pub struct Layout {
    /// The address past the code, at which the data begin.
    pub code_end: u16,
    /// The address past the data, at which the block of the first task stands.
    pub data_end: u16,
    /// By module and number, the address of each brick: of an own or ENT procedure or data brick, and of the stack brick of a task;
    /// 0 for all else.
    pub bricks: List<List<u16>>,
    /// By module and number, the address of each string.
    pub strings: List<List<u16>>,
    /// Where each task lies.
    pub tasks: List<TaskPlace>,
}

fn number(row: &[u16], number: u16) -> u16
    ensures { result ≡ slice_index row.now number }
{
    match row.get(usize::from(number)) {
        Some(address) => *address,
        None => 0,
    }
}

fn found(rows: &[List<u16>], module: u16, at: u16) -> u16
    ensures { result ≡ tables.found rows.now «module» at }
{
    if module == 0 {
        return 0;
    }
    match rows.get(usize::from(module) - 1) {
        Some(row) => number(row.as_slice(), at),
        None => 0,
    }
}

impl Layout {
    /// Where the parts of a system lie, of which these are the objects, and the stack bricks of its tasks.
    pub fn of(alloc: Global, objects: &[Object], stacks: &[Proc]) -> Result<Layout, Memory>
        requires few { length objects.now ≤ 64 }
        requires tasks { length stacks.now ≤ 32 }
        requires room { spec.room objects.now stacks.now ≤ 57344 }
        ensures { IfOk result (tables.IsLayout objects.now stacks.now) }
    {
        let code = code_start(stacks.len()) as u16;
        let code_end = code + all_code(objects) as u16;
        let data_end = code_end + all_bytes(objects) as u16;
        let tasks = task_places(alloc, objects, stacks, data_end)?;
        let placed = Placed {
            objects,
            stacks,
            places: tasks.as_slice(),
        };
        let bricks = brick_rows(alloc, placed, code, code_end)?;
        let strings = string_rows(alloc, objects, code_end)?;
        Ok(Layout {
            code_end,
            data_end,
            bricks,
            strings,
            tasks,
        })
    }

    /// The address of a brick; 0 where it has none.
    pub fn brick(&self, of: Proc) -> u16
        ensures { result ≡ tables.found self.now.bricks of.«module» of.brick }
    {
        found(self.bricks.as_slice(), of.module, of.brick)
    }

    /// The address of a string; 0 where there is none.
    pub fn string(&self, module: u16, at: u16) -> u16
        ensures { result ≡ tables.found self.now.strings «module» at }
    {
        found(self.strings.as_slice(), module, at)
    }
}
