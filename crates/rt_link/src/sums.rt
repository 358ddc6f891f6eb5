//! The room that a system takes.

ghost use Rattle.std.specs.Prelude.{◌≡◌, ◌+◌, ◌*◌, ◌≤◌, length};
ghost use Rattle.std.specs.List.{sum_by};
ghost use Rattle.rt_object.specs.Ranges.{HasObjectRanges};
ghost use Rattle.rt_link.specs.Room as spec;

use crate::held::{code_bytes, data_bytes, string_bytes, task_bytes};
use rt_object::{Object, ObjectParts};
use rt_tree_nodes::Proc;

/// How many bytes the support code takes.
const SUPPORT_BYTES: u64 = 230;

/// How many bytes the words take by which a task enters.
pub const ENTRY_BYTES: u64 = 6;

/// How many bytes of the memory the parts of a system take, of which these are the objects, and the stack bricks of its tasks:
/// support code, the words by which tasks enter, procedures, strings, data bricks, blocks and stack bricks. The sum doesn't wrap.
pub fn room(objects: &[Object], stacks: &[Proc]) -> u64
    requires few { length objects.now ≤ 64 }
    requires tasks { length stacks.now ≤ 32 }
    ensures { result ≡ spec.room objects.now stacks.now }
{
    code_start(stacks.len()) + all_code(objects) + all_bytes(objects) + all_tasks(objects, stacks)
}

/// Where the words stand by which task `number` enters; behind all of these the procedures begin.
pub fn code_start(number: usize) -> u64
    requires { number ≤ 32 }
    ensures { result ≡ spec.support_bytes + spec.entry_bytes * number }
{
    SUPPORT_BYTES + ENTRY_BYTES * number as u64
}

/// How many bytes the procedures take.
pub fn all_code(objects: &[Object]) -> u64
    requires { length objects.now ≤ 64 }
    ensures code { result ≡ sum_by spec.module_code objects.now }
    ensures small { result ≤ 64 * 3758039040 }
{
    let mut total = 0;
    for object in objects {
        total += module_code(object.parts());
    }
    total
}

/// How many bytes the strings and data bricks take.
pub fn all_bytes(objects: &[Object]) -> u64
    requires { length objects.now ≤ 64 }
    ensures bytes { result ≡ sum_by spec.module_bytes objects.now }
    ensures small { result ≤ 64 * 7516078080 }
{
    let mut total = 0;
    for object in objects {
        total += module_strings(object.parts()) + module_data(object.parts());
    }
    total
}

/// How many bytes the blocks and stack bricks take.
fn all_tasks(objects: &[Object], stacks: &[Proc]) -> u64
    requires { length stacks.now ≤ 32 }
    ensures tasks { result ≡ sum_by (spec.task_bytes objects.now) stacks.now }
    ensures small { result ≤ 32 * 131086 }
{
    let mut total = 0;
    for stack in stacks {
        total += task_bytes(objects, *stack);
    }
    total
}

/// How many bytes the procedures of a module take.
pub fn module_code(object: &ObjectParts) -> u64
    requires { HasObjectRanges object.now }
    ensures code { result ≡ spec.module_code object.now }
    ensures small { result ≤ 3758039040 }
{
    let mut total = 0;
    for brick in object.bricks.as_slice() {
        total += code_bytes(brick);
    }
    total
}

/// How many bytes the strings of a module take.
pub fn module_strings(object: &ObjectParts) -> u64
    requires { HasObjectRanges object.now }
    ensures strings { result ≡ spec.module_strings object.now }
    ensures small { result ≤ 3758039040 }
{
    let mut total = 0;
    for string in object.strings.as_slice() {
        total += string_bytes(string.as_slice());
    }
    total
}

/// How many bytes the data bricks of a module take.
pub fn module_data(object: &ObjectParts) -> u64
    requires { HasObjectRanges object.now }
    ensures data_part { result ≡ spec.module_data object.now }
    ensures small { result ≤ 3758039040 }
{
    let mut total = 0;
    for brick in object.bricks.as_slice() {
        total += data_bytes(brick);
    }
    total
}
