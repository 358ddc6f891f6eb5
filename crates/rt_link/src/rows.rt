//! The tables of addresses, by module.

ghost use Rattle.std.specs.Prelude.{◌≡◌, ◌+◌, ◌-◌, ◌≤◌, ◌<◌, ℕ, suc, length, slice_get, slice_index, IfOk};
ghost use Rattle.std.specs.List.{sum_by};
ghost use Rattle.rt_graph.specs.Calls as calls;
ghost use Rattle.rt_link.specs.Addresses as addresses;
ghost use Rattle.rt_link.specs.Room as spec;
ghost use Rattle.rt_link.specs.Tables.{AreTaskPlaces};
ghost use Rattle.rt_link.specs.Rows as rows;

use crate::held::{code_bytes, content_of, data_bytes, string_bytes};
use crate::sums::{module_code, module_data, module_strings};
use crate::tasks::{TaskPlace, stack_address};
use rt_object::{Brick, Content, Object, ObjectParts};
use rt_tree_nodes::Proc;
use rt_words::{Bytes, List, Memory};
use std::alloc::Global;

/// The objects of a system, the stack bricks of its tasks, and where these lie.
#[derive(Clone, Copy)]
pub struct Placed<'l> {
    pub objects: &'l [Object],
    pub stacks: &'l [Proc],
    pub places: &'l [TaskPlace],
}

/// The addresses of the strings of all modules.
pub fn string_rows(alloc: Global, objects: &[Object], start: u16) -> Result<List<List<u16>>, Memory>
    requires few { length objects.now ≤ 64 }
    requires room { start + sum_by spec.module_bytes objects.now ≤ 57344 }
    ensures { IfOk result (rows.AreStringRows objects.now start) }
{
    let mut rows = List::new(alloc, objects.len())?;
    let mut next = start;
    for object in objects {
        let object = object.parts();
        rows.push(string_row(alloc, object.strings.as_slice(), next)?)?;
        next += (module_strings(object) + module_data(object)) as u16;
    }
    Ok(rows)
}

/// The addresses of strings that lie one after another from an address on.
fn string_row(alloc: Global, strings: &[Bytes], first: u16) -> Result<List<u16>, Memory>
    requires { first + sum_by spec.string_bytes strings.now ≤ 57344 }
    ensures { IfOk result (rows.IsStringRow strings.now first) }
{
    let mut row = List::new(alloc, strings.len())?;
    let mut next = first;
    for string in strings {
        row.push(next)?;
        next += string_bytes(string.as_slice()) as u16;
    }
    Ok(row)
}

/// The addresses of the bricks of all modules.
pub fn brick_rows(
    alloc: Global,
    placed: Placed<'_>,
    code: u16,
    bytes: u16,
) -> Result<List<List<u16>>, Memory>
    requires few { length placed.objects.now ≤ 64 }
    requires tasks { AreTaskPlaces placed.objects.now placed.stacks.now placed.places.now }
    requires code { code + sum_by spec.module_code placed.objects.now ≤ 57344 }
    requires bytes { bytes + sum_by spec.module_bytes placed.objects.now ≤ 57344 }
    ensures { IfOk result (rows.AreBrickRows placed.entry.objects.now placed.entry.stacks.now code bytes) }
{
    let mut rows = List::new(alloc, placed.objects.len())?;
    let mut next_code = code;
    let mut next_bytes = bytes;
    for at in 0..placed.objects.len() {
        let object = placed.objects[at].parts();
        let data = next_bytes + module_strings(object) as u16;
        rows.push(brick_row(
            alloc,
            placed,
            at as u16 + 1,
            object.bricks.as_slice(),
            next_code,
            data,
        )?)?;
        next_code += module_code(object) as u16;
        next_bytes = data + module_data(object) as u16;
    }
    Ok(rows)
}

/// The addresses of the bricks of a module.
fn brick_row(
    alloc: Global,
    placed: Placed<'_>,
    module: u16,
    bricks: &[Brick],
    code: u16,
    bytes: u16,
) -> Result<List<u16>, Memory>
    requires few { length bricks.now ≤ 65535 }
    requires tasks { AreTaskPlaces placed.objects.now placed.stacks.now placed.places.now }
    requires code { code + sum_by spec.code_bytes bricks.now ≤ 57344 }
    requires bytes { bytes + sum_by spec.data_bytes bricks.now ≤ 57344 }
    ensures { IfOk result (rows.IsBrickRow placed.entry.objects.now placed.entry.stacks.now «module» bricks.now code bytes) }
{
    let mut row = List::new(alloc, bricks.len())?;
    let mut next_code = code;
    let mut next_bytes = bytes;
    for number in 0..bricks.len() {
        let of = Proc {
            module,
            brick: number as u16,
        };
        row.push(address(placed, &bricks[number], of, next_code, next_bytes))?;
        next_code += code_bytes(&bricks[number]) as u16;
        next_bytes += data_bytes(&bricks[number]) as u16;
    }
    Ok(row)
}

/// The address of a brick, where its code would begin at one address, and its bytes at another.
fn address(placed: Placed<'_>, brick: &Brick, of: Proc, code: u16, bytes: u16) -> u16
    requires { AreTaskPlaces placed.objects.now placed.stacks.now placed.places.now }
    ensures { result ≡ addresses.address_by (calls.content_of brick.now.kind) code bytes (addresses.stack_address placed.entry.objects.now placed.entry.stacks.now of) }
{
    match content_of(brick) {
        Some(Content::Proc(_)) => code,
        Some(Content::Data(_)) => bytes,
        Some(Content::Stack(_)) => {
            stack_address(placed.objects, placed.stacks, placed.places, of)
        }
        None => 0,
    }
}
