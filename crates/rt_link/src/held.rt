//! What the bricks of a system hold, and how many bytes they take.

ghost use Rattle.std.specs.Prelude.{◌≡◌, ◌≤◌, slice_get};
ghost use Rattle.std.specs.Option.{option_copied};
ghost use Rattle.rt_graph.specs.Calls as calls;
ghost use Rattle.rt_link.specs.Room as spec;
ghost use Rattle.rt_sizes.specs.Sizes as sizes;

use rt_object::{Brick, BrickKind, Content, Object};
use rt_tree_nodes::Proc;

/// What an own or ENT brick holds.
pub fn content_of(brick: &Brick) -> Option<&Content>
    ensures { option_copied result ≡ calls.content_of brick.now.kind }
{
    match &brick.kind {
        BrickKind::Own(content) => Some(content),
        BrickKind::Ent(content) => Some(content),
        BrickKind::Ext(_) => None,
        BrickKind::Svc(_) => None,
    }
}

fn content_at(bricks: &[Brick], number: u16) -> Option<&Content>
    ensures { option_copied result ≡ calls.content_at (slice_get bricks.now number) }
{
    match bricks.get(usize::from(number)) {
        Some(brick) => content_of(brick),
        None => None,
    }
}

/// What an own or ENT brick of a system holds.
fn held(objects: &[Object], of: Proc) -> Option<&Content>
    ensures { option_copied result ≡ spec.held objects.now of }
{
    if of.module == 0 {
        return None;
    }
    match objects.get(usize::from(of.module) - 1) {
        Some(object) => content_at(object.parts().bricks.as_slice(), of.brick),
        None => None,
    }
}

/// How many words a stack brick has; another brick has none.
pub fn stack_words(objects: &[Object], of: Proc) -> u16
    ensures { result ≡ spec.stack_words objects.now of }
{
    match held(objects, of) {
        Some(Content::Stack(words)) => *words,
        _ => 0,
    }
}

/// How many bytes a task takes behind the data, by its stack brick.
pub fn task_bytes(objects: &[Object], of: Proc) -> u64
    ensures bytes { result ≡ spec.task_bytes objects.now of }
    ensures small { result ≤ 131086 }
{
    16 + 2 * u64::from(stack_words(objects, of))
}

/// How many bytes the code of a brick has.
pub fn code_bytes(brick: &Brick) -> u64
    requires { spec.code_bytes brick.now ≤ 57344 }
    ensures { result ≡ spec.code_bytes brick.now }
{
    match content_of(brick) {
        Some(Content::Proc(proc)) => 2 * proc.words.len() as u64,
        _ => 0,
    }
}

/// How many bytes a data brick takes; another brick takes none.
pub fn data_bytes(brick: &Brick) -> u64
    requires { spec.data_bytes brick.now ≤ 57344 }
    ensures { result ≡ spec.data_bytes brick.now }
{
    match content_of(brick) {
        Some(Content::Data(data)) => even(data.bytes.len()),
        _ => 0,
    }
}

/// How many bytes a string takes.
pub fn string_bytes(string: &[u8]) -> u64
    requires { spec.string_bytes string.now ≤ 57344 }
    ensures { result ≡ spec.string_bytes string.now }
{
    2 + even(string.len())
}

/// The least even number that isn't less.
fn even(bytes: usize) -> u64
    requires { bytes ≤ 57344 }
    ensures { result ≡ sizes.even bytes }
{
    let bytes = bytes as u64;
    bytes + bytes % 2
}
