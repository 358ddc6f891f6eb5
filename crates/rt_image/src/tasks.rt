//! The tasks of an image, read from their bytes.

ghost use Rattle.std.specs.Prelude.{◌≡◌, ◌≤◌, ◌*◌, ◌^◌, [], length};
ghost use Rattle.rt_words.specs.Format.{any};
ghost use Rattle.rt_words.specs.Reading as formats;
ghost use Rattle.rt_words.specs.Reading.{Gives};
ghost use Rattle.rt_image.specs.Grammar.{entry_below, stack_behind, is_stack, is_new};
ghost use Rattle.rt_image.specs.Reading as reads;

use crate::image::ImageTask;
use crate::ranges::{MEMORY, is_new, memory_behind};
use rt_words::{List, Name, Stop, front_word, read_byte_within, read_name, read_word};
use std::alloc::Global;

/// The tasks behind code that ends at `code_end`, where `used` bytes of the memory are taken before them.
#[tactic(auto, unfolding(crate::specs::Reading::tasks))]
pub fn read_tasks(
    alloc: Global,
    code_end: usize,
    used: usize,
    bytes: &[u8],
) -> Result<(List<ImageTask>, &[u8]), Stop>
    requires { used ≤ 2 * 57344 }
    ensures { Gives (λ x. (x.0, x.1.now)) result (reads.tasks code_end used bytes.now) }
{
    let (count, rest) = read_byte_within(1, 32, bytes)?;
    read_each(alloc, code_end, used, usize::from(count), rest)
}

/// So many tasks.
#[tactic(auto, unfolding(rt_words::specs::Reading::each))]
fn read_each(
    alloc: Global,
    code_end: usize,
    used: usize,
    count: usize,
    bytes: &[u8],
) -> Result<(List<ImageTask>, &[u8]), Stop>
    requires used { used ≤ 2 * 57344 }
    requires count { count ≤ 32 }
    ensures { Gives (λ x. (x.0, x.1.now)) result (formats.each (reads.task code_end used) count [] bytes.now) }
{
    let mut found = List::new(alloc, count)?;
    let mut rest = bytes;
    for _turn in 0..count {
        let (task, after) = read_task(alloc, code_end, used, found.as_slice(), rest)?;
        found.push(task)?;
        rest = after;
    }
    Ok((found, rest))
}

/// A task behind others.
#[tactic(auto, unfolding(crate::specs::Reading::task))]
fn read_task<'b>(
    alloc: Global,
    code_end: usize,
    used: usize,
    before: &[ImageTask],
    bytes: &'b [u8],
) -> Result<(ImageTask, &'b [u8]), Stop>
    requires used { used ≤ 2 * 57344 }
    requires before { length before.now ≤ 32 }
    ensures { Gives (λ x. (x.0, x.1.now)) result (reads.task code_end used before.now bytes.now) }
{
    let (name, rest) = read_new_name(alloc, before, bytes)?;
    let (priority, rest) = read_byte_within(1, 255, rest)?;
    let (entry, rest) = read_entry(code_end, rest)?;
    let (block, rest) = read_block_words(rest)?;
    let (stack, rest) = read_stack(memory_behind(used, before), rest)?;
    Ok((
        ImageTask {
            name,
            priority,
            entry,
            block,
            stack,
        },
        rest,
    ))
}

/// A name that none of the tasks has.
fn read_new_name<'b>(
    alloc: Global,
    before: &[ImageTask],
    bytes: &'b [u8],
) -> Result<(Name, &'b [u8]), Stop>
    ensures { Gives (λ x. (x.0, x.1.now)) result (formats.passing (is_new before.now) formats.name bytes.now) }
{
    let (name, rest) = read_name(alloc, bytes)?;
    if is_new(before, &name) {
        Ok((name, rest))
    } else {
        Err(Stop::Refused(bytes.len()))
    }
}

/// The address of an instruction.
fn read_entry(code_end: usize, bytes: &[u8]) -> Result<(u16, &[u8]), Stop>
    ensures { Gives (λ x. (x.0, x.1.now)) result (formats.word (entry_below code_end) bytes.now) }
{
    match front_word(bytes) {
        Some((entry, rest)) if entry % 2 == 0 && usize::from(entry) < code_end => Ok((entry, rest)),
        _ => Err(Stop::Refused(bytes.len())),
    }
}

/// The length of a brick in words, where so many bytes of the memory are taken.
fn read_stack(used: usize, bytes: &[u8]) -> Result<(u16, &[u8]), Stop>
    requires { used ≤ 2 ^ 24 }
    ensures { Gives (λ x. (x.0, x.1.now)) result (formats.word (stack_behind used) bytes.now) }
{
    match front_word(bytes) {
        Some((stack, rest)) if is_stack(used, stack) => Ok((stack, rest)),
        _ => Err(Stop::Refused(bytes.len())),
    }
}

/// Whether the memory has room for a block and a brick of so many words.
fn is_stack(used: usize, stack: u16) -> bool
    requires { used ≤ 2 ^ 24 }
    ensures { result ≡ is_stack used stack }
{
    1 <= stack && stack <= 28672 && used + (16 + 2 * usize::from(stack)) <= MEMORY
}

/// The eight words of a block.
#[tactic(auto, unfolding(rt_words::specs::Reading::each))]
fn read_block_words(bytes: &[u8]) -> Result<([u16; 8], &[u8]), Stop>
    ensures { Gives (λ x. (x.0, x.1.now)) result (formats.times (formats.word any) 8 [] bytes.now) }
{
    let mut block = [0; 8];
    let mut rest = bytes;
    for number in 0..8 {
        let (word, after) = read_word(rest)?;
        block[number] = word;
        rest = after;
    }
    Ok((block, rest))
}
