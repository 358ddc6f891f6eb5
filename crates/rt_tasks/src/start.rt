// The parts of a task at the start of an image.
ghost use Rattle.std.specs.Prelude.{◌≡◌, ◌+◌, ◌*◌, ◌%◌, ◌<◌, ◌≤◌, ◌++◌, length, map, replicate, sum, slice_get, IfOk, IfSome, OnOk};
ghost use Rattle.rt_image.specs.Memory.{words_bytes, block_from};
ghost use Rattle.rt_image.specs.Ranges.{task_size, HasImageRanges};
ghost use Rattle.rt_tasks.specs.Start.{places_of, start_regs, IsPlaced};
ghost use Rattle.rt_tasks.specs.Words.{code_words, code_marks};

use crate::code::Marked;
use pdp_core::{Protection, Regs};
use rt_image::{ImageParts, ImageTask};
use rt_words::{ListBuilder, Memory};
use std::alloc::Global;

// The address of the block of task `n`, counted from 0, where that of the first is `from`.
fn block_address(tasks: &[ImageTask], n: usize, from: u16) -> u16
    requires there { n < length tasks.now }
    requires room { from + sum (map task_size tasks.now) ≤ 57344 }
    requires even { from % 2 ≡ 0 }
    ensures value { result ≡ block_from tasks.now n from }
    ensures behind { from ≤ result }
    ensures even { result % 2 ≡ 0 }
    ensures inside { IfSome (slice_get tasks.now n) (λ t. result + task_size t ≤ 57344) }
{
    let mut at = from;
    for i in 0..n {
        at += 16 + 2 * tasks[i].stack;
    }
    at
}

/// What task `n` may use, counted from 0.
pub fn places(parts: &ImageParts, n: usize) -> Protection
    requires ranges { HasImageRanges parts.now }
    requires there { n < length parts.now.tasks }
    ensures value { result ≡ places_of parts.now n }
    ensures placed { IfSome (slice_get parts.now.tasks n) (IsPlaced result) }
{
    let code_end = 2 * parts.code.len() as u16;
    let data_end = code_end + parts.bytes.len() as u16;
    let tasks = parts.tasks.as_slice();
    let block = block_address(tasks, n, data_end);
    let brick = block + 16;
    Protection {
        code_end,
        data_end,
        block,
        brick,
        brick_end: brick + 2 * tasks[n].stack,
    }
}

/// The registers of a task with these places, which begins at `entry`.
pub fn registers(places: &Protection, entry: u16) -> Regs
    ensures { result ≡ start_regs places.now entry }
{
    Regs {
        r: [0, 0, 0, 0, places.block, 0, places.brick_end, entry],
        n: false,
        z: false,
        v: false,
        c: false,
    }
}

/// The words of the code, each with its mark.
pub fn marked_words(alloc: Global, code: &[u16], marks: &[u8]) -> Result<Vec<Marked>, Memory>
    requires { length marks.now ≡ length code.now }
    ensures words { IfOk result (λ v. code_words v.items ≡ code.now) }
    ensures marks { IfOk result (λ v. code_marks v.items ≡ marks.now) }
{
    let mut words = ListBuilder::new(alloc, code.len())?;
    for n in 0..code.len() {
        words.push(Marked {
            word: code[n],
            mark: marks[n],
        })?;
    }
    Ok(words.into_vec())
}

/// The words of an even number of bytes, the low one of each first.
pub fn data_words(alloc: Global, bytes: &[u8]) -> Result<Vec<u16>, Memory>
    requires { length bytes.now % 2 ≡ 0 }
    ensures { IfOk result (λ v. words_bytes v.items ≡ bytes.now) }
{
    let count = bytes.len() / 2;
    let mut words = ListBuilder::new(alloc, count)?;
    for n in 0..count {
        words.push(bytes[2 * n] as u16 + 256 * bytes[2 * n + 1] as u16)?;
    }
    Ok(words.into_vec())
}

fn put_zeros(out: &mut ListBuilder<u16>, count: usize) -> Result<(), Memory>
    ensures { OnOk result (out.new.items ≡ out.old.items ++ replicate count 0) }
{
    for _i in 0..count {
        out.push(0)?;
    }
    Ok(())
}

/// The words of a block, and of a brick of so many words behind it, which are zeros.
pub fn own_words(alloc: Global, block: &[u16], stack: u16) -> Result<Vec<u16>, Memory>
    ensures { IfOk result (λ v. words_bytes v.items ≡ words_bytes block.now ++ replicate (2 * stack) 0) }
{
    let zeros = usize::from(stack);
    let mut words = ListBuilder::new(alloc, block.len() + zeros)?;
    words.push_all(block)?;
    put_zeros(&mut words, zeros)?;
    Ok(words.into_vec())
}
