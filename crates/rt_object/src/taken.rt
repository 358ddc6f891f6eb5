//! The procedures of an object that stand as values.

ghost use Rattle.std.specs.Prelude.{◌≡◌, ◌≤◌, [], IfOk, IsTrue};
ghost use Rattle.rt_words.specs.Reading as formats;
ghost use Rattle.rt_words.specs.Reading.{Gives};
ghost use Rattle.rt_object.specs.Grammar.{is_proc_at, is_proc_content, is_proc_kind, is_taken};
ghost use Rattle.rt_object.specs.Known.{AreAbove};
ghost use Rattle.rt_object.specs.Reading as reads;
ghost use Rattle.std.specs.List.{slice_get};

use crate::object::{Brick, BrickKind, Content, External, Supplied};
use rt_words::{List, Stop, front_word, read_word};
use std::alloc::Global;

/// Numbers of procedures behind their number, rising.
#[tactic(auto, unfolding(crate::specs::Reading::taken_reader))]
pub fn read_taken<'b>(
    alloc: Global,
    bricks: &[Brick],
    bytes: &'b [u8],
) -> Result<(List<u16>, &'b [u8]), Stop>
    ensures { Gives (λ x. (x.0, x.1.now)) result (reads.taken_reader bricks.now bytes.now) }
{
    let (count, rest) = read_word(bytes)?;
    read_each_taken(alloc, bricks, usize::from(count), rest)
}

/// So many numbers.
#[tactic(auto, unfolding(rt_words::specs::Reading::each))]
fn read_each_taken<'b>(
    alloc: Global,
    bricks: &[Brick],
    count: usize,
    bytes: &'b [u8],
) -> Result<(List<u16>, &'b [u8]), Stop>
    ensures { Gives (λ x. (x.0, x.1.now)) result (formats.each (reads.taken_number bricks.now) count [] bytes.now) }
{
    let mut least = 0;
    let mut found = List::new(alloc, 0)?;
    let mut rest = bytes;
    for _turn in 0..count {
        let (number, after) = read_one_taken(bricks, least, found.as_slice(), rest)?;
        least = usize::from(number) + 1;
        found.push(number)?;
        rest = after;
    }
    Ok((found, rest))
}

/// A number behind others, which are below `least`.
#[tactic(auto, unfolding(crate::specs::Reading::taken_number))]
fn read_one_taken<'b>(
    bricks: &[Brick],
    least: usize,
    before: &[u16],
    bytes: &'b [u8],
) -> Result<(u16, &'b [u8]), Stop>
    requires { AreAbove least before.now }
    ensures number { Gives (λ x. (x.0, x.1.now)) result (reads.taken_number bricks.now before.now bytes.now) }
    ensures least { IfOk result (λ x. least ≤ x.0) }
{
    match front_word(bytes) {
        Some((number, rest)) if is_taken(bricks, least, before, number) => Ok((number, rest)),
        _ => Err(Stop::Refused(bytes.len())),
    }
}

fn is_taken(bricks: &[Brick], least: usize, _before: &[u16], number: u16) -> bool
    requires { AreAbove least _before.now }
    ensures taken { result ≡ is_taken bricks.now _before.now number }
    ensures least { IsTrue result → least ≤ number }
{
    let number = usize::from(number);
    least <= number && is_proc_at(bricks, number)
}

/// Whether a number is that of a procedure, of any kind.
pub fn is_proc_at(bricks: &[Brick], number: usize) -> bool
    ensures { result ≡ is_proc_at (slice_get bricks.now number) }
{
    match bricks.get(number) {
        Some(brick) => is_proc_kind(&brick.kind),
        None => false,
    }
}

fn is_proc_kind(kind: &BrickKind) -> bool
    ensures { result ≡ is_proc_kind kind.now }
{
    match kind {
        BrickKind::Own(content) | BrickKind::Ent(content) => is_proc_content(content),
        BrickKind::Ext(External::Proc(_)) | BrickKind::Svc(Supplied::Proc(_)) => true,
        BrickKind::Ext(_) | BrickKind::Svc(_) => false,
    }
}

fn is_proc_content(content: &Content) -> bool
    ensures { result ≡ is_proc_content content.now }
{
    match content {
        Content::Proc(_) => true,
        Content::Data(_) | Content::Stack(_) => false,
    }
}
