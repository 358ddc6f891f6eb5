//! The procedures of a module that stand as values or as starts.

ghost use Rattle.std.specs.Prelude.{◌≡◌, false, length, replicate, IfOk, OnOk, Some};
ghost use Rattle.rt_compile.specs.Marks.{all_marked, numbers_of};
ghost use Rattle.rt_compile.specs.Taken.{AreTaken};
ghost use Rattle.rt_tree.specs.Taken as tree;

use crate::taken::starts::starts;
use crate::taken::statements::sequence;
use rt_resolve::body_tree;
use rt_tree::{Brick, BrickSort, ProcBody, TypedModule};
use rt_words::{List, Memory};
use std::alloc::Global;

/// The numbers of the procedure bricks, of any kind, whose names stand as values or as starts, each once and rising. It takes time
/// linear in the module.
pub fn taken(alloc: Global, module: &TypedModule) -> Result<List<u16>, Memory>
    ensures { IfOk result (AreTaken «module».now) }
{
    let marks = marks_of(alloc, module)?;
    numbers_of(alloc, marks.as_slice())
}

/// A mark for each brick.
fn marks_of(alloc: Global, module: &TypedModule) -> Result<Vec<bool>, Memory>
    ensures { IfOk result (λ marks. all_marked (tree.taken «module».now) (replicate (length «module».now.bricks) false) ≡ Some marks.items) }
{
    let mut marks = unmarked(alloc, module.bricks().len())?;
    mark_bricks(alloc, module, marks.as_mut_slice())?;
    Ok(marks)
}

fn unmarked(alloc: Global, count: usize) -> Result<Vec<bool>, Memory>
    ensures { IfOk result (λ marks. marks.items ≡ replicate count false) }
{
    Ok(vec![in alloc; false; count]?)
}

fn mark_bricks(alloc: Global, module: &TypedModule, marks: &mut [bool]) -> Result<(), Memory>
    ensures { OnOk result (all_marked (tree.taken «module».now) marks.old ≡ Some marks.new) }
{
    for brick in module.bricks().as_slice() {
        mark_brick(alloc, module, brick, marks)?;
    }
    Ok(())
}

fn mark_brick(
    alloc: Global,
    module: &TypedModule,
    brick: &Brick,
    marks: &mut [bool],
) -> Result<(), Memory>
    ensures { OnOk result (all_marked (tree.in_brick «module».now brick.now) marks.old ≡ Some marks.new) }
{
    match &brick.sort {
        BrickSort::Proc(_, Some(body)) => mark_body(alloc, module, body, marks),
        BrickSort::Data(_, all) => starts(marks, all.as_slice()),
        BrickSort::Proc(_, None) | BrickSort::Stack(_) => Ok(()),
    }
}

fn mark_body(
    alloc: Global,
    module: &TypedModule,
    body: &ProcBody,
    marks: &mut [bool],
) -> Result<(), Memory>
    ensures { OnOk result (all_marked (tree.in_body «module».now (Some body.now)) marks.old ≡ Some marks.new) }
{
    let scope = module.scope().with_locals(body.locals.as_slice());
    let tree = body_tree(alloc, &scope, &body.body)?;
    sequence(marks, &tree)
}

/// The numbers that are marked.
fn numbers_of(alloc: Global, marks: &[bool]) -> Result<List<u16>, Memory>
    ensures { IfOk result (λ ns. ns ≡ numbers_of 0 marks.now) }
{
    let mut numbers = List::new(alloc, 0)?;
    for (number, mark) in marks.iter().enumerate() {
        if *mark {
            numbers.push(word(number)?)?;
        }
    }
    Ok(numbers)
}

/// A number as one of 16 bits; another, which no brick has, is answered as want of memory.
fn word(number: usize) -> Result<u16, Memory>
    ensures { IfOk result (λ n. n ≡ number) }
{
    if number > 65535 {
        Err(Memory)
    } else {
        Ok(number as u16)
    }
}
