//! Bricks, from how they are declared and what they hold.

ghost use Rattle.std.specs.Prelude.{◌≡◌, IfOk};
ghost use Rattle.rt_check_declared.specs.Totals.{all_fields};
ghost use Rattle.rt_check_module.specs.Tree as spec;
ghost use Rattle.rt_check_module.specs.Tree.{or_none};

use rt_check_declared::{Given, Heading, Part, Sort, fields_of};
use rt_check_module::Filling;
use rt_modes::Field;
use rt_tree_nodes::{Brick, BrickSort};
use rt_words::{List, Memory};
use std::alloc::Global;

/// The bricks that are declared so and hold this.
pub fn fill(
    alloc: Global,
    headings: List<Heading>,
    fillings: List<Filling>,
) -> Result<List<Brick>, Memory>
    ensures { IfOk result (λ bs. bs ≡ spec.filled headings fillings) }
{
    let mut bricks = List::new(alloc, headings.len())?;
    let mut left = fillings.into_vec().into_iter();
    for heading in headings.into_vec() {
        let Some(filling) = left.next() else {
            return Ok(bricks);
        };
        bricks.push(brick_by(alloc, heading, filling)?)?;
    }
    Ok(bricks)
}

fn brick_by(alloc: Global, heading: Heading, filling: Filling) -> Result<Brick, Memory>
    ensures { IfOk result (λ b. b ≡ spec.brick_by heading filling) }
{
    Ok(Brick {
        kind: heading.kind,
        name: heading.name,
        sort: sort_by(alloc, heading.sort, filling)?,
    })
}

fn sort_by(alloc: Global, sort: Sort, filling: Filling) -> Result<BrickSort, Memory>
    ensures { IfOk result (λ s. s ≡ spec.sort_by sort filling) }
{
    match sort {
        Sort::Procedure(given) => match given {
            Given::Mode(mode) => Ok(BrickSort::Proc(mode, filling.body)),
            Given::Unknown => Ok(BrickSort::Stack(0)),
        },
        Sort::Items(parts) => {
            let fields = all_fields(alloc, parts.as_slice())?;
            Ok(BrickSort::Data(fields, filling.starts))
        }
        Sort::Stack(words) => Ok(BrickSort::Stack(words)),
    }
}

fn all_fields(alloc: Global, parts: &[Part]) -> Result<List<Field>, Memory>
    ensures { IfOk result (λ fs. fs ≡ or_none (all_fields parts.now)) }
{
    match fields_of(alloc, parts)? {
        Some(fields) => Ok(fields),
        None => List::new(alloc, 0),
    }
}
