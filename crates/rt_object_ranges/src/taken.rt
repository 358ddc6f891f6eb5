//! Whether the numbers of the procedures that stand as values keep their ranges.

ghost use Rattle.std.specs.Prelude.{◌↔◌, All, IsTrue};
ghost use Rattle.std.specs.List.{AllByRecursion};
ghost use Rattle.rt_object.specs.Ranges.{IsCounted, IsProcNumber, Rise};

use crate::small::COUNTED;
use rt_object::{Brick, is_proc_at};

pub fn are_taken(bricks: &[Brick], taken: &[u16]) -> bool
    ensures { IsTrue result ↔ (IsCounted taken.now × Rise taken.now × AllByRecursion (IsProcNumber bricks.now) taken.now) }
{
    if taken.len() > COUNTED || !numbers_rise(taken) {
        return false;
    }
    is_each_proc(bricks, taken)
}

fn numbers_rise(numbers: &[u16]) -> bool
    ensures { IsTrue result ↔ Rise numbers.now }
{
    let mut least = 0;
    for number in numbers {
        let value = usize::from(*number);
        if value < least {
            return false;
        }
        least = value + 1;
    }
    true
}

fn is_each_proc(bricks: &[Brick], numbers: &[u16]) -> bool
    ensures { IsTrue result ↔ All (IsProcNumber bricks.now) numbers.now }
{
    for number in numbers {
        if !is_proc_number(bricks, *number) {
            return false;
        }
    }
    true
}

fn is_proc_number(bricks: &[Brick], number: u16) -> bool
    ensures { IsTrue result ↔ IsProcNumber bricks.now number }
{
    is_proc_at(bricks, usize::from(number))
}
