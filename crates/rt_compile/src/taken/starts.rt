//! The names that stand in the starts of data.

ghost use Rattle.std.specs.Prelude.{◌≡◌, map, OnOk, Some};
ghost use Rattle.rt_compile.specs.Marks.{all_marked};
ghost use Rattle.rt_modes.specs.FullMode.{joined};
ghost use Rattle.rt_tree.specs.Taken.{in_start};

use crate::taken::values::mark;
use rt_tree::DataStart;
use rt_words::Memory;

/// Marks the names that stand in starts. It recurses as deep as records and arrays are nested.
#[cycle(starts)]
pub fn starts(marks: &mut [bool], all: &[DataStart]) -> Result<(), Memory>
    ensures { OnOk result (all_marked (joined (map in_start all.now)) marks.old ≡ Some marks.new) }
{
    for one in all {
        start(marks, one)?;
    }
    Ok(())
}

#[cycle(starts)]
fn start(marks: &mut [bool], one: &DataStart) -> Result<(), Memory>
    ensures { OnOk result (all_marked (in_start one.now) marks.old ≡ Some marks.new) }
{
    match one {
        DataStart::Number(_) | DataStart::Text(_) | DataStart::Place(_, _, _) => Ok(()),
        DataStart::Proc(number) => mark(marks, *number),
        DataStart::List(parts) => starts(marks, parts.as_slice()),
    }
}
