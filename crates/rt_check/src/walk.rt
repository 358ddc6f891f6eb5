//! From declaration to declaration, with the bricks from its first one on.

ghost use Rattle.std.specs.Prelude.{◌≡◌, drop};
ghost use Rattle.std.specs.Option.{option_copied};
ghost use Rattle.rt_check_declared.specs.Names as known;
ghost use Rattle.rt_check_module.specs.Tree as spec;

use rt_bricks::Declaration;
use rt_check_declared::{Heading, Part, Sort};

pub fn first(bricks: &[Heading]) -> Option<&Heading>
    ensures { option_copied result ≡ spec.first bricks.now }
{
    match bricks {
        [brick, ..] => Some(brick),
        [] => None,
    }
}

/// How many bricks a declaration declares.
pub fn bricks_in(declaration: &Declaration) -> usize
    ensures { result ≡ known.bricks_in declaration.now }
{
    match declaration {
        Declaration::Record(_) => 0,
        Declaration::ImportedProcedures(procedures) => procedures.names.len(),
        Declaration::ImportedStacks(stacks) => stacks.names.len(),
        _ => 1,
    }
}

/// The bricks behind those of a declaration.
pub fn behind<'a>(bricks: &'a [Heading], declaration: &Declaration) -> &'a [Heading]
    ensures { result.now ≡ drop (known.bricks_in declaration.now) bricks.now }
{
    let count = bricks_in(declaration);
    if count < bricks.len() {
        &bricks[count..]
    } else {
        &bricks[bricks.len()..]
    }
}

/// The items of a brick that is data.
pub fn items_in(brick: Option<&Heading>) -> &[Part]
    ensures { result.now ≡ spec.items_in (option_copied brick.entry) }
{
    match brick {
        Some(heading) => match &heading.sort {
            Sort::Items(parts) => parts.as_slice(),
            _ => &[],
        },
        None => &[],
    }
}
