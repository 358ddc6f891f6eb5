//! The labels of a sequence.

ghost use Rattle.std.specs.Prelude.{◌≡◌, map, OnOk};
ghost use Rattle.rt_check_bodies.specs.Parts.{Gave};
ghost use Rattle.rt_check_bodies.specs.Statements as spec;

use crate::{Tally, add_labels};
use rt_exprs::Level;
use rt_syntax::Stmt;
use rt_words::Memory;

/// The labels of a sequence, each the next one.
pub fn add_all_labels<'a>(
    level: &mut Level<'a>,
    tally: &mut Tally,
    statements: &'a [Stmt],
) -> Result<(), Memory>
    ensures { OnOk result (Gave level.new tally.new (spec.labels_of level.old (map spec.own_labels statements.now) tally.old)) }
{
    for statement in statements {
        add_labels(level, tally, statement.labels.as_slice())?;
    }
    Ok(())
}
