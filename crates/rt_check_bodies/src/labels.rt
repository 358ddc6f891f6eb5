//! Names that are declared, labels and their numbers.

ghost use Rattle.std.specs.Prelude.{◌≡◌, [], IfOk, OnOk};
ghost use Rattle.rt_exprs.specs.Sights.{declared};
ghost use Rattle.rt_check_bodies.specs.Parts as spec;
ghost use Rattle.rt_check_bodies.specs.Parts.{Gave};

use crate::names::Names;
use crate::tally::{Tally, behind};
use rt_check_faults::CheckFault;
use rt_exprs::{Level, Meaning};
use rt_grammar::Ident;
use rt_words::{List, Memory};
use std::alloc::Global;

/// One name more in a level; of two the first counts, and the second has a fault.
pub fn declare_name<'a>(
    level: &mut Level<'a>,
    tally: &mut Tally,
    name: &'a Ident,
    meaning: Meaning,
) -> Result<(), Memory>
    ensures level { OnOk result (level.new ≡ declared name.now.name meaning level.old) }
    ensures noted { OnOk result (tally.new ≡ spec.noted_twice level.old name.now tally.old) }
{
    let held = level.declare(name.name.as_slice(), meaning)?;
    tally.note_if(held, CheckFault::DeclaredTwice(name.at))
}

/// The labels of a statement, each the next one.
pub fn add_labels<'a>(
    level: &mut Level<'a>,
    tally: &mut Tally,
    labels: &'a [Ident],
) -> Result<(), Memory>
    ensures { OnOk result (Gave level.new tally.new (spec.labels_more level.old labels.now tally.old)) }
{
    for label in labels {
        let number = tally.labels;
        declare_name(level, tally, label, Meaning::Label(number))?;
        tally.add_label()?;
    }
    Ok(())
}

/// The numbers of some labels, of which the first has the number `first`; and the number behind them.
pub fn numbers_from(alloc: Global, first: u16, labels: &[Ident]) -> Result<(List<u16>, u16), Memory>
    ensures { IfOk result (λ x. (x.0, x.1) ≡ spec.numbers_from [] first labels.now) }
{
    let mut numbers = List::new(alloc, labels.len())?;
    let mut next = first;
    for _label in labels {
        numbers.push(next)?;
        next = behind(next)?;
    }
    Ok((numbers, next))
}

/// The labels that a SWITCH names.
pub fn labels_in(
    alloc: Global,
    names: &Names<'_>,
    tally: &mut Tally,
    labels: &[Ident],
) -> Result<List<u16>, Memory>
    ensures { IfOk result (λ ls. Gave ls tally.new (spec.labels_in names.now [] labels.now tally.old)) }
{
    let mut numbers = List::new(alloc, labels.len())?;
    for label in labels {
        let number = tally.label_or(names.label(label))?;
        numbers.push(number)?;
    }
    Ok(numbers)
}
