//! The locals of a body.

ghost use Rattle.std.specs.Prelude.{◌≡◌, ◌++◌, Option, IfOk, OnOk};
ghost use Rattle.rt_modes.specs.declared.mode.Mode.{Mode, out-Mode};
ghost use Rattle.rt_tree_nodes.specs.declared.statement.LocalStart.{LocalStart};
ghost use Rattle.rt_tree.specs.Statements.{starts_at_zero};
ghost use Rattle.rt_check_faults.specs.Outcomes.{Outcome};
ghost use Rattle.rt_tree_nodes.specs.declared.brick.Local.TheVariants as made;
ghost use Rattle.rt_exprs.specs.declared.scope.Meaning.TheVariants as meaning;
ghost use Rattle.rt_check_bodies.specs.Parts.{Gave, next_local, with_local};
ghost use Rattle.rt_exprs.specs.Sights.{outside};
ghost use Rattle.rt_check_bodies.specs.Statements as spec;

use crate::pairs::both;
use crate::{Names, Tally};
use rt_check_faults::CheckFault;
use rt_exprs::Meaning;
use rt_grammar::Ident;
use rt_modes::Mode;
use rt_syntax::{Local, Locals};
use rt_syntax_exprs::Expr;
use rt_tree_nodes::{Local as Made, LocalStart, Value, copy_mode};
use rt_words::{List, Memory};
use std::alloc::Global;

/// The declarations of a body, each seen behind it; the locals with their starts.
pub fn declarations<'a>(
    alloc: Global,
    names: &mut Names<'a>,
    tally: &mut Tally,
    declared: &'a [Locals],
) -> Result<List<LocalStart>, Memory>
    ensures made { IfOk result (λ starts. spec.Behind names.new starts tally.new (spec.declarations (spec.before names.old) declared.now tally.old)) }
    ensures kept { OnOk result (outside names.new ≡ outside names.old) }
{
    let mut starts = List::new(alloc, declared.len())?;
    for line in declared {
        add_line(alloc, names, tally, &mut starts, line)?;
    }
    Ok(starts)
}

/// The locals of one declaration.
fn add_line<'a>(
    alloc: Global,
    names: &mut Names<'a>,
    tally: &mut Tally,
    starts: &mut List<LocalStart>,
    line: &'a Locals,
) -> Result<(), Memory>
    ensures made { OnOk result (spec.Behind names.new starts.new tally.new (spec.line_more (spec.declared_by names.old starts.old) line.now tally.old)) }
    ensures kept { OnOk result (outside names.new ≡ outside names.old) }
{
    let mode = tally.mode_or(names.mode(alloc, line.at, &line.mode))?;
    add_locals(alloc, names, tally, starts, &mode, line.names.as_slice())
}

/// The locals that are declared with a mode.
fn add_locals<'a>(
    alloc: Global,
    names: &mut Names<'a>,
    tally: &mut Tally,
    starts: &mut List<LocalStart>,
    mode: &Result<Mode, CheckFault>,
    locals: &'a [Local],
) -> Result<(), Memory>
    ensures made { OnOk result (spec.Behind names.new starts.new tally.new (spec.locals_more mode.now (spec.declared_by names.old starts.old) locals.now tally.old)) }
    ensures kept { OnOk result (outside names.new ≡ outside names.old) }
{
    for local in locals {
        add_judged(alloc, names, tally, starts, mode, local)?;
    }
    Ok(())
}

/// A local; where its mode can't be known its start is judged by itself.
fn add_judged<'a>(
    alloc: Global,
    names: &mut Names<'a>,
    tally: &mut Tally,
    starts: &mut List<LocalStart>,
    mode: &Result<Mode, CheckFault>,
    local: &'a Local,
) -> Result<(), Memory>
    ensures made { OnOk result (spec.Behind names.new starts.new tally.new (spec.local_more mode.now (spec.declared_by names.old starts.old) local.now tally.old)) }
    ensures kept { OnOk result (outside names.new ≡ outside names.old) }
{
    match mode {
        Ok(mode) => add_local(alloc, names, tally, starts, mode, local),
        Err(_) => {
            alone(alloc, names, tally, &local.start)?;
            declare(alloc, names, tally, &local.name, Meaning::Unknown)
        }
    }
}

/// A start of which no mode is known to be wanted.
fn alone(
    alloc: Global,
    names: &Names<'_>,
    tally: &mut Tally,
    start: &Option<Expr>,
) -> Result<(), Memory>
    ensures { OnOk result (tally.new ≡ spec.start_alone names.now start.now tally.old) }
{
    match start {
        None => Ok(()),
        Some(start) => tally.note_known(names.alone(alloc, start)),
    }
}

/// A local of a mode.
fn add_local<'a>(
    alloc: Global,
    names: &mut Names<'a>,
    tally: &mut Tally,
    starts: &mut List<LocalStart>,
    mode: &Mode,
    local: &'a Local,
) -> Result<(), Memory>
    ensures made { OnOk result (spec.Behind names.new starts.new tally.new (spec.local_fit mode.now (spec.declared_by names.old starts.old) local.now tally.old)) }
    ensures kept { OnOk result (outside names.new ≡ outside names.old) }
{
    let start = start(alloc, names, tally, &local.name, mode, &local.start)?;
    let number = add_variable(alloc, names, tally, mode, &local.name);
    let (start, local) = both(start, number)?;
    starts.push(LocalStart { local, start })
}

/// The next local, which has a name and a mode: its number.
fn add_variable<'a>(
    alloc: Global,
    names: &mut Names<'a>,
    tally: &mut Tally,
    mode: &Mode,
    name: &'a Ident,
) -> Result<u16, Memory>
    ensures number { IfOk result (λ k. k ≡ next_local tally.old) }
    ensures seen { IfOk result (λ k. names.new ≡ spec.with_ident name.now (meaning.Local k mode.now) names.old) }
    ensures noted { OnOk result (tally.new ≡ with_local (made.Variable mode.now) (spec.noted_in names.old name.now tally.old)) }
    ensures kept { OnOk result (outside names.new ≡ outside names.old) }
{
    let number = tally.next_local()?;
    let meaning = Meaning::Local(number, copy_mode(alloc, mode)?);
    declare(alloc, names, tally, name, meaning)?;
    tally.add_local(Made::Variable(copy_mode(alloc, mode)?))?;
    Ok(number)
}

/// A start, of which the local's mode is wanted.
fn start(
    alloc: Global,
    names: &Names<'_>,
    tally: &mut Tally,
    name: &Ident,
    mode: &Mode,
    start: &Option<Expr>,
) -> Result<Option<Value>, Memory>
    ensures { IfOk result (λ x. Gave x tally.new (spec.start_in names.now name.now mode.now start.now tally.old)) }
{
    match start {
        None => {
            tally.note_if(!starts_at_zero(mode), CheckFault::BadStart(name.at))?;
            Ok(None)
        }
        Some(start) => {
            let value = tally.value_or(names.value(alloc, start, mode))?;
            Ok(Some(value))
        }
    }
}

/// Whether a local of this mode is 0 where it has no start.
fn starts_at_zero(mode: &Mode) -> bool
    ensures { result ≡ starts_at_zero (out-Mode mode.now) }
{
    matches!(mode, Mode::Byte | Mode::Int | Mode::Frac)
}

/// One name more in the innermost level.
fn declare<'a>(
    alloc: Global,
    names: &mut Names<'a>,
    tally: &mut Tally,
    name: &'a Ident,
    meaning: Meaning,
) -> Result<(), Memory>
    ensures made { OnOk result (names.new ≡ spec.with_ident name.now meaning names.old) }
    ensures noted { OnOk result (tally.new ≡ spec.noted_in names.old name.now tally.old) }
    ensures kept { OnOk result (outside names.new ≡ outside names.old) }
{
    let held = names.declare(alloc, name.name.as_slice(), meaning)?;
    tally.note_if(held, CheckFault::DeclaredTwice(name.at))
}
