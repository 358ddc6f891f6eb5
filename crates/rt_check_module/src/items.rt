//! The starts of a data brick, item by item.

ghost use Rattle.std.specs.Prelude.{◌≡◌, true, [], ◌∷◌, ◌++◌, None, drop, length, IfOk, IfErr, OnOk, MatchOption};
ghost use Rattle.rt_check_faults.specs.declared.fault.CheckFault.{CheckFault};
ghost use Rattle.rt_check_faults.specs.Outcomes.{UnlessMemory, IsLeast};
ghost use Rattle.rt_sizes.specs.Capped.{AreSizes};
ghost use Rattle.rt_sizes.specs.Sizes.{Table};
ghost use Rattle.rt_check_module.specs.Bricks.{BrickFault, AreStarts};
ghost use Rattle.rt_check_module.specs.Defaults.{AreDefaults};
ghost use Rattle.rt_check_module.specs.Items as spec;
ghost use Rattle.rt_check_module.specs.Starts.{written_in};
ghost use Rattle.rt_check_declared.specs.Verdicts.{with_faults};

use crate::defaults::{has_default, records_with_default};
use crate::judge::{judge, note_unknown};
use crate::make::make_start;
use crate::parts::copies;
use crate::unwritten::make_default;
use rt_bricks::{DataItem, DataLine, Start};
use rt_check_declared::{Given, Part, large_item, note};
use rt_check_faults::CheckFault;
use rt_exprs::Scope;
use rt_grammar::At;
use rt_modes::Mode;
use rt_sizes::Size;
use rt_tree_nodes::DataStart;
use rt_words::{List, Memory};
use std::alloc::Global;

/// Notes a wrong or missing start at an item's name.
#[tactic(auto, unfolding(rt_check_declared::specs::Verdicts::with_faults))]
fn note_bad(fits: bool, at: At, faults: &mut Option<CheckFault>)
    ensures { faults.new ≡ with_faults faults.old (spec.bad_unless fits at) }
{
    if !fits {
        note(faults, CheckFault::BadStart(at));
    }
}

/// Notes what is wrong with what is written for an item at this name: names that are unknown, else what is found of the mode.
fn judge_start(
    scope: &Scope<'_>,
    at: At,
    start: &Start,
    mode: &Mode,
    faults: &mut Option<CheckFault>,
)
    ensures { faults.new ≡ with_faults faults.old (spec.written_faults at (written_in scope.now start.now) mode.now) }
{
    let mut unknown = None;
    note_unknown(scope, start, &mut unknown);
    match unknown {
        Some(fault) => note(faults, fault),
        None => judge_known(scope, at, start, mode, faults),
    }
}

/// The same where all names are known: places of a task's own data, else that it doesn't start the item.
fn judge_known(
    scope: &Scope<'_>,
    at: At,
    start: &Start,
    mode: &Mode,
    faults: &mut Option<CheckFault>,
)
    ensures { faults.new ≡ with_faults faults.old (spec.known_faults at (written_in scope.now start.now) mode.now) }
{
    let mut private = None;
    let mut fits = judge(scope, start, mode, &mut private);
    fits &= copies(start) == 1;
    match private {
        Some(fault) => note(faults, fault),
        None => note_bad(fits, at, faults),
    }
}

/// Notes what is wrong with an item, where `defaults` says which records have a start though nothing is written.
#[tactic(auto, unfolding(rt_check_declared::specs::Verdicts::with_faults))]
fn judge_item(
    scope: &Scope<'_>,
    defaults: &[bool],
    item: &DataItem,
    given: &Given,
    faults: &mut Option<CheckFault>,
)
    requires { AreDefaults scope.now.records defaults.now }
    ensures { faults.new ≡ with_faults faults.old (spec.faults_by scope.now item.now.name.at item.now.start given.now) }
{
    match given {
        Given::Mode(mode) => match &item.start {
            None => note_bad(has_default(defaults, mode), item.name.at, faults),
            Some(start) => judge_start(scope, item.name.at, start, mode, faults),
        },
        Given::Unknown => match &item.start {
            None => {}
            Some(start) => note_unknown(scope, start, faults),
        },
    }
}

#[tactic(auto, unfolding(rt_check_declared::specs::Verdicts::with_faults))]
fn judge_items(
    scope: &Scope<'_>,
    defaults: &[bool],
    items: &[DataItem],
    parts: &[Part],
    faults: &mut Option<CheckFault>,
)
    requires { AreDefaults scope.now.records defaults.now }
    ensures { faults.new ≡ with_faults faults.old (spec.items_faults scope.now items.now parts.now) }
{
    let mut left = parts;
    for item in items {
        match first(left) {
            Some((part, rest)) => {
                judge_item(scope, defaults, item, &part.has, faults);
                left = rest;
            }
            None => return,
        }
    }
}

/// The first of some parts, and those behind it.
pub fn first<'a>(parts: &'a [Part]) -> Option<(&'a Part, &'a [Part])>
    ensures { MatchOption result (parts.now ≡ []) (λ x. parts.now ≡ x.0.now ∷ x.1.now) }
{
    match parts {
        [part, rest @ ..] => Some((part, rest)),
        [] => None,
    }
}

/// What is declared behind the items of a line.
pub fn behind<'a>(parts: &'a [Part], items: &[DataItem]) -> &'a [Part]
    ensures { result.now ≡ drop (length items.now) parts.now }
{
    if items.len() < parts.len() {
        &parts[items.len()..]
    } else {
        &parts[parts.len()..]
    }
}

/// The fault that counts of those that stand in the items of a data brick; `parts` has what each item is declared with.
pub fn judge_starts(
    alloc: Global,
    scope: &Scope<'_>,
    lines: &[DataLine],
    parts: &[Part],
) -> Result<Option<CheckFault>, Memory>
    ensures { IfOk result (λ f. f ≡ with_faults None (spec.brick_faults scope.now lines.now parts.now)) }
{
    let defaults = records_with_default(alloc, scope.table())?;
    Ok(judge_lines(scope, defaults.as_slice(), lines, parts))
}

#[tactic(auto, unfolding(rt_check_declared::specs::Verdicts::with_faults))]
fn judge_lines(
    scope: &Scope<'_>,
    defaults: &[bool],
    lines: &[DataLine],
    parts: &[Part],
) -> Option<CheckFault>
    requires { AreDefaults scope.now.records defaults.now }
    ensures { result ≡ with_faults None (spec.brick_faults scope.now lines.now parts.now) }
{
    let mut faults = None;
    let mut left = parts;
    for line in lines {
        let items = line.items.as_slice();
        judge_items(scope, defaults, items, left, &mut faults);
        left = behind(left, items);
    }
    faults
}

fn make_item(
    alloc: Global,
    scope: &Scope<'_>,
    start: &Option<Start>,
    given: &Given,
) -> Result<DataStart, Memory>
    ensures { IfOk result (λ s. s ≡ spec.start_by scope.now start.now given.now) }
{
    match given {
        Given::Mode(mode) => match start {
            None => make_default(alloc, scope.table(), mode),
            Some(start) => make_start(alloc, scope, start, mode),
        },
        Given::Unknown => Ok(DataStart::Number(0)),
    }
}

fn make_items(
    alloc: Global,
    scope: &Scope<'_>,
    items: &[DataItem],
    parts: &[Part],
    made: &mut List<DataStart>,
) -> Result<(), Memory>
    ensures { OnOk result (made.new ≡ made.old ++ spec.items_starts scope.now items.now parts.now) }
{
    let mut left = parts;
    for item in items {
        match first(left) {
            Some((part, rest)) => {
                made.push(make_item(alloc, scope, &item.start, &part.has)?)?;
                left = rest;
            }
            None => return Ok(()),
        }
    }
    Ok(())
}

/// The starts of a data brick in which no fault stands.
fn make_starts(
    alloc: Global,
    scope: &Scope<'_>,
    lines: &[DataLine],
    parts: &[Part],
) -> Result<List<DataStart>, Memory>
    ensures { IfOk result (λ ss. ss ≡ spec.brick_starts scope.now lines.now parts.now) }
{
    let mut made = List::new(alloc, parts.len())?;
    let mut left = parts;
    for line in lines {
        let items = line.items.as_slice();
        make_items(alloc, scope, items, left, &mut made)?;
        left = behind(left, items);
    }
    Ok(made)
}

/// The same where they are to be made; else none are.
fn starts_of(
    alloc: Global,
    scope: &Scope<'_>,
    lines: &[DataLine],
    parts: &[Part],
    is_fit: bool,
) -> Result<List<DataStart>, Memory>
    ensures { is_fit ≡ true → IfOk result (λ ss. ss ≡ spec.brick_starts scope.now lines.now parts.now) }
{
    if is_fit {
        make_starts(alloc, scope, lines, parts)
    } else {
        List::new(alloc, 0)
    }
}

/// The starts of a data brick: `parts` has what each item is declared with, in the order of `lines`, and `sizes` the sizes of
/// the module's records. `is_fit` says that no fault stands outside of what bricks hold. Where one does, a record may contain
/// itself, or be too large: the brick is judged, and no start is made. Else all starts are known to fit and the brick is
/// known to be within 57,344 bytes before one is made, so that no more are made than that many elements.
///
/// # Errors
///
/// The fault that counts of those that stand in the items, else that of the brick as a whole; or want of memory.
pub fn read_starts(
    alloc: Global,
    scope: &Scope<'_>,
    lines: &[DataLine],
    parts: &[Part],
    sizes: &[Option<Size>],
    is_fit: bool,
) -> Result<List<DataStart>, CheckFault>
    // What is answered are the starts, and no fault stands.
    ensures starts { (t : Table) → AreSizes t sizes.now → is_fit ≡ true → IfOk result (AreStarts t scope.now lines.now parts.now) }
    // Nor does one stand where no starts are made.
    ensures fit { (t : Table) → AreSizes t sizes.now → IfOk result (λ _. (g : CheckFault) → BrickFault t scope.now lines.now parts.now g → ⊥) }
    // A fault stands, and counts of all that stand.
    ensures fault { (t : Table) → AreSizes t sizes.now → IfErr result (λ g. UnlessMemory g (IsLeast (BrickFault t scope.now lines.now parts.now) g)) }
{
    match judge_starts(alloc, scope, lines, parts)? {
        Some(fault) => Err(fault),
        None => match large_item(alloc, parts, sizes)? {
            Some(fault) => Err(fault),
            None => {
                let made = starts_of(alloc, scope, lines, parts, is_fit)?;
                Ok(made)
            }
        },
    }
}
