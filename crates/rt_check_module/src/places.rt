//! What a name in a start names, and where its selectors lead.

ghost use Rattle.std.specs.Prelude.{◌≡◌, Some, IfOk};
ghost use Rattle.std.specs.Option.{option_copied};
ghost use Rattle.rt_modes.specs.declared.mode.Mode.{out-Mode};
ghost use Rattle.rt_exprs.specs.Names.{find};
ghost use Rattle.rt_check_module.specs.Places as spec;
ghost use Rattle.rt_check_module.specs.Places.{step_of, reached_of, found_of};
ghost use Rattle.rt_tree.specs.Modules as tree;
ghost use Rattle.rt_check_declared.specs.Verdicts.{with_faults};

use rt_bricks::Selector;
use rt_check_declared::note;
use rt_check_faults::CheckFault;
use rt_exprs::{IndexedRecords, Meaning, Scope, field_named, find as find_name, small_number};
use rt_grammar::{At, Ident};
use rt_modes::Mode;
use rt_tree_nodes::{DataStart, same_mode};
use rt_words::{List, Memory};
use std::alloc::Global;

/// Where a selector leads from a place of a mode.
#[derive(Clone, Copy)]
enum Step<'a> {
    /// To a field or an element, by its number from 0, and its mode.
    Leads(usize, &'a Mode),
    /// To a field that the record hasn't.
    Lost(CheckFault),
    /// To a field whose mode can't be known.
    Hidden,
    Nowhere,
}

/// Where selectors lead.
#[derive(Clone, Copy)]
enum Reached<'a> {
    Place(&'a Mode),
    Unknown(CheckFault),
    Hidden,
    NoPlace,
}

/// What a name with selectors is in a start.
#[derive(Clone, Copy)]
pub enum Found<'a> {
    /// A name that is unknown, or that may not be used, by the fault that stands there.
    Unfit(CheckFault),
    /// What can't be known: it may start any item.
    Hidden,
    /// A procedure brick, by its number, and its mode.
    Procedure(u16, &'a Mode),
    /// A place of an item that all tasks share: the numbers of brick and item, the item's mode and the place's.
    Shared(u16, u16, &'a Mode, &'a Mode),
    /// A place of SVC data.
    Private(&'a Mode),
    Other,
}

/// Where a selector leads.
fn selected<'a>(modes: &'a IndexedRecords, selector: &Selector, mode: &'a Mode) -> Step<'a>
    ensures { step_of result ≡ spec.step modes.now.records selector.now mode.now }
{
    match selector {
        Selector::Dot(name, _) => field(modes, name, mode),
        Selector::Subscript(subscript) => element(subscript.number, mode),
    }
}

fn field<'a>(modes: &'a IndexedRecords, name: &Ident, mode: &'a Mode) -> Step<'a>
    ensures { step_of result ≡ spec.field modes.now.records name.now (out-Mode mode.now) }
{
    match mode {
        Mode::Record(number) => match field_named(modes, *number, name.name.as_slice()) {
            Some((_, Mode::Label)) => Step::Hidden,
            Some((at, inner)) => Step::Leads(at, inner),
            None => Step::Lost(CheckFault::UnknownName(name.at)),
        },
        _ => Step::Nowhere,
    }
}

/// An element; they count from 1.
fn element<'a>(number: u16, mode: &'a Mode) -> Step<'a>
    ensures { step_of result ≡ spec.element number (out-Mode mode.now) }
{
    match mode {
        Mode::Array(length, of) if 1 <= number && number <= *length => {
            Step::Leads(usize::from(number - 1), of.get())
        }
        _ => Step::Nowhere,
    }
}

/// Where selectors lead.
fn along<'a>(modes: &'a IndexedRecords, selectors: &[Selector], mode: &'a Mode) -> Reached<'a>
    ensures { reached_of result ≡ spec.along modes.now.records selectors.now mode.now }
{
    let mut inner = mode;
    for selector in selectors {
        match selected(modes, selector, inner) {
            Step::Leads(_, next) => inner = next,
            Step::Lost(fault) => return Reached::Unknown(fault),
            Step::Hidden => return Reached::Hidden,
            Step::Nowhere => return Reached::NoPlace,
        }
    }
    Reached::Place(inner)
}

/// The numbers of the fields and elements on the way.
fn path(
    alloc: Global,
    modes: &IndexedRecords,
    selectors: &[Selector],
    mode: &Mode,
) -> Result<List<u16>, Memory>
    ensures { IfOk result (λ ks. ks ≡ spec.path modes.now.records selectors.now mode.now) }
{
    let mut numbers = List::new(alloc, selectors.len())?;
    let mut inner = mode;
    for selector in selectors {
        match selected(modes, selector, inner) {
            Step::Leads(number, next) => {
                numbers.push(small_number(number)?)?;
                inner = next;
            }
            _ => return Ok(numbers),
        }
    }
    Ok(numbers)
}

/// What a name with selectors is.
pub fn find_place<'a>(scope: &Scope<'a>, name: &Ident, selectors: &[Selector]) -> Found<'a>
    ensures { found_of result ≡ spec.found scope.now.records name.now.at selectors.now (find scope.now name.now.name) }
{
    match find_name(scope, name.name.as_slice()) {
        None => Found::Unfit(CheckFault::UnknownName(name.at)),
        Some(meaning) => place_of(scope.modes(), name.at, selectors, meaning),
    }
}

fn place_of<'a>(
    modes: &'a IndexedRecords,
    at: At,
    selectors: &[Selector],
    meaning: &'a Meaning,
) -> Found<'a>
    ensures { found_of result ≡ spec.found modes.now.records at selectors.now (Some meaning.now) }
{
    match meaning {
        Meaning::Unknown => Found::Hidden,
        Meaning::UnknownProc => {
            if selectors.is_empty() {
                Found::Hidden
            } else {
                Found::Other
            }
        }
        Meaning::Proc(brick, mode) => {
            if selectors.is_empty() {
                Found::Procedure(*brick, mode)
            } else {
                Found::Other
            }
        }
        Meaning::Item(brick, item, mode) => match along(modes, selectors, mode) {
            Reached::Place(inner) => Found::Shared(*brick, *item, mode, inner),
            Reached::Unknown(fault) => Found::Unfit(fault),
            Reached::Hidden => Found::Hidden,
            Reached::NoPlace => Found::Other,
        },
        Meaning::SvcItem(_, _, mode) => private(along(modes, selectors, mode)),
        Meaning::Svc(item, mode) => {
            if *item == 0 {
                return Found::Unfit(CheckFault::LeftOut { form: 2, at });
            }
            private(along(modes, selectors, mode))
        }
        _ => Found::Other,
    }
}

/// A place of SVC data.
fn private<'a>(reached: Reached<'a>) -> Found<'a>
    ensures { found_of result ≡ spec.private_by (reached_of reached.entry) }
{
    match reached {
        Reached::Place(mode) => Found::Private(mode),
        Reached::Unknown(fault) => Found::Unfit(fault),
        Reached::Hidden => Found::Hidden,
        Reached::NoPlace => Found::Other,
    }
}

/// Whether REF to a place of this mode, or REF ARRAY to an array, is wanted.
fn is_referred(place: &Mode, wanted: &Mode) -> bool
    ensures { result ≡ tree.place_starts place.now (out-Mode wanted.now) }
{
    match wanted {
        Mode::Ref(to) => same_mode(to.get(), place),
        Mode::RefArray(of) => match place {
            Mode::Array(_, element) => same_mode(of.get(), element.get()),
            _ => false,
        },
        _ => false,
    }
}

/// Whether it starts an item of a mode.
pub fn place_fits(found: Found<'_>, wanted: &Mode) -> bool
    ensures { result ≡ spec.place_fits (found_of found.entry) wanted.now }
{
    match found {
        Found::Procedure(_, mode) => same_mode(wanted, mode),
        Found::Shared(_, _, _, place) => is_referred(place, wanted),
        Found::Hidden => true,
        _ => false,
    }
}

/// Notes a name in a start that is unknown, or that may not be used.
#[tactic(auto, unfolding(rt_check_declared::specs::Verdicts::with_faults))]
pub fn note_unfit(found: Found<'_>, faults: &mut Option<CheckFault>)
    ensures { faults.new ≡ with_faults faults.old (spec.unfit_faults (found_of found.entry)) }
{
    match found {
        Found::Unfit(fault) => note(faults, fault),
        _ => {}
    }
}

/// Notes a place of a task's own data whose reference would be taken where this mode is wanted.
#[tactic(auto, unfolding(rt_check_declared::specs::Verdicts::with_faults))]
pub fn note_private(at: At, found: Found<'_>, wanted: &Mode, faults: &mut Option<CheckFault>)
    ensures { faults.new ≡ with_faults faults.old (spec.private_faults at (found_of found.entry) wanted.now) }
{
    match found {
        Found::Private(place) => {
            if is_referred(place, wanted) {
                note(faults, CheckFault::RefOfLocal(at));
            }
        }
        _ => {}
    }
}

/// What it is where it starts an item.
pub fn make_place(
    alloc: Global,
    modes: &IndexedRecords,
    selectors: &[Selector],
    found: Found<'_>,
) -> Result<DataStart, Memory>
    ensures { IfOk result (λ s. s ≡ spec.place_made modes.now.records selectors.now (found_of found.entry)) }
{
    match found {
        Found::Procedure(brick, _) => Ok(DataStart::Proc(brick)),
        Found::Shared(brick, item, from, _) => {
            let numbers = path(alloc, modes, selectors, from)?;
            Ok(DataStart::Place(brick, item, numbers))
        }
        _ => Ok(DataStart::Number(0)),
    }
}
