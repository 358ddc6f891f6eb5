//! Which starts of data fit.

ghost use Rattle.std.specs.Prelude.{◌≡◌, map, slice_get};
ghost use Rattle.std.specs.Option.{option_copied};
ghost use Rattle.rt_modes.specs.declared.mode.Mode.{out-Mode};
ghost use Rattle.rt_tree_nodes.specs.Code as seen;
ghost use Rattle.rt_tree.specs.Modules as modules;
ghost use Rattle.rt_tree_nodes.specs.Scopes.{face};

use rt_modes::{Field, Mode};
use rt_tree_nodes::{Brick, BrickSort, DataStart, Kind, Scope, same_mode};

/// Whether there is a start for each item of a data brick, and each fits.
pub(crate) fn items_start(scope: &Scope<'_>, starts: &[DataStart], fields: &[Field]) -> bool
    ensures { result ≡ modules.items_start (seen.scope scope.now) starts.now fields.now }
{
    fields_start(scope, starts, fields)
}

/// Whether a start fits an item of a mode.
#[cycle(starts)]
fn starts(scope: &Scope<'_>, start: &DataStart, mode: &Mode) -> bool
    ensures { result ≡ modules.starts (seen.scope scope.now) start.now mode.now }
{
    match start {
        DataStart::Number(n) => number_starts(*n, mode),
        DataStart::Text(s) => text_starts(scope, *s, mode),
        DataStart::Proc(b) => match scope.proc_mode(*b) {
            None => false,
            Some(found) => same_mode(mode, found),
        },
        DataStart::Place(b, j, path) => match shared_mode(scope, *b, *j, path.as_slice()) {
            None => false,
            Some(found) => place_starts(found, mode),
        },
        DataStart::List(parts) => match mode {
            Mode::Array(n, element) => {
                parts.len() == usize::from(*n) && all_start(scope, parts.as_slice(), element.get())
            }
            Mode::Record(r) => record_starts(scope, parts.as_slice(), *r),
            _ => false,
        },
    }
}

#[cycle(starts)]
fn all_start(scope: &Scope<'_>, parts: &[DataStart], mode: &Mode) -> bool
    ensures { result ≡ modules.all_start (map (modules.starts (seen.scope scope.now)) parts.now) mode.now }
{
    for part in parts {
        if !starts(scope, part, mode) {
            return false;
        }
    }
    true
}

#[cycle(starts)]
fn record_starts(scope: &Scope<'_>, parts: &[DataStart], r: u16) -> bool
    ensures { result ≡ modules.record_starts (map (modules.starts (seen.scope scope.now)) parts.now) (slice_get scope.now.records.now r) }
{
    match scope.record(r) {
        None => false,
        Some(record) => fields_start(scope, parts, record.fields.as_slice()),
    }
}

#[cycle(starts)]
fn fields_start(scope: &Scope<'_>, parts: &[DataStart], fields: &[Field]) -> bool
    ensures { result ≡ modules.fields_start (map (modules.starts (seen.scope scope.now)) parts.now) fields.now }
{
    let mut left = fields;
    for part in parts {
        match left {
            [field, rest @ ..] => {
                if !starts(scope, part, &field.mode) {
                    return false;
                }
                left = rest;
            }
            [] => return false,
        }
    }
    left.is_empty()
}

fn number_starts(n: u16, mode: &Mode) -> bool
    ensures { result ≡ modules.number_starts n (out-Mode mode.now) }
{
    match mode {
        Mode::Byte => n <= 255,
        Mode::Int | Mode::Frac => true,
        _ => false,
    }
}

fn text_starts(scope: &Scope<'_>, s: u16, mode: &Mode) -> bool
    ensures { result ≡ modules.text_starts (seen.scope scope.now) s (out-Mode mode.now) }
{
    match mode {
        Mode::RefArray(element) => {
            matches!(element.get(), Mode::Byte) && usize::from(s) < scope.strings
        }
        _ => false,
    }
}

fn place_starts(found: &Mode, mode: &Mode) -> bool
    ensures { result ≡ modules.place_starts found.now (out-Mode mode.now) }
{
    match mode {
        Mode::Ref(wanted) => same_mode(wanted.get(), found),
        Mode::RefArray(wanted) => match found {
            Mode::Array(_, element) => same_mode(wanted.get(), element.get()),
            _ => false,
        },
        _ => false,
    }
}

/// The mode of a place of data that all tasks share.
pub fn shared_mode<'a>(scope: &Scope<'a>, b: u16, j: u16, path: &[u16]) -> Option<&'a Mode>
    ensures { option_copied result ≡ modules.shared_mode (seen.scope scope.now) b j path.now }
{
    let brick = scope.bricks.get(usize::from(b))?;
    let item = shared_of(brick)?.get(usize::from(j))?;
    mode_along(scope, path, &item.mode)
}

/// The fields of a data brick that all tasks share.
fn shared_of(brick: &Brick) -> Option<&[Field]>
    ensures { option_copied result ≡ modules.shared_of (face brick.now) }
{
    if matches!(brick.kind, Kind::Svc) {
        return None;
    }
    match &brick.sort {
        BrickSort::Data(fields, _) => Some(fields.as_slice()),
        _ => None,
    }
}

/// The mode of what a path of fields and elements leads to.
fn mode_along<'a>(scope: &Scope<'a>, path: &[u16], mode: &'a Mode) -> Option<&'a Mode>
    ensures { option_copied result ≡ modules.mode_along scope.now.records.now path.now mode.now }
{
    let mut inner = mode;
    for k in path {
        inner = part_mode(scope, *k, inner)?;
    }
    Some(inner)
}

/// The mode of field `k` of a record, or of element `k` of an array, from 0.
pub fn part_mode<'a>(scope: &Scope<'a>, k: u16, mode: &'a Mode) -> Option<&'a Mode>
    ensures { option_copied result ≡ modules.part_mode scope.now.records.now k (out-Mode mode.now) }
{
    match mode {
        Mode::Record(r) => scope.field_mode(*r, k),
        Mode::Array(n, element) => { if k < *n { Some(element.get()) } else { None } }
        _ => None,
    }
}
