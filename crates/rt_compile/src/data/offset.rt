//! Where a place of data begins in its brick.

ghost use Rattle.std.specs.Prelude.{◌≡◌, IfOk};
ghost use Rattle.rt_modes.specs.declared.mode.Mode.{out-Mode};
ghost use Rattle.rt_tree_nodes.specs.Code as seen;
ghost use Rattle.rt_compile.specs.Data as bytes;

use crate::data::written::small;
use rt_lower::Layouts;
use rt_modes::Mode;
use rt_tree::{Scope, part_mode, shared_mode};
use rt_words::Memory;

/// Where the part of item `j` of brick `b` begins to which a path leads.
pub(crate) fn offset_of(
    layouts: &Layouts,
    scope: &Scope<'_>,
    b: u16,
    j: u16,
    path: &[u16],
) -> Result<u16, Memory>
    ensures { IfOk result (λ n. n ≡ bytes.offset_of layouts.now (seen.scope scope.now) b j path.now) }
{
    let begin = layouts.item(b, j);
    match shared_mode(scope, b, j, &[]) {
        None => Ok(begin),
        Some(mode) => along(layouts, scope, path, begin, mode),
    }
}

/// Where the part begins to which a path leads in a value of a mode that begins at `begin`.
fn along<'a>(
    layouts: &Layouts,
    scope: &Scope<'a>,
    path: &[u16],
    begin: u16,
    mode: &'a Mode,
) -> Result<u16, Memory>
    ensures { IfOk result (λ n. n ≡ bytes.along layouts.now scope.now.records.now path.now begin mode.now) }
{
    let mut at = begin;
    let mut inner = mode;
    for k in path {
        at = part_begins(layouts, *k, at, inner)?;
        match part_mode(scope, *k, inner) {
            None => return Ok(at),
            Some(part) => inner = part,
        }
    }
    Ok(at)
}

/// Where part `k` begins of a value of a mode that begins at `begin`.
fn part_begins(layouts: &Layouts, k: u16, begin: u16, mode: &Mode) -> Result<u16, Memory>
    ensures { IfOk result (λ n. n ≡ bytes.part_begins layouts.now k begin (out-Mode mode.now)) }
{
    match mode {
        Mode::Record(r) => small(usize::from(begin) + usize::from(layouts.field(*r, k))),
        Mode::Array(_, element) => {
            let size = layouts.bytes(element.get())?;
            small(usize::from(begin) + 2 + usize::from(k) * usize::from(size))
        }
        _ => Ok(begin),
    }
}
