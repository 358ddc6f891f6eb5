//! Where modes may stand.

ghost use Rattle.std.specs.Prelude.{◌≡◌, map, option_map};
ghost use Rattle.rt_tree.specs.Modules.{stands, all_passed, result_passed, is_length, stands_alone, stands_passed};

use rt_modes::Mode;
use rt_words::Boxed;

/// Where a mode stands: as that of a field or item, behind REF or as that of an element, or as that of a parameter, a
/// result or a local.
#[derive(Clone, Copy, Debug)]
pub enum Standing {
    Alone,
    Inside,
    Passed,
}

/// Whether a mode may stand as that of a field or item, over so many records.
pub(crate) fn stands_alone(records: usize, mode: &Mode) -> bool
    ensures { result ≡ stands_alone records mode.now }
{
    stands(records, mode, Standing::Alone, 100, 8)
}

/// Whether a mode may stand as that of a local.
pub(crate) fn stands_passed(records: usize, mode: &Mode) -> bool
    ensures { result ≡ stands_passed records mode.now }
{
    stands(records, mode, Standing::Passed, 100, 8)
}

/// Whether a mode may stand where so many more modes may open and so many more REF stand in the row.
#[cycle(standing_modes)]
fn stands(records: usize, mode: &Mode, place: Standing, levels: u8, refs: u8) -> bool
    ensures { result ≡ stands records mode.now place levels refs }
{
    match mode {
        Mode::Byte | Mode::Int | Mode::Frac => true,
        Mode::Label => false,
        Mode::Ref(m) => {
            levels > 0
                && refs > 0
                && stands(records, m.get(), Standing::Inside, levels - 1, refs - 1)
        }
        Mode::RefArray(m) => {
            levels > 0 && refs > 0 && stands(records, m.get(), Standing::Inside, levels - 1, 8)
        }
        Mode::Array(n, m) => {
            matches!(place, Standing::Alone)
                && levels > 0
                && is_length(*n)
                && stands(records, m.get(), Standing::Inside, levels - 1, 8)
        }
        Mode::Record(r) => !matches!(place, Standing::Passed) && usize::from(*r) < records,
        Mode::Proc(ms, r) => {
            levels > 0
                && ms.len() <= 32
                && all_passed(records, ms.as_slice(), levels - 1)
                && result_passed(records, r, levels - 1)
        }
    }
}

fn is_length(n: u16) -> bool
    ensures { result ≡ is_length n }
{
    1 <= n && n <= 8191
}

#[cycle(standing_modes)]
fn all_passed(records: usize, modes: &[Mode], levels: u8) -> bool
    ensures { result ≡ all_passed levels (map (stands records) modes.now) }
{
    for mode in modes {
        if !stands(records, mode, Standing::Passed, levels, 8) {
            return false;
        }
    }
    true
}

#[cycle(standing_modes)]
fn result_passed(records: usize, answer: &Option<Boxed<Mode>>, levels: u8) -> bool
    ensures { result ≡ result_passed levels (option_map (stands records) answer.now) }
{
    match answer {
        None => true,
        Some(mode) => stands(records, mode.get(), Standing::Passed, levels, 8),
    }
}
