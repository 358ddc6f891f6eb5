//! Modes that are the same.

ghost use Rattle.std.specs.Prelude.{◌≡◌, map, option_map};
ghost use Rattle.rt_modes.specs.declared.mode.Mode.TheVariants as variant;
ghost use Rattle.rt_tree_nodes.specs.Scopes.{same, all_same, result_same};

use rt_modes::Mode;
use rt_words::Boxed;

/// Whether two modes of one module are the same.
#[cycle(same_modes)]
pub fn same_mode(a: &Mode, b: &Mode) -> bool
    ensures { result ≡ same a.now b.now }
{
    match a {
        Mode::Byte => matches!(b, Mode::Byte),
        Mode::Int => matches!(b, Mode::Int),
        Mode::Frac => matches!(b, Mode::Frac),
        Mode::Label => matches!(b, Mode::Label),
        Mode::Ref(m) => leads_to(m.get(), b),
        Mode::RefArray(m) => is_row_of(m.get(), b),
        Mode::Array(k, m) => is_array_of(m.get(), *k, b),
        Mode::Record(k) => is_record(b, *k),
        Mode::Proc(ms, m) => match b {
            Mode::Proc(ns, n) => same_modes(ms.as_slice(), ns.as_slice()) && same_result(m, n),
            _ => false,
        },
    }
}

/// Whether a mode is REF one.
#[cycle(same_modes)]
fn leads_to(target: &Mode, mode: &Mode) -> bool
    ensures { result ≡ same (variant.Ref target.now) mode.now }
{
    match mode {
        Mode::Ref(to) => same_mode(target, to.get()),
        _ => false,
    }
}

/// Whether a mode is REF ARRAY one.
#[cycle(same_modes)]
fn is_row_of(element: &Mode, mode: &Mode) -> bool
    ensures { result ≡ same (variant.RefArray element.now) mode.now }
{
    match mode {
        Mode::RefArray(of) => same_mode(element, of.get()),
        _ => false,
    }
}

/// Whether a mode is that of so many elements of one.
#[cycle(same_modes)]
fn is_array_of(element: &Mode, length: u16, mode: &Mode) -> bool
    ensures { result ≡ same (variant.Array length element.now) mode.now }
{
    match mode {
        Mode::Array(k, of) => *k == length && same_mode(element, of.get()),
        _ => false,
    }
}

fn is_record(mode: &Mode, number: u16) -> bool
    ensures { result ≡ same (variant.Record number) mode.now }
{
    match mode {
        Mode::Record(k) => *k == number,
        _ => false,
    }
}

#[cycle(same_modes)]
fn same_modes(a: &[Mode], b: &[Mode]) -> bool
    ensures { result ≡ all_same (map same a.now) b.now }
{
    let mut right = b;
    for m in a {
        match right {
            [n, ns @ ..] => {
                if !same_mode(m, n) {
                    return false;
                }
                right = ns;
            }
            [] => return false,
        }
    }
    right.is_empty()
}

#[cycle(same_modes)]
fn same_result(a: &Option<Boxed<Mode>>, b: &Option<Boxed<Mode>>) -> bool
    ensures { result ≡ result_same (option_map same a.now) b.now }
{
    match a {
        None => b.is_none(),
        Some(m) => match b {
            None => false,
            Some(n) => same_mode(m.get(), n.get()),
        },
    }
}
