//! Where what is written starts an item of a mode.

ghost use Rattle.std.specs.Prelude.{◌≡◌, ◌||◌, map, take, drop};
ghost use Rattle.rt_modes.specs.declared.mode.Mode.{out-Mode};
ghost use Rattle.rt_check_module.specs.Starts as spec;
ghost use Rattle.rt_exprs.specs.Operands.{is_label};
ghost use Rattle.rt_check_module.specs.Starts.{written_in};
ghost use Rattle.rt_check_declared.specs.Verdicts.{with_faults};

use crate::parts::{Wanted, next_fields, want};
use crate::places::{find_place, note_private, note_unfit, place_fits};
use rt_bricks::{Sign, Start};
use rt_check_faults::CheckFault;
use rt_exprs::Scope;
use rt_modes::{Field, Mode};

/// Notes the names in a start that are unknown, or whose declarations are unfit.
#[cycle(unknown)]
#[tactic(auto, unfolding(rt_check_declared::specs::Verdicts::with_faults))]
pub fn note_unknown(scope: &Scope<'_>, start: &Start, faults: &mut Option<CheckFault>)
    ensures { faults.new ≡ with_faults faults.old (written_in scope.now start.now).unknown }
{
    match start {
        Start::Place(name, selectors) => {
            note_unfit(find_place(scope, name, selectors.as_slice()), faults);
        }
        Start::List(parts, _, _) => note_all_unknown(scope, parts.as_slice(), faults),
        _ => {}
    }
}

#[cycle(unknown)]
#[tactic(auto, unfolding(rt_check_declared::specs::Verdicts::with_faults))]
fn note_all_unknown(scope: &Scope<'_>, parts: &[Start], faults: &mut Option<CheckFault>)
    ensures { faults.new ≡ with_faults faults.old (spec.all_unknown (map (written_in scope.now) parts.now)) }
{
    for part in parts {
        note_unknown(scope, part, faults);
    }
}

/// Whether a start starts an item of a mode; notes the places of SVC data in it whose reference would be taken.
#[cycle(judge)]
#[tactic(auto, unfolding(rt_check_declared::specs::Verdicts::with_faults))]
pub fn judge(scope: &Scope<'_>, start: &Start, mode: &Mode, faults: &mut Option<CheckFault>) -> bool
    ensures fits { result ≡ (written_in scope.now start.now).fits mode.now }
    ensures private { faults.new ≡ with_faults faults.old ((written_in scope.now start.now).private mode.now) }
{
    match start {
        Start::Number(sign, number, _, _) => number_fits(*sign, *number, mode),
        Start::Text(bytes, _) => text_fits(bytes.len(), mode),
        Start::Place(name, selectors) => {
            let found = find_place(scope, name, selectors.as_slice());
            note_private(name.at, found, mode, faults);
            place_fits(found, mode)
        }
        Start::List(parts, _, _) => match want(scope.table(), parts.as_slice(), mode) {
            Wanted::Elements(of) => judge_each(scope, parts.as_slice(), of, faults),
            Wanted::Fields(fields) => judge_fields(scope, parts.as_slice(), fields, faults),
            Wanted::Nothing => false,
        },
    }
}

#[cycle(judge)]
#[tactic(auto, unfolding(rt_check_declared::specs::Verdicts::with_faults))]
fn judge_each(
    scope: &Scope<'_>,
    parts: &[Start],
    mode: &Mode,
    faults: &mut Option<CheckFault>,
) -> bool
    ensures fits { result ≡ spec.each_fits (map (written_in scope.now) parts.now) mode.now }
    ensures private { faults.new ≡ with_faults faults.old (spec.in_each (λ w. w.private) (map (written_in scope.now) parts.now) mode.now) }
{
    let mut fit = true;
    for part in parts {
        let next = judge(scope, part, mode, faults);
        fit &= next;
    }
    fit
}

#[cycle(judge)]
#[tactic(auto, unfolding(rt_check_declared::specs::Verdicts::with_faults))]
fn judge_fields(
    scope: &Scope<'_>,
    parts: &[Start],
    fields: &[Field],
    faults: &mut Option<CheckFault>,
) -> bool
    ensures fits { result ≡ spec.fields_fit (map (written_in scope.now) parts.now) fields.now }
    ensures private { faults.new ≡ with_faults faults.old (spec.in_fields (λ w. w.private) (map (written_in scope.now) parts.now) fields.now) }
{
    let mut fit = true;
    let mut left = fields;
    for part in parts {
        let (these, rest) = next_fields(part, left);
        for field in these {
            let next = judge(scope, part, &field.mode, faults);
            fit &= starts_field(&field.mode, next);
        }
        left = rest;
    }
    fit
}

/// Whether what fits, or doesn't, starts a field of a mode; all do where the mode can't be known, for which LABEL stands.
fn starts_field(mode: &Mode, fits: bool) -> bool
    ensures { result ≡ is_label (out-Mode mode.now) || fits }
{
    match mode {
        Mode::Label => true,
        _ => fits,
    }
}

pub fn is_negative(sign: Option<Sign>) -> bool
    ensures { result ≡ spec.is_negative sign }
{
    match sign {
        Some(sign) => match sign {
            Sign::Minus => true,
            Sign::Plus => false,
        },
        None => false,
    }
}

fn number_fits(sign: Option<Sign>, number: u16, mode: &Mode) -> bool
    ensures { result ≡ spec.number_fits sign number (out-Mode mode.now) }
{
    match mode {
        Mode::Byte => !is_negative(sign) && number <= 255,
        Mode::Int | Mode::Frac => true,
        _ => false,
    }
}

fn text_fits(bytes: usize, mode: &Mode) -> bool
    ensures { result ≡ spec.text_fits bytes (out-Mode mode.now) }
{
    match mode {
        Mode::Array(length, of) => matches!(of.get(), Mode::Byte) && bytes == usize::from(*length),
        Mode::RefArray(of) => matches!(of.get(), Mode::Byte),
        _ => false,
    }
}
