//! Modes that are the same, and what a value of a mode gives where another is wanted.

ghost use Rattle.std.specs.Prelude.{◌≡◌, ◌↔◌, IsTrue, ◌==◌, ◌&&◌, map, IfOk, option_map};
ghost use Rattle.std.specs.Option.{option_copied};
ghost use Rattle.rt_modes.specs.declared.mode.Mode.{Mode, out-Mode};
ghost use Rattle.rt_exprs.specs.Following.{FollowsReferences};
ghost use Rattle.rt_exprs.specs.Modes as spec;
ghost use Rattle.rt_exprs.specs.Operands.{want_of};

use crate::operand::{Base, Wanted};
use rt_modes::Mode;
use rt_tree_nodes::{Op1, Place, Value};
use rt_words::{Boxed, Memory};
use std::alloc::Global;

/// Whether two modes of one module are the same.
fn same_mode(left: &Mode, right: &Mode) -> bool
    ensures { result ≡ spec.same left.now right.now }
{
    rt_tree_nodes::same_mode(left, right)
}

/// Whether a mode is BYTE.
pub fn is_byte(mode: &Mode) -> bool
    ensures { result ≡ spec.is_byte (out-Mode mode.now) }
{
    matches!(mode, Mode::Byte)
}

/// Whether a mode is INT.
pub fn is_int(mode: &Mode) -> bool
    ensures { result ≡ spec.is_int (out-Mode mode.now) }
{
    matches!(mode, Mode::Int)
}

/// The mode to which a REF leads.
pub fn ref_of(mode: &Mode) -> Option<&Mode>
    ensures { option_copied result ≡ spec.ref_of (out-Mode mode.now) }
{
    match mode {
        Mode::Ref(to) => Some(to.get()),
        _ => None,
    }
}

/// The number of a record.
pub fn record_of(mode: &Mode) -> Option<u16>
    ensures { result ≡ spec.record_of (out-Mode mode.now) }
{
    match mode {
        Mode::Record(number) => Some(*number),
        _ => None,
    }
}

/// Lends a mode.
pub fn lent(mode: &Option<Boxed<Mode>>) -> Option<&Mode>
    ensures { option_copied result ≡ mode.now }
{
    match mode {
        Some(mode) => Some(mode.get()),
        None => None,
    }
}

/// What is wanted of a value where this mode is wanted.
pub fn wanted(mode: &Mode) -> Wanted<'_>
    ensures { want_of result ≡ spec.want mode.now }
{
    match mode {
        Mode::Byte => Wanted::Basic(Base::Byte),
        Mode::Int => Wanted::Basic(Base::Int),
        Mode::Frac => Wanted::Basic(Base::Frac),
        Mode::Ref(to) => Wanted::Ref(to.get()),
        Mode::RefArray(of) => Wanted::Row(of.get()),
        Mode::Proc(_, _) => Wanted::Proc(mode),
        _ => Wanted::Nothing,
    }
}

/// Whether REF to this mode is wanted.
pub fn is_ref(to: &Mode, wanted: Wanted<'_>) -> bool
    ensures { result ≡ spec.is_ref (spec.same to.now) (want_of wanted.entry) }
{
    match wanted {
        Wanted::Ref(mode) => same_mode(to, mode),
        _ => false,
    }
}

/// Whether REF ARRAY of this mode is wanted.
pub fn is_row(of: &Mode, wanted: Wanted<'_>) -> bool
    ensures { result ≡ spec.is_row (spec.same of.now) (want_of wanted.entry) }
{
    match wanted {
        Wanted::Row(mode) => same_mode(of, mode),
        _ => false,
    }
}

/// Whether this mode, a PROC, is wanted.
pub fn is_proc(mode: &Mode, wanted: Wanted<'_>) -> bool
    ensures { result ≡ spec.is_proc (spec.same mode.now) (want_of wanted.entry) }
{
    match wanted {
        Wanted::Proc(other) => same_mode(mode, other),
        _ => false,
    }
}

/// The value, where the test is passed.
pub fn only_if(passed: bool, value: Value) -> Option<Value>
    ensures { result ≡ spec.only_if passed value }
{
    if passed { Some(value) } else { None }
}

/// A value of a mode of one word where another mode is wanted.
pub fn basic_becomes(
    alloc: Global,
    base: Base,
    wanted: Wanted<'_>,
    value: Value,
) -> Result<Option<Value>, Memory>
    ensures { IfOk result (λ v. v ≡ spec.basic_becomes base (want_of wanted.entry) value) }
{
    match (base, wanted) {
        (Base::Byte, Wanted::Basic(Base::Int)) => {
            Ok(Some(Value::Monadic(Op1::Int, Boxed::new(alloc, value)?)))
        }
        (Base::Byte, Wanted::Basic(Base::Byte)) => Ok(Some(value)),
        (Base::Int, Wanted::Basic(Base::Int)) => Ok(Some(value)),
        (Base::Frac, Wanted::Basic(Base::Frac)) => Ok(Some(value)),
        _ => Ok(None),
    }
}

/// What is read where a reference leads.
pub fn past(alloc: Global, reference: Value) -> Result<Value, Memory>
    ensures { IfOk result (λ v. v ≡ spec.past reference) }
{
    let place = Place::Through(Boxed::new(alloc, reference)?);
    Ok(Value::Read(Boxed::new(alloc, place)?))
}

/// A value of a mode where another mode is wanted.
pub fn becomes(
    alloc: Global,
    mode: &Mode,
    wanted: Wanted<'_>,
    value: Value,
) -> Result<Option<Value>, Memory>
    ensures { IfOk result (λ v. v ≡ spec.becomes mode.now (want_of wanted.entry) value) }
{
    match mode {
        Mode::Byte => basic_becomes(alloc, Base::Byte, wanted, value),
        Mode::Int => basic_becomes(alloc, Base::Int, wanted, value),
        Mode::Frac => basic_becomes(alloc, Base::Frac, wanted, value),
        Mode::Ref(to) => {
            let to = to.get();
            if is_ref(to, wanted) {
                return Ok(Some(value));
            }
            let read = past(alloc, value)?;
            becomes(alloc, to, wanted, read)
        }
        Mode::RefArray(of) => Ok(only_if(is_row(of.get(), wanted), value)),
        Mode::Proc(_, _) => Ok(only_if(is_proc(mode, wanted), value)),
        _ => Ok(None),
    }
}

/// The place of the array at a place of this mode, REFs followed.
pub fn array_at(alloc: Global, mode: &Mode, place: Place) -> Result<Option<Place>, Memory>
    ensures { IfOk result (λ p. p ≡ spec.array_at mode.now place) }
{
    match mode {
        Mode::Array(_, _) => Ok(Some(place)),
        Mode::RefArray(_) => Ok(Some(through(alloc, place)?)),
        Mode::Ref(to) => {
            let next = through(alloc, place)?;
            array_at(alloc, to.get(), next)
        }
        _ => Ok(None),
    }
}

/// The place to which the reference at a place leads.
pub fn through(alloc: Global, place: Place) -> Result<Place, Memory>
    ensures { IfOk result (λ p. p ≡ spec.through place) }
{
    let read = Value::Read(Boxed::new(alloc, place)?);
    Ok(Place::Through(Boxed::new(alloc, read)?))
}

/// The mode of one word that is left where REFs are taken off; INT where it is another.
pub fn base_of(mode: &Mode) -> Base
    ensures { result ≡ spec.base_of mode.now }
{
    match mode {
        Mode::Byte => Base::Byte,
        Mode::Frac => Base::Frac,
        Mode::Ref(to) => base_of(to.get()),
        _ => Base::Int,
    }
}

/// A value of a mode is, where another mode is wanted, what it leads to when it is followed as often as
/// REFs stand in front, or that as an INT where it is a BYTE.
pub fn references_are_followed()
    ensures { FollowsReferences }
{}
