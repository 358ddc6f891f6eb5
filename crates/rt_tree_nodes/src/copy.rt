//! Copies of modes.

ghost use Rattle.std.specs.Prelude.{◌≡◌, [], ◌∷◌, ◌++◌, IfOk, OnOk, IsOk, IsErr, MatchResult};
ghost use Rattle.rt_modes.specs.declared.mode.Mode.TheVariants as variant;
ghost use Rattle.rt_tree_nodes.specs.Code as seen;

use crate::lent::{Lent, ValueMode};
use rt_modes::Mode;
use rt_words::{Boxed, List, Memory};
use std::alloc::Global;

/// The same mode once more; the only other answer is want of memory.
#[cycle(copy)]
pub fn copy_mode(alloc: Global, mode: &Mode) -> Result<Mode, Memory>
    ensures { IfOk result (λ m. m ≡ mode.now) }
{
    match mode {
        Mode::Byte => Ok(Mode::Byte),
        Mode::Int => Ok(Mode::Int),
        Mode::Frac => Ok(Mode::Frac),
        Mode::Label => Ok(Mode::Label),
        Mode::Ref(to) => copy_reference(alloc, to.get()),
        Mode::RefArray(of) => copy_row(alloc, of.get()),
        Mode::Array(length, of) => copy_array(alloc, *length, of.get()),
        Mode::Record(number) => Ok(Mode::Record(*number)),
        Mode::Proc(parameters, answer) => {
            let parameters = copy_modes(alloc, parameters.as_slice())?;
            procedure(parameters, copy_answer(alloc, answer))
        }
    }
}

#[cycle(copy)]
fn copy_reference(alloc: Global, to: &Mode) -> Result<Mode, Memory>
    ensures { IfOk result (λ m. m ≡ variant.Ref to.now) }
{
    Ok(Mode::Ref(copy_boxed(alloc, to)?))
}

#[cycle(copy)]
fn copy_row(alloc: Global, of: &Mode) -> Result<Mode, Memory>
    ensures { IfOk result (λ m. m ≡ variant.RefArray of.now) }
{
    Ok(Mode::RefArray(copy_boxed(alloc, of)?))
}

#[cycle(copy)]
fn copy_array(alloc: Global, length: u16, of: &Mode) -> Result<Mode, Memory>
    ensures { IfOk result (λ m. m ≡ variant.Array length of.now) }
{
    Ok(Mode::Array(length, copy_boxed(alloc, of)?))
}

/// A PROC mode, where the mode of its result was made.
fn procedure(
    parameters: List<Mode>,
    answer: Result<Option<Boxed<Mode>>, Memory>,
) -> Result<Mode, Memory>
    ensures { MatchResult answer (λ a. IfOk result (λ m. m ≡ variant.Proc parameters a)) (λ e. IsErr result) }
{
    Ok(Mode::Proc(parameters, answer?))
}

#[cycle(copy)]
fn copy_boxed(alloc: Global, mode: &Mode) -> Result<Boxed<Mode>, Memory>
    ensures { IfOk result (λ m. m ≡ mode.now) }
{
    let copied = copy_mode(alloc, mode)?;
    Boxed::new(alloc, copied)
}

#[cycle(copy)]
fn copy_modes(alloc: Global, modes: &[Mode]) -> Result<List<Mode>, Memory>
    ensures { IfOk result (λ ms. ms ≡ modes.now) }
{
    let mut copied = List::new(alloc, modes.len())?;
    match copy_onto(alloc, modes, &mut copied) {
        Ok(()) => Ok(copied),
        Err(memory) => Err(memory),
    }
}

/// Appends copies of modes to an empty list.
#[cycle(copy)]
fn copy_onto(alloc: Global, modes: &[Mode], copied: &mut List<Mode>) -> Result<(), Memory>
    requires { copied.old ≡ [] }
    ensures { OnOk result (copied.new ≡ modes.now) }
{
    for mode in modes {
        push_made(copied, copy_mode(alloc, mode))?;
    }
    Ok(())
}

/// Appends an element, where it was made.
fn push_made<T: Drop>(list: &mut List<T>, made: Result<T, Memory>) -> Result<(), Memory>
    ensures pushed { OnOk result (IfOk made (λ x. list.new ≡ list.old ++ x ∷ [])) }
    ensures made { OnOk result (IsOk made) }
{
    list.push(made?)
}

#[cycle(copy)]
fn copy_answer(alloc: Global, answer: &Option<Boxed<Mode>>) -> Result<Option<Boxed<Mode>>, Memory>
    ensures { IfOk result (λ m. m ≡ answer.now) }
{
    match answer {
        Some(mode) => Ok(Some(copy_boxed(alloc, mode.get())?)),
        None => Ok(None),
    }
}

/// The mode that is lent, as one of its own; the only other answer is want of memory.
pub fn copy_lent(alloc: Global, mode: &Lent<'_>) -> Result<Mode, Memory>
    ensures { IfOk result (λ m. m ≡ seen.lent mode.now) }
{
    match mode {
        Lent::Of(mode) => copy_mode(alloc, mode),
        Lent::Byte => Ok(Mode::Byte),
        Lent::Int => Ok(Mode::Int),
        Lent::Frac => Ok(Mode::Frac),
    }
}

/// The mode of a value, as one of its own; the only other answer is want of memory.
pub fn copy_value_mode(alloc: Global, mode: &ValueMode<'_>) -> Result<Mode, Memory>
    ensures { IfOk result (λ m. m ≡ seen.value_mode mode.now) }
{
    match mode {
        ValueMode::Of(mode) => copy_lent(alloc, mode),
        ValueMode::Reference(target) => {
            let target = copy_lent(alloc, target)?;
            Ok(Mode::Ref(Boxed::new(alloc, target)?))
        }
        ValueMode::Row(element) => {
            let element = copy_lent(alloc, element)?;
            Ok(Mode::RefArray(Boxed::new(alloc, element)?))
        }
    }
}
