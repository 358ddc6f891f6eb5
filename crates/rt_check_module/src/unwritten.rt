//! The start of an item for which nothing is written.
//!
//! What is still to be made stands on a stack, so that the program's own stack is as deep for a record that holds thousands of others,
//! one in another, as for a number.

ghost use Rattle.std.specs.Prelude.{◌≡◌, [], ◌∷◌, map, take, drop, reverse, IfOk, OnOk};
ghost use Rattle.rt_modes.specs.declared.mode.Mode.{out-Mode};
ghost use Rattle.rt_modes.specs.declared.mode.Mode.TheOpen.{Mode-F};
ghost use Rattle.rt_check_module.specs.Defaults as spec;
ghost use Rattle.rt_check_module.specs.Pending.{Makes, Plans, step, finish};

use rt_modes::{Field, Mode, ModeTable};
use rt_tree_nodes::DataStart;
use rt_words::{List, Memory};
use std::alloc::Global;

/// What is still to be made, behind what stands further up on the stack.
#[derive(Clone, Copy)]
enum Pending {
    /// The number 0.
    Zero,
    /// A record by its number; those that it holds are looked at so many deep.
    Record(u16, usize),
    /// A list of so many starts that were made last, the last one first.
    Parts(usize),
}

/// The start of an item for which nothing is written.
pub fn make_default(alloc: Global, modes: &ModeTable, mode: &Mode) -> Result<DataStart, Memory>
    ensures { IfOk result (λ s. s ≡ spec.default modes.now.records mode.now) }
{
    let mut pending = List::new(alloc, 1)?;
    plan(mode, modes.records.len(), &mut pending)?;
    let mut made = make_all(alloc, modes, &mut pending)?;
    match made.pop() {
        Some(start) => Ok(start),
        None => Err(Memory),
    }
}

/// Makes all that stands on a stack. There are fewer than 2 ^ 64 steps, since what they make takes memory.
fn make_all(
    alloc: Global,
    modes: &ModeTable,
    pending: &mut List<Pending>,
) -> Result<List<DataStart>, Memory>
    ensures { IfOk result (λ made. reverse made ≡ finish modes.now.records pending.old []) }
{
    let mut made = List::new(alloc, 1)?;
    for _step in 0..u64::MAX {
        match pending.pop() {
            Some(next) => make_next(alloc, modes, next, pending, &mut made)?,
            None => return Ok(made),
        }
    }
    Err(Memory)
}

fn make_next(
    alloc: Global,
    modes: &ModeTable,
    next: Pending,
    pending: &mut List<Pending>,
    made: &mut List<DataStart>,
) -> Result<(), Memory>
    ensures { OnOk result (finish modes.now.records pending.new (reverse made.new) ≡ finish modes.now.records pending.old (step modes.now.records next (reverse made.old))) }
{
    match next {
        Pending::Zero => made.push(DataStart::Number(0)),
        Pending::Record(number, levels) => make_record(modes, number, levels, pending, made),
        Pending::Parts(count) => gather(alloc, count, made),
    }
}

/// Has a record made, of which the number 0 stands where it isn't looked at.
fn make_record(
    modes: &ModeTable,
    number: u16,
    levels: usize,
    pending: &mut List<Pending>,
    made: &mut List<DataStart>,
) -> Result<(), Memory>
    ensures { OnOk result (finish modes.now.records pending.new (reverse made.new) ≡ finish modes.now.records pending.old (spec.record_made modes.now.records levels number ∷ reverse made.old)) }
{
    if levels == 0 {
        return made.push(DataStart::Number(0));
    }
    match modes.records.get(usize::from(number)) {
        None => made.push(DataStart::Number(0)),
        Some(definition) => plan_fields(definition.fields.as_slice(), levels - 1, pending),
    }
}

/// Puts so many of the starts that were made last into a list.
fn gather(alloc: Global, count: usize, made: &mut List<DataStart>) -> Result<(), Memory>
    ensures { OnOk result (reverse made.new ≡ DataStart.List (take count (reverse made.old)) ∷ drop count (reverse made.old)) }
{
    let parts = take_last(alloc, count, made)?;
    made.push(DataStart::List(parts))
}

/// So many of the starts that were made last, the last one first.
fn take_last(
    alloc: Global,
    count: usize,
    made: &mut List<DataStart>,
) -> Result<List<DataStart>, Memory>
    ensures taken { IfOk result (λ parts. parts ≡ take count (reverse made.old)) }
    ensures left { OnOk result (reverse made.new ≡ drop count (reverse made.old)) }
{
    let mut parts = List::new(alloc, count)?;
    for _part in 0..count {
        if let Some(part) = made.pop() {
            parts.push(part)?;
        }
    }
    Ok(parts)
}

/// Puts on a stack what makes the start of a mode.
fn plan(mode: &Mode, levels: usize, pending: &mut List<Pending>) -> Result<(), Memory>
    ensures { OnOk result (Plans pending.old pending.new (λ records. spec.default_by (spec.record_made records levels) (out-Mode mode.now))) }
{
    match mode {
        Mode::Array(length, of) => plan_elements(*length, of.get(), levels, pending),
        _ => pending.push(element(mode, levels)),
    }
}

fn plan_elements(
    length: u16,
    of: &Mode,
    levels: usize,
    pending: &mut List<Pending>,
) -> Result<(), Memory>
    ensures { OnOk result (Plans pending.old pending.new (λ records. spec.default_by (spec.record_made records levels) (Mode-F.Array length of.now))) }
{
    pending.push(Pending::Parts(usize::from(length)))?;
    let each = element(of, levels);
    for _element in 0..length {
        pending.push(each)?;
    }
    Ok(())
}

/// What makes the start of a mode that is no array.
fn element(mode: &Mode, levels: usize) -> Pending
    ensures { Makes result (λ records. spec.element_made (spec.record_made records levels) (out-Mode mode.now)) }
{
    match mode {
        Mode::Record(number) => Pending::Record(*number, levels),
        _ => Pending::Zero,
    }
}

fn plan_fields(fields: &[Field], levels: usize, pending: &mut List<Pending>) -> Result<(), Memory>
    ensures { OnOk result (Plans pending.old pending.new (λ records. DataStart.List (map (λ f. spec.default_by (spec.record_made records levels) (out-Mode f.mode)) fields.now))) }
{
    pending.push(Pending::Parts(fields.len()))?;
    for field in fields {
        plan(&field.mode, levels, pending)?;
    }
    Ok(())
}
