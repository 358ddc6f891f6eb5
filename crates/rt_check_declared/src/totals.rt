//! Data bricks that are too large.

ghost use Rattle.std.specs.Prelude.{◌≡◌, Some, option_map, IfOk};
ghost use Rattle.rt_check_declared.specs.Totals.{LargeFault, all_fields};
ghost use Rattle.rt_check_declared.specs.Totaling as spec;
ghost use Rattle.rt_check_declared.specs.Records.{Counts};
ghost use Rattle.rt_sizes.specs.Capped.{AreSizes};
ghost use Rattle.rt_sizes.specs.Sizes.{Table};

use crate::parts::{Given, Part};
use rt_check_faults::CheckFault;
use rt_modes::Field;
use rt_sizes::{Size, passing_field};
use rt_tree_nodes::copy_mode;
use rt_words::{List, Memory};
use std::alloc::Global;

/// The fault of a data brick with these items as a whole, by the sizes of the module's records.
pub fn large_item(
    alloc: Global,
    parts: &[Part],
    sizes: &[Option<Size>],
) -> Result<Option<CheckFault>, Memory>
    ensures { (t : Table) → AreSizes t sizes.now → IfOk result (Counts (LargeFault t parts.now)) }
{
    let fields = fields_of(alloc, parts)?;
    let passing = passing_item(&fields, sizes);
    let fault = fault_at(parts, passing);
    Ok(fault)
}

/// The items as fields, where none is unfit.
pub fn fields_of(alloc: Global, parts: &[Part]) -> Result<Option<List<Field>>, Memory>
    ensures { IfOk result (λ fs. fs ≡ all_fields parts.now) }
{
    let mut fields = List::new(alloc, parts.len())?;
    for part in parts {
        match &part.has {
            Given::Mode(mode) => {
                let name = part.name.copy(alloc)?;
                let mode = copy_mode(alloc, mode)?;
                fields.push(Field { name, mode })?;
            }
            Given::Unknown => return Ok(None),
        }
    }
    Ok(Some(fields))
}

/// Which item is the one with which they pass 57,344 bytes.
fn passing_item(fields: &Option<List<Field>>, sizes: &[Option<Size>]) -> Option<usize>
    ensures { (t : Table) → AreSizes t sizes.now → spec.IsPassing t fields.now result }
{
    match fields {
        Some(fields) => passing_field(sizes, fields.as_slice()),
        None => None,
    }
}

/// The fault of that item, where there is one.
fn fault_at(parts: &[Part], number: Option<usize>) -> Option<CheckFault>
    ensures { result ≡ spec.fault_at parts.now number }
{
    match number {
        Some(number) => match parts.get(number) {
            Some(part) => Some(CheckFault::BadStart(part.at)),
            None => None,
        },
        None => None,
    }
}
