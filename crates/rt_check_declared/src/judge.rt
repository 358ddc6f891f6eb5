//! Records that contain themselves, and records that are too large.

ghost use Rattle.std.specs.Prelude.{◌≡◌, List, Bool, Some, slice_get};
ghost use Rattle.rt_bricks.specs.declared.tree.RecordMode.{RecordMode};
ghost use Rattle.rt_modes.specs.FullMode.{fields_in};
ghost use Rattle.rt_check_declared.specs.Heads as spec;
ghost use Rattle.rt_check_declared.specs.Heads.{whole};
ghost use Rattle.rt_check_declared.specs.Records.{Counts, ModeFault, RecordFault, definition};
ghost use Rattle.rt_sizes.specs.Capped.{AreSizes, table};
ghost use Rattle.rt_sizes.specs.Rings.{AreRings};
ghost use Rattle.rt_check_declared.specs.Written.{Names};

use crate::records::{Head, either};
use rt_check_faults::CheckFault;
use rt_grammar::At;
use rt_modes::{Field, RecordDef};
use rt_sizes::{Size, is_ring, passing_field};

/// The fault that counts of a MODE, by the number of its record; `rings` marks the records that contain themselves.
pub fn judge_record(
    records: &[RecordDef],
    sizes: &[Option<Size>],
    rings: &[bool],
    number: usize,
    head: &Head,
) -> Option<CheckFault>
    ensures { (names : Names) → (known : List Bool) → (r : RecordMode) → AreSizes (table records.now known) sizes.now → AreRings records.now rings.now → head.now ≡ spec.head names r → slice_get records.now number ≡ Some (definition names r) → Counts (RecordFault names (table records.now known) number r) result }
{
    let fault = judge_modes(records, sizes, rings, number, head);
    either(fault, head.second)
}

/// The fault that counts of the modes of a MODE's fields and of the record as a whole.
fn judge_modes(
    records: &[RecordDef],
    sizes: &[Option<Size>],
    rings: &[bool],
    number: usize,
    head: &Head,
) -> Option<CheckFault>
    ensures { (names : Names) → (known : List Bool) → (r : RecordMode) → AreSizes (table records.now known) sizes.now → AreRings records.now rings.now → head.now ≡ spec.head names r → slice_get records.now number ≡ Some (definition names r) → Counts (ModeFault names (table records.now known) number r) result }
{
    match head.fault {
        Some(fault) => Some(fault),
        None => {
            let ring = is_ring(rings, number);
            let passing = passing_field(sizes, fields_of(records, number));
            let place = place_of(head.fields.as_slice(), passing);
            whole_fault(ring, head.at, place)
        }
    }
}

/// The fault of a record as a whole.
fn whole_fault(ring: bool, at: At, passing: Option<At>) -> Option<CheckFault>
    ensures { result ≡ whole ring at passing }
{
    if ring {
        return Some(CheckFault::DeclaredTwice(at));
    }
    match passing {
        Some(at) => Some(CheckFault::BadStart(at)),
        None => None,
    }
}

/// The place of that number, where there is one.
fn place_of(places: &[At], number: Option<usize>) -> Option<At>
    ensures { result ≡ spec.place_of places.now number }
{
    match number {
        Some(number) => places.get(number).copied(),
        None => None,
    }
}

/// The fields of a record.
fn fields_of(records: &[RecordDef], number: usize) -> &[Field]
    ensures { result.now ≡ fields_in (slice_get records.now number) }
{
    match records.get(number) {
        Some(record) => record.fields.as_slice(),
        None => &[],
    }
}
