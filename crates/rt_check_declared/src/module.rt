//! All records of a module, and the fault that counts of all its MODEs.

ghost use Rattle.std.specs.Prelude.{◌≡◌, List, Bool, None, IfOk};
ghost use Rattle.rt_bricks.specs.declared.tree.RecordMode.{RecordMode};
ghost use Rattle.rt_exprs.specs.Names.{find_in};
ghost use Rattle.rt_check_declared.specs.Heads as kept;
ghost use Rattle.rt_check_declared.specs.Heads.{all_noted, definitions};
ghost use Rattle.rt_check_declared.specs.Records.{AllCount, Counts, Stands, record_modes};
ghost use Rattle.rt_check_declared.specs.Records as spec;
ghost use Rattle.rt_sizes.specs.Capped.{AreSizes, table};
ghost use Rattle.rt_check_declared.specs.Written.{Names};

use crate::judge::judge_record;
use crate::records::{Head, either, known, read_modes};
use rt_bricks::Declaration;
use rt_check_faults::CheckFault;
use rt_exprs::Level;
use rt_modes::RecordDef;
use rt_sizes::{Size, mark_rings, record_sizes};
use rt_words::{List, Memory};
use std::alloc::Global;

/// The records of a module, in the order of their MODEs.
#[derive(Drop)]
pub struct Records {
    /// The records, with those of their fields that have a fit mode.
    pub records: List<RecordDef>,
    /// The size of each, where it has one.
    pub sizes: List<Option<Size>>,
    /// The fault that counts of each MODE, where it is unfit.
    pub unfit: List<Option<CheckFault>>,
    /// The fault that counts of all.
    pub fault: Option<CheckFault>,
}

/// The records of a module where names stand for what the levels say, innermost first.
pub fn read_records(
    alloc: Global,
    declarations: &[Declaration],
    levels: &[Level<'_>],
) -> Result<Records, Memory>
    ensures records { IfOk result (λ r. r.records ≡ (spec.table (find_in levels.now) declarations.now).records) }
    ensures sizes { IfOk result (λ r. AreSizes (spec.table (find_in levels.now) declarations.now) r.sizes) }
    // Of each MODE the fault that counts.
    ensures unfit { IfOk result (λ r. AllCount (find_in levels.now) (spec.table (find_in levels.now) declarations.now) (record_modes declarations.now) r.unfit) }
    // The fault that counts of all; there is none only where none stands.
    ensures fault { IfOk result (λ r. Counts (Stands (find_in levels.now) declarations.now) r.fault) }
{
    let read = read_modes(alloc, declarations, levels)?;
    let known = known(alloc, read.heads.as_slice())?;
    let records = read.records;
    let sizes = record_sizes(alloc, records.as_slice(), known.as_slice())?;
    let heads = read.heads;
    let unfit = judge_records(
        alloc,
        records.as_slice(),
        sizes.as_slice(),
        heads.as_slice(),
    )?;
    let fault = least_fault(unfit.as_slice());
    Ok(Records {
        records,
        sizes,
        unfit,
        fault,
    })
}

/// The fault that counts of each MODE.
fn judge_records(
    alloc: Global,
    records: &[RecordDef],
    sizes: &[Option<Size>],
    heads: &[Head],
) -> Result<List<Option<CheckFault>>, Memory>
    ensures { (names : Names) → (known : List Bool) → (rs : List RecordMode) → AreSizes (table records.now known) sizes.now → heads.now ≡ kept.heads names rs → records.now ≡ definitions names rs → IfOk result (AllCount names (table records.now known) rs) }
{
    let rings = mark_rings(alloc, records)?;
    let mut unfit = List::new(alloc, heads.len())?;
    for head in heads {
        let number = unfit.len();
        let fault = judge_record(records, sizes, rings.as_slice(), number, head);
        unfit.push(fault)?;
    }
    Ok(unfit)
}

/// The fault that counts of all.
fn least_fault(faults: &[Option<CheckFault>]) -> Option<CheckFault>
    ensures { result ≡ all_noted None faults.now }
{
    let mut least = None;
    for fault in faults {
        least = either(least, *fault);
    }
    least
}
