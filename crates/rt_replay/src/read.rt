//! Reading a report.

ghost use Rattle.std.specs.Prelude.{◌≡◌, ◌≤◌, ◌⊎◌, Ok, Err, ℕ, length, IfOk, IfErr};
ghost use Rattle.rt_replay.specs.Reports.{IsReport, IsBadReportLine, RefusesReport};
ghost use Rattle.rt_replay.specs.declared.fault.ReportFault.TheVariants as fault;
ghost use Rattle.rt_replay.specs.declared.report.Report as declared;

use crate::draft::no_draft;
use crate::fault::ReportFault;
use crate::lines::first_line;
use crate::report::Report;
use std::alloc::Global;

/// Reads the report of a run: the lines STATUS, INSTRUCTIONS, STEPS, one TASK each task, TICKS, one TICK each tick, and for the statuses 4,
/// 20 and 21 the fault line, each ended by LF, with numbers, conditions and faults as they are printed. Names are 1 to 32 bytes other than
/// space and LF. There are 1 to 32 tasks, at most 4,000,000,000 instructions, 8,000,000,000 steps and 200,000 ticks; a tick stands neither
/// below the one before nor above the number of steps.
pub fn read_report(alloc: Global, bytes: &[u8]) -> Result<Report, ReportFault>
    requires { length bytes.now ≤ 4194304 }
    // What is answered is what the report says.
    ensures report { IfOk result (λ r. IsReport bytes.now r) }
    // A report isn't refused.
    ensures only { (r : declared.Report) → IsReport bytes.now r → (result ≡ Ok r) ⊎ (result ≡ Err fault.Memory) }
    // The line refused is the first that isn't in its place.
    ensures refused { IfErr result (RefusesReport bytes.now) }
    // Bytes with such a line are refused by it.
    ensures line { (n : ℕ) → IsBadReportLine bytes.now n → (result ≡ Err (fault.BadReport n)) ⊎ (result ≡ Err fault.Memory) }
{
    let mut draft = no_draft(alloc);
    let mut rest = bytes;
    let mut number: u32 = 0;
    while !rest.is_empty() {
        let (line, after) = first_line(rest);
        number += 1;
        draft.add_line(alloc, line, number)?;
        rest = after;
    }
    if !draft.is_complete() {
        return Err(ReportFault::BadReport { line: number + 1 });
    }
    Ok(draft.into_report())
}
