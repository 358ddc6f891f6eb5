//! Names that are declared with a mode.

ghost use Rattle.std.specs.Prelude.{◌≡◌, ◌++◌, None, false, map, IfOk, OnOk};
ghost use Rattle.rt_exprs.specs.Names.{find_in};
ghost use Rattle.rt_check_declared.specs.Fields.{faults_by, fields_by};
ghost use Rattle.rt_check_declared.specs.Fields as spec;
ghost use Rattle.rt_check_declared.specs.Verdicts.{fit, with_fault, with_faults};
ghost use Rattle.rt_check_declared.specs.Written.{written};

use crate::{Resolved, Site, note, resolve};
use rt_bricks::Fields;
use rt_check_faults::CheckFault;
use rt_exprs::Level;
use rt_grammar::Ident;
use rt_modes::{Field, Mode};
use rt_tree_nodes::copy_mode;
use rt_words::{List, Memory};
use std::alloc::Global;

/// Fields that are found one after another.
#[derive(Drop)]
pub struct Found {
    /// All, those with an unfit mode as LABEL, which no field has: their modes can't be known.
    pub fields: List<Field>,
    /// The fault that counts of their modes.
    pub fault: Option<CheckFault>,
}

/// The fields of a record, the parameters of a procedure, or the items of imported data.
#[tactic(auto, unfolding(crate::specs::Verdicts::with_faults))]
pub fn read_fields(
    alloc: Global,
    lines: &[Fields],
    site: Site,
    levels: &[Level<'_>],
) -> Result<Found, Memory>
    ensures fields { IfOk result (λ f. f.fields ≡ spec.written_fields (find_in levels.now) site lines.now) }
    ensures fault { IfOk result (λ f. f.fault ≡ with_faults None (spec.mode_faults (find_in levels.now) site lines.now)) }
{
    let mut found = Found {
        fields: List::new(alloc, 0)?,
        fault: None,
    };
    for line in lines {
        read_line(alloc, line, site, levels, &mut found)?;
    }
    Ok(found)
}

/// The fields of one line.
fn read_line(
    alloc: Global,
    line: &Fields,
    site: Site,
    levels: &[Level<'_>],
    found: &mut Found,
) -> Result<(), Memory>
    ensures fields { OnOk result (found.new.fields ≡ found.old.fields ++ fields_by (written (find_in levels.now) line.now.mode site) line.now.names) }
    ensures fault { OnOk result (found.new.fault ≡ with_faults found.old.fault (faults_by (written (find_in levels.now) line.now.mode site) line.now.names)) }
{
    match resolve(alloc, &line.mode, site, levels) {
        Ok(resolved) => add_resolved(alloc, resolved, line.names.as_slice(), found),
        Err(fault) => {
            note_unless_memory(fault, &mut found.fault)?;
            add_fields(
                alloc,
                &Mode::Label,
                line.names.as_slice(),
                &mut found.fields,
            )
        }
    }
}

/// Notes a fault of a module; want of memory is none.
fn note_unless_memory(fault: CheckFault, faults: &mut Option<CheckFault>) -> Result<(), Memory>
    ensures noted { OnOk result (faults.new ≡ with_fault faults.old fault) }
    ensures fault { OnOk result (spec.is_memory fault ≡ false) }
{
    match fault {
        CheckFault::Memory => Err(Memory),
        _ => {
            note(faults, fault);
            Ok(())
        }
    }
}

/// Adds names with the mode that is written behind no fault.
#[tactic(auto, unfolding(crate::specs::Verdicts::with_faults))]
fn add_resolved(
    alloc: Global,
    resolved: Resolved,
    names: &[Ident],
    found: &mut Found,
) -> Result<(), Memory>
    ensures fields { OnOk result (found.new.fields ≡ found.old.fields ++ fields_by (fit resolved) names.now) }
    ensures fault { OnOk result (found.new.fault ≡ with_faults found.old.fault (faults_by (fit resolved) names.now)) }
{
    match resolved {
        Resolved::Mode(mode) => add_fields(alloc, &mode, names, &mut found.fields),
        Resolved::BadLength => {
            note_lengths(names, &mut found.fault);
            add_fields(alloc, &Mode::Label, names, &mut found.fields)
        }
    }
}

/// Adds a field of each name.
fn add_fields(
    alloc: Global,
    mode: &Mode,
    names: &[Ident],
    fields: &mut List<Field>,
) -> Result<(), Memory>
    ensures { OnOk result (fields.new ≡ fields.old ++ fields_by (fit (Resolved.Mode mode.now)) names.now) }
{
    for name in names {
        let field = Field {
            name: name.name.copy(alloc)?,
            mode: copy_mode(alloc, mode)?,
        };
        fields.push(field)?;
    }
    Ok(())
}

/// Notes the fault of a length at each name.
#[tactic(auto, unfolding(crate::specs::Verdicts::with_faults))]
fn note_lengths(names: &[Ident], faults: &mut Option<CheckFault>)
    ensures { faults.new ≡ with_faults faults.old (faults_by (fit Resolved.BadLength) names.now) }
{
    for name in names {
        note(faults, CheckFault::BadStart(name.at));
    }
}
