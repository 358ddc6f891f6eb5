//! The records of a module.

ghost use Rattle.std.specs.Prelude.{◌≡◌, [], ◌∷◌, ◌++◌, ℕ, None, Some, map, length, slice_get, IfOk, OnOk};
ghost use Rattle.rt_exprs.specs.Names.{find_in};
ghost use Rattle.rt_check_declared.specs.Fields.{idents};
ghost use Rattle.rt_check_declared.specs.Heads.{head, heads, definitions, noted, all_known};
ghost use Rattle.rt_check_declared.specs.Records as spec;
ghost use Rattle.rt_check_declared.specs.Verdicts.{with_faults};

use crate::fields::read_fields;
use crate::{Site, note, second_fields};
use rt_bricks::{Declaration, Fields, RecordMode};
use rt_check_faults::CheckFault;
use rt_exprs::Level;
use rt_grammar::{At, Ident};
use rt_modes::RecordDef;
use rt_words::{List, Memory};
use std::alloc::Global;

/// What is asked of a MODE besides its record.
#[derive(Drop)]
pub struct Head {
    /// Where its name stands.
    pub at: At,
    /// Where its fields stand.
    pub fields: List<At>,
    /// The fault that counts of its fields' modes.
    pub fault: Option<CheckFault>,
    /// The fault that counts of its fields' names.
    pub second: Option<CheckFault>,
}

/// The records of a module as far as their MODEs are read one by one.
#[derive(Drop)]
pub struct Read {
    pub records: List<RecordDef>,
    pub heads: List<Head>,
}

/// The MODEs of a module, each by itself.
pub fn read_modes(
    alloc: Global,
    declarations: &[Declaration],
    levels: &[Level<'_>],
) -> Result<Read, Memory>
    ensures records { IfOk result (λ r. r.records ≡ definitions (find_in levels.now) (spec.record_modes declarations.now)) }
    ensures heads { IfOk result (λ r. r.heads ≡ heads (find_in levels.now) (spec.record_modes declarations.now)) }
{
    let mut read = Read {
        records: List::new(alloc, 0)?,
        heads: List::new(alloc, 0)?,
    };
    for declaration in declarations {
        read_declaration(alloc, declaration, levels, &mut read)?;
    }
    Ok(read)
}

/// A MODE, or a declaration that is none.
fn read_declaration(
    alloc: Global,
    declaration: &Declaration,
    levels: &[Level<'_>],
    read: &mut Read,
) -> Result<(), Memory>
    ensures records { OnOk result (read.new.records ≡ read.old.records ++ definitions (find_in levels.now) (spec.record_modes (declaration.now ∷ []))) }
    ensures heads { OnOk result (read.new.heads ≡ read.old.heads ++ heads (find_in levels.now) (spec.record_modes (declaration.now ∷ []))) }
{
    match declaration {
        Declaration::Record(mode) => read_mode(alloc, mode, levels, read),
        _ => Ok(()),
    }
}

/// One MODE.
fn read_mode(
    alloc: Global,
    mode: &RecordMode,
    levels: &[Level<'_>],
    read: &mut Read,
) -> Result<(), Memory>
    ensures records { OnOk result (read.new.records ≡ read.old.records ++ spec.definition (find_in levels.now) mode.now ∷ []) }
    ensures heads { OnOk result (read.new.heads ≡ read.old.heads ++ head (find_in levels.now) mode.now ∷ []) }
{
    let lines = mode.fields.as_slice();
    let found = read_fields(alloc, lines, Site::Item, levels)?;
    let second = second_fields(alloc, lines)?;
    let name = mode.name.name.copy(alloc)?;
    read.records.push(RecordDef {
        name,
        fields: found.fields,
    })?;
    let at = mode.name.at;
    let fields = places(alloc, lines)?;
    read.heads.push(Head {
        at,
        fields,
        fault: found.fault,
        second,
    })?;
    Ok(())
}

/// The one that counts of two faults, where there are any.
pub fn either(first: Option<CheckFault>, second: Option<CheckFault>) -> Option<CheckFault>
    ensures { result ≡ noted first second }
{
    let mut faults = first;
    if let Some(fault) = second {
        note(&mut faults, fault);
    }
    faults
}

/// Where fields stand.
fn places(alloc: Global, lines: &[Fields]) -> Result<List<At>, Memory>
    ensures { IfOk result (λ ats. ats ≡ map (λ i. i.at) (idents lines.now)) }
{
    let mut ats = List::new(alloc, 0)?;
    for line in lines {
        add_places(line.names.as_slice(), &mut ats)?;
    }
    Ok(ats)
}

fn add_places(names: &[Ident], ats: &mut List<At>) -> Result<(), Memory>
    ensures { OnOk result (ats.new ≡ ats.old ++ map (λ i. i.at) names.now) }
{
    for name in names {
        ats.push(name.at)?;
    }
    Ok(())
}

/// Of which records all fields are known.
pub fn known(alloc: Global, heads: &[Head]) -> Result<List<bool>, Memory>
    ensures { IfOk result (λ bs. bs ≡ all_known heads.now) }
{
    let mut all = List::new(alloc, heads.len())?;
    for head in heads {
        all.push(head.fault.is_none())?;
    }
    Ok(all)
}
