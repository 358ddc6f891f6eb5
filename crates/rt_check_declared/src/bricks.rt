//! The bricks of a module.

ghost use Rattle.std.specs.Prelude.{◌≡◌, [], ◌∷◌, ◌++◌, None, map, IfOk, OnOk};
ghost use Rattle.rt_check_declared.specs.Bricks as spec;
ghost use Rattle.rt_check_declared.specs.Bricks.{bricks_in, faults_in};
ghost use Rattle.rt_exprs.specs.Names.{find_in};
ghost use Rattle.rt_check_declared.specs.Verdicts.{with_faults};

use crate::parts::{
    Given, Line, Part, declared_with, note_line, read_items, read_line, read_parts, recovers,
};
use crate::procedures::read_procedure;
use crate::{Site, either, note};
use rt_bricks::{
    DataBrick, Declaration, Import, ImportedData, ImportedProcedures, ProcedureBrick, StackBrick,
};
use rt_check_faults::CheckFault;
use rt_exprs::Level;
use rt_grammar::Ident;
use rt_tree_nodes::Kind;
use rt_words::{List, Memory, Name};
use std::alloc::Global;

/// What a brick is declared as.
#[derive(Drop)]
pub enum Sort {
    Procedure(Given),
    Items(List<Part>),
    /// So many words; 0 for one of another module.
    Stack(u16),
}

/// A brick as it is declared.
#[derive(Drop)]
pub struct Heading {
    pub kind: Kind,
    pub name: Name,
    pub sort: Sort,
}

/// The bricks of a module, in the order of declaration.
#[derive(Drop)]
pub struct Bricks {
    pub bricks: List<Heading>,
    /// The fault that counts of their modes, and of the lengths of stacks.
    pub fault: Option<CheckFault>,
}

/// The bricks of a module where names stand for what the levels say, innermost first.
#[tactic(auto, unfolding(crate::specs::Verdicts::with_faults))]
pub fn read_bricks(
    alloc: Global,
    declarations: &[Declaration],
    levels: &[Level<'_>],
) -> Result<Bricks, Memory>
    ensures bricks { IfOk result (λ b. b.bricks ≡ spec.bricks (find_in levels.now) declarations.now) }
    ensures fault { IfOk result (λ b. b.fault ≡ with_faults None (spec.brick_faults (find_in levels.now) declarations.now)) }
{
    let mut found = Bricks {
        bricks: List::new(alloc, 0)?,
        fault: None,
    };
    for declaration in declarations {
        read_declaration(alloc, declaration, levels, &mut found)?;
    }
    Ok(found)
}

/// The bricks of a declaration.
#[tactic(auto, unfolding(crate::specs::Verdicts::with_faults))]
fn read_declaration(
    alloc: Global,
    declaration: &Declaration,
    levels: &[Level<'_>],
    found: &mut Bricks,
) -> Result<(), Memory>
    ensures bricks { OnOk result (found.new.bricks ≡ found.old.bricks ++ bricks_in (find_in levels.now) declaration.now) }
    ensures fault { OnOk result (found.new.fault ≡ with_faults found.old.fault (faults_in (find_in levels.now) declaration.now)) }
{
    match declaration {
        Declaration::Record(_) => Ok(()),
        Declaration::Data(data) => add_data(alloc, data, levels, found),
        Declaration::Stack(stack) => add_stack(alloc, stack, found),
        Declaration::Procedure(procedure) => add_procedure(alloc, procedure, levels, found),
        Declaration::ImportedProcedures(procedures) => {
            add_imported_procedures(alloc, procedures, levels, found)
        }
        Declaration::ImportedData(data) => add_imported_data(alloc, data, levels, found),
        Declaration::ImportedStacks(stacks) => {
            add_imported_stacks(alloc, stacks.names.as_slice(), &mut found.bricks)
        }
    }
}

fn own_kind(entry: bool) -> Kind
    ensures { result ≡ spec.own_kind entry }
{
    if entry { Kind::Ent } else { Kind::Own }
}

fn import_kind(import: Import) -> Kind
    ensures { result ≡ spec.import_kind import }
{
    match import {
        Import::External => Kind::Ext,
        Import::Service => Kind::Svc,
    }
}

fn add_data(
    alloc: Global,
    data: &DataBrick,
    levels: &[Level<'_>],
    found: &mut Bricks,
) -> Result<(), Memory>
    ensures bricks { OnOk result (found.new.bricks ≡ found.old.bricks ++ bricks_in (find_in levels.now) (Declaration.Data data.now)) }
    ensures fault { OnOk result (found.new.fault ≡ with_faults found.old.fault (faults_in (find_in levels.now) (Declaration.Data data.now))) }
{
    let read = read_items(alloc, data.lines.as_slice(), levels)?;
    found.fault = either(found.fault, read.fault);
    let heading = Heading {
        kind: own_kind(data.entry),
        name: data.name.name.copy(alloc)?,
        sort: Sort::Items(read.parts),
    };
    found.bricks.push(heading)?;
    Ok(())
}

#[tactic(auto, unfolding(crate::specs::Verdicts::with_faults))]
fn add_stack(alloc: Global, stack: &StackBrick, found: &mut Bricks) -> Result<(), Memory>
    ensures bricks { OnOk result (found.new.bricks ≡ found.old.bricks ++ record { kind = spec.own_kind stack.now.entry; name = stack.now.name.name; sort = Sort.Stack stack.now.length } ∷ []) }
    ensures fault { OnOk result (found.new.fault ≡ with_faults found.old.fault (spec.stack_faults stack.now)) }
{
    if stack.length < 1 || stack.length > 28_672 {
        note(&mut found.fault, CheckFault::BadStart(stack.name.at));
    }
    let heading = Heading {
        kind: own_kind(stack.entry),
        name: stack.name.name.copy(alloc)?,
        sort: Sort::Stack(stack.length),
    };
    found.bricks.push(heading)?;
    Ok(())
}

fn add_procedure(
    alloc: Global,
    procedure: &ProcedureBrick,
    levels: &[Level<'_>],
    found: &mut Bricks,
) -> Result<(), Memory>
    ensures bricks { OnOk result (found.new.bricks ≡ found.old.bricks ++ bricks_in (find_in levels.now) (Declaration.Procedure procedure.now)) }
    ensures fault { OnOk result (found.new.fault ≡ with_faults found.old.fault (faults_in (find_in levels.now) (Declaration.Procedure procedure.now))) }
{
    let headed = read_procedure(alloc, procedure, levels)?;
    found.fault = either(found.fault, headed.fault);
    let heading = Heading {
        kind: own_kind(procedure.entry),
        name: procedure.name.name.copy(alloc)?,
        sort: Sort::Procedure(headed.given),
    };
    found.bricks.push(heading)?;
    Ok(())
}

fn add_imported_data(
    alloc: Global,
    data: &ImportedData,
    levels: &[Level<'_>],
    found: &mut Bricks,
) -> Result<(), Memory>
    ensures bricks { OnOk result (found.new.bricks ≡ found.old.bricks ++ bricks_in (find_in levels.now) (Declaration.ImportedData data.now)) }
    ensures fault { OnOk result (found.new.fault ≡ with_faults found.old.fault (faults_in (find_in levels.now) (Declaration.ImportedData data.now))) }
{
    let erl = recovers(data.import, data.name.name.as_slice());
    let read = read_parts(alloc, data.lines.as_slice(), erl, levels)?;
    found.fault = either(found.fault, read.fault);
    let heading = Heading {
        kind: import_kind(data.import),
        name: data.name.name.copy(alloc)?,
        sort: Sort::Items(read.parts),
    };
    found.bricks.push(heading)?;
    Ok(())
}

fn add_imported_procedures(
    alloc: Global,
    procedures: &ImportedProcedures,
    levels: &[Level<'_>],
    found: &mut Bricks,
) -> Result<(), Memory>
    ensures bricks { OnOk result (found.new.bricks ≡ found.old.bricks ++ bricks_in (find_in levels.now) (Declaration.ImportedProcedures procedures.now)) }
    ensures fault { OnOk result (found.new.fault ≡ with_faults found.old.fault (faults_in (find_in levels.now) (Declaration.ImportedProcedures procedures.now))) }
{
    let line = read_line(alloc, &procedures.mode, Site::Variable, levels)?;
    note_line(&line, procedures.names.as_slice(), &mut found.fault);
    let kind = import_kind(procedures.import);
    add_named_procedures(
        alloc,
        kind,
        &line,
        procedures.names.as_slice(),
        &mut found.bricks,
    )?;
    Ok(())
}

fn add_named_procedures(
    alloc: Global,
    kind: Kind,
    line: &Line,
    names: &[Ident],
    bricks: &mut List<Heading>,
) -> Result<(), Memory>
    ensures { OnOk result (bricks.new ≡ bricks.old ++ map (spec.imported_procedure kind line.now) names.now) }
{
    for name in names {
        let heading = Heading {
            kind,
            name: name.name.copy(alloc)?,
            sort: Sort::Procedure(declared_with(alloc, line)?),
        };
        bricks.push(heading)?;
    }
    Ok(())
}

fn add_imported_stacks(
    alloc: Global,
    names: &[Ident],
    bricks: &mut List<Heading>,
) -> Result<(), Memory>
    ensures { OnOk result (bricks.new ≡ bricks.old ++ map spec.imported_stack names.now) }
{
    for name in names {
        let heading = Heading {
            kind: Kind::Ext,
            name: name.name.copy(alloc)?,
            sort: Sort::Stack(0),
        };
        bricks.push(heading)?;
    }
    Ok(())
}
