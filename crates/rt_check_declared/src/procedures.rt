//! The full mode of a procedure.

ghost use Rattle.std.specs.Prelude.{◌≡◌, [], ◌∷◌, None, map, IfOk};
ghost use Rattle.rt_check_declared.specs.Bricks as spec;
ghost use Rattle.rt_check_declared.specs.Parts.{line_faults};
ghost use Rattle.rt_exprs.specs.Names.{find_in};
ghost use Rattle.rt_check_declared.specs.Verdicts.{with_faults};

use crate::parts::{Given, Line, read_line};
use crate::{Site, note, read_fields};
use rt_bricks::ProcedureBrick;
use rt_check_faults::CheckFault;
use rt_exprs::Level;
use rt_grammar::Ident;
use rt_modes::{Field, Mode};
use rt_syntax_exprs::WrittenMode;
use rt_tree_nodes::copy_mode;
use rt_words::{Boxed, List, Memory};
use std::alloc::Global;

/// What a procedure is declared with, and the fault that counts of its heading.
#[derive(Drop)]
pub struct ProcedureHeading {
    pub given: Given,
    pub fault: Option<CheckFault>,
}

/// The mode of a procedure, unless a fault stands in its heading.
pub fn read_procedure(
    alloc: Global,
    procedure: &ProcedureBrick,
    levels: &[Level<'_>],
) -> Result<ProcedureHeading, Memory>
    ensures given { IfOk result (λ h. h.given ≡ spec.procedure (find_in levels.now) procedure.now) }
    ensures fault { IfOk result (λ h. h.fault ≡ with_faults None (spec.procedure_faults (find_in levels.now) procedure.now)) }
{
    let found = read_fields(alloc, procedure.fields.as_slice(), Site::Variable, levels)?;
    let answer = read_result(alloc, &procedure.result, levels)?;
    let fault = with_result(found.fault, &answer, &procedure.name);
    let given = headed(alloc, fault, found.fields.as_slice(), &answer)?;
    Ok(ProcedureHeading { given, fault })
}

/// What is written as a result.
fn read_result(
    alloc: Global,
    answer: &Option<WrittenMode>,
    levels: &[Level<'_>],
) -> Result<Option<Line>, Memory>
    ensures { IfOk result (λ l. l ≡ spec.result_line (find_in levels.now) answer.now) }
{
    match answer {
        Some(mode) => {
            let line = read_line(alloc, mode, Site::Variable, levels)?;
            Ok(Some(line))
        }
        None => Ok(None),
    }
}

/// The fault that counts of those before and those of the result.
#[tactic(auto, unfolding(crate::specs::Verdicts::with_faults))]
fn with_result(
    before: Option<CheckFault>,
    answer: &Option<Line>,
    name: &Ident,
) -> Option<CheckFault>
    ensures { result ≡ with_faults before (spec.optional_faults answer.now name.now) }
{
    let mut faults = before;
    match answer {
        Some(line) => match line {
            Line::Mode(_) => {}
            Line::BadLength => note(&mut faults, CheckFault::BadStart(name.at)),
            Line::Unfit(fault) => note(&mut faults, *fault),
        },
        None => {}
    }
    faults
}

/// The mode of a procedure with these parameters and this result, unless there is a fault.
fn headed(
    alloc: Global,
    fault: Option<CheckFault>,
    fields: &[Field],
    answer: &Option<Line>,
) -> Result<Given, Memory>
    ensures { IfOk result (λ g. g ≡ spec.headed fault fields.now (spec.result_by answer.now)) }
{
    match fault {
        Some(_) => Ok(Given::Unknown),
        None => {
            let modes = modes_of(alloc, fields)?;
            let answer = result_mode(alloc, answer)?;
            Ok(Given::Mode(Mode::Proc(modes, answer)))
        }
    }
}

fn modes_of(alloc: Global, fields: &[Field]) -> Result<List<Mode>, Memory>
    ensures { IfOk result (λ ms. ms ≡ map (λ f. f.mode) fields.now) }
{
    let mut modes = List::new(alloc, fields.len())?;
    for field in fields {
        modes.push(copy_mode(alloc, &field.mode)?)?;
    }
    Ok(modes)
}

fn result_mode(alloc: Global, answer: &Option<Line>) -> Result<Option<Boxed<Mode>>, Memory>
    ensures { IfOk result (λ m. m ≡ spec.result_by answer.now) }
{
    match answer {
        Some(line) => match line {
            Line::Mode(mode) => {
                let mode = copy_mode(alloc, mode)?;
                Ok(Some(Boxed::new(alloc, mode)?))
            }
            Line::BadLength => Ok(None),
            Line::Unfit(_) => Ok(None),
        },
        None => Ok(None),
    }
}
