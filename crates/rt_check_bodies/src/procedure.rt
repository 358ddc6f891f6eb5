//! A procedure's brick.

ghost use Rattle.std.specs.Prelude.{◌≡◌, ◌≤◌, [], IfOk, IfErr, OnOk, OnErr};
ghost use Rattle.rt_check_faults.specs.Outcomes.{IsLeast, IsAnswered, UnlessMemory};
ghost use Rattle.rt_check_declared.specs.Verdicts.{IsIn, GatheredCounts};
ghost use Rattle.rt_check_bodies.specs.Procedures as spec;
ghost use Rattle.rt_bricks.specs.Counted as counted;
ghost use Rattle.rt_check_bodies.specs.Procedures.{Stands};
ghost use Rattle.rt_check_bodies.specs.Parts.{Gave};
ghost use Rattle.rt_exprs.specs.Sights.{outside};

use crate::answer::Answer;
use crate::pairs::both;
use crate::parameters::{add_parameters, answer_of};
use crate::statements::body;
use crate::{Names, Tally, first_of};
use rt_bricks::ProcedureBrick;
use rt_check_declared::gathered_fault_counts;
use rt_check_faults::CheckFault;
use rt_exprs::{Level, small_number};
use rt_grammar::At;
use rt_tree::is_closed;
use rt_tree_nodes::{Body, ProcBody};
use rt_words::{List, Memory};
use std::alloc::Global;

/// What a procedure's brick is, in the sight of the names of its module; the names are as before where it is answered.
///
/// # Errors
///
/// The fault of the least item, and of those of that item the one of least number, of all that stand in its parameters, its
/// result and its body; or want of memory.
pub fn judge_procedure<'a>(
    alloc: Global,
    names: &mut Names<'a>,
    brick: &'a ProcedureBrick,
) -> Result<ProcBody, CheckFault>
    // What is answered is the procedure, and no fault stands in it.
    ensures tree { IfOk result (λ made. made ≡ spec.procedure names.old brick.now) }
    ensures fit { IfOk result (λ _. spec.faults names.old brick.now ≡ []) }
    // Where none stands it is answered, unless memory runs out.
    ensures only { spec.faults names.old brick.now ≡ [] → IsAnswered (spec.procedure names.old brick.now) result }
    // A fault stands, and counts of all that stand, unless memory runs out.
    ensures fault { IfErr result (λ g. UnlessMemory g (IsLeast (Stands names.old brick.now) g)) }
    ensures kept { IfErr result (λ g. UnlessMemory g (names.new ≡ names.old)) }
    ensures kept_ok { OnOk result (names.new ≡ names.old) }
{
    let mut tally = nothing_yet(alloc)?;
    let body = body_in(alloc, names, &mut tally, brick)?;
    finished(tally, brick, body)
}

fn nothing_yet(alloc: Global) -> Result<Tally, Memory>
    ensures { IfOk result (λ t. t ≡ spec.nothing_yet) }
{
    let locals = List::new(alloc, 0)?;
    let faults = List::new(alloc, 0)?;
    Ok(Tally {
        locals,
        labels: 0,
        faults,
    })
}

/// The procedure, or the fault that counts of those that have been noted.
fn finished(tally: Tally, brick: &ProcedureBrick, body: Body) -> Result<ProcBody, CheckFault>
    ensures tree { IfOk result (λ made. made ≡ spec.proc_by brick.now (body, tally)) }
    ensures fit { IfOk result (λ _. tally.faults ≡ []) }
    ensures only { tally.faults ≡ [] → IsAnswered (spec.proc_by brick.now (body, tally)) result }
    ensures fault { IfErr result (λ g. UnlessMemory g (IsLeast (λ h. IsIn h tally.faults) g)) }
{
    match counted(&tally) {
        Some(fault) => Err(fault),
        None => {
            let items = items_of(brick)?;
            Ok(ProcBody {
                locals: tally.locals,
                labels: u32::from(tally.labels),
                items,
                most: 0,
                body,
            })
        }
    }
}

/// The fault that counts of those that have been noted.
fn counted(tally: &Tally) -> Option<CheckFault>
    ensures { GatheredCounts tally.now.faults result }
{
    gathered_fault_counts();
    first_of(tally.faults.as_slice())
}

/// The parameters, the result and the body of a procedure.
fn body_in<'a>(
    alloc: Global,
    names: &mut Names<'a>,
    tally: &mut Tally,
    brick: &'a ProcedureBrick,
) -> Result<Body, Memory>
    ensures made { IfOk result (λ x. Gave x tally.new (spec.body_in names.old brick.now tally.old)) }
    ensures kept { OnOk result (names.new ≡ names.old) }
{
    let answer = head_in(alloc, names, tally, brick)?;
    closed_body(alloc, names, tally, &answer, brick)
}

/// The parameters and the result of a procedure: the level of the parameters is open.
fn head_in<'a>(
    alloc: Global,
    names: &mut Names<'a>,
    tally: &mut Tally,
    brick: &'a ProcedureBrick,
) -> Result<Answer, Memory>
    ensures { IfOk result (λ r. spec.Opens names.new r tally.new names.old (spec.head_in names.old brick.now tally.old)) }
{
    let level = level_of(alloc, names, tally, brick)?;
    let answer = answer_of(alloc, names, tally, brick.at, &brick.result);
    let (level, answer) = both(level, answer)?;
    names.enter(level)?;
    Ok(answer)
}

/// The level of the parameters.
fn level_of<'a>(
    alloc: Global,
    names: &Names<'a>,
    tally: &mut Tally,
    brick: &'a ProcedureBrick,
) -> Result<Level<'a>, Memory>
    ensures { IfOk result (λ level. Gave level tally.new (spec.parameters names.now [] brick.now.fields tally.old)) }
{
    let mut level = Level::new(alloc);
    add_parameters(alloc, names, &mut level, tally, brick.fields.as_slice())?;
    Ok(level)
}

/// The body of a procedure, whose level of parameters is closed behind it.
fn closed_body<'a>(
    alloc: Global,
    names: &mut Names<'a>,
    tally: &mut Tally,
    answer: &Answer,
    brick: &'a ProcedureBrick,
) -> Result<Body, Memory>
    ensures made { IfOk result (λ x. Gave x tally.new (spec.closed_body answer.now brick.now names.old tally.old)) }
    ensures kept { OnOk result (names.new ≡ outside names.old) }
{
    let made = body(alloc, names, tally, answer, &brick.body)?;
    names.leave();
    close(tally, answer, brick.ends, &made)?;
    Ok(made)
}

/// With a result control never comes to ENDPROC.
fn close(tally: &mut Tally, answer: &Answer, ends: At, made: &Body) -> Result<(), Memory>
    ensures { OnOk result (tally.new ≡ spec.closed_at answer.now ends made.now tally.old) }
{
    let stands = is_wanted(answer) && !is_closed(made);
    tally.note_if(stands, CheckFault::NoResult(ends))
}

fn is_wanted(answer: &Answer) -> bool
    ensures { result ≡ spec.is_wanted answer.now }
{
    matches!(answer, Answer::Wanted(_))
}

/// The items from PROC to ENDPROC, both counted.
fn items_of(brick: &ProcedureBrick) -> Result<u16, Memory>
    ensures number { IfOk result (λ n. n ≡ counted.items_of brick.now) }
    ensures large { OnErr result (65536 ≤ counted.items_of brick.now) }
{
    items_between(brick.opens.item, brick.ends.item)
}

/// The items from one to another, both counted, where their number has 16 bits; more are answered as want of memory.
fn items_between(opens: u16, ends: u16) -> Result<u16, Memory>
    ensures number { IfOk result (λ n. n ≡ counted.items_between opens ends) }
    ensures large { OnErr result (65536 ≤ counted.items_between opens ends) }
{
    small_number((usize::from(ends) + 1).saturating_sub(usize::from(opens)))
}
