//! The code of modules.
ghost use Rattle.std.specs.Prelude.{◌≡◌, ◌+◌, ◌≤◌, ◌++◌, ◌∷◌, [], nat_lt, length, map, sum, IfOk, IfErr, OnOk};
ghost use Rattle.rt_icode.specs.Weights as weights;
ghost use Rattle.rt_templates.specs.Lines.{after};
ghost use Rattle.rt_templates.specs.Templates.{templates};
ghost use Rattle.rt_templates.specs.Expanded.{IsCodeOf, Faults, RefusesProc, IsNamed, most, code_of, proc_of, size_of};

use crate::code::{Code, ProcCode};
use crate::fault::ExpandFault;
use crate::layout::{Layout, layout_of};
use crate::template::put_template;
use rt_icode::{IModule, IProc, Ins, words};
use rt_words::{List, Memory, Name};
use std::alloc::Global;

/// The most words of a procedure's code.
const MOST: u32 = 16383;

/// The code of each procedure of a module. Refused is the first procedure whose code has more than 16,383 words.
pub fn expand(alloc: Global, m: &IModule) -> Result<Code, ExpandFault>
    ensures code { IfOk result (λ c. IsCodeOf m.now c) }
    ensures refused { IfErr result (λ f. Faults m.now f) }
{
    let mut procs = List::new(alloc, m.procs.len())?;
    for p in m.procs.as_slice() {
        add(alloc, p, &mut procs)?;
    }
    Ok(Code { procs })
}

fn add(alloc: Global, p: &IProc, procs: &mut List<ProcCode>) -> Result<(), ExpandFault>
    ensures added { OnOk result ((procs.new ≡ procs.old ++ proc_of p.now ∷ []) × (size_of p.now.code ≤ most)) }
    ensures refused { IfErr result (RefusesProc p.now) }
{
    if is_too_long(p.code.as_slice()) {
        return Err(too_long(alloc, &p.name));
    }
    procs.push(code(alloc, p.code.as_slice())?)?;
    Ok(())
}

fn too_long(alloc: Global, name: &Name) -> ExpandFault
    ensures { IsNamed name.now result }
{
    match name.copy(alloc) {
        Ok(proc) => ExpandFault::ProcTooLong { proc },
        Err(Memory) => ExpandFault::Memory,
    }
}

fn is_too_long(code: &[Ins]) -> bool
    ensures { result ≡ nat_lt most (size_of code.now) }
{
    let mut size = 0;
    for i in code {
        size += words(i);
        if size > MOST {
            return true;
        }
    }
    false
}

fn code(alloc: Global, code: &[Ins]) -> Result<ProcCode, Memory>
    requires { sum (map weights.words_of code.now) ≤ most }
    ensures { IfOk result (λ c. c ≡ code_of code.now) }
{
    let layout = layout_of(alloc, code)?;
    let mut out = ProcCode::new(alloc)?;
    put_templates(&mut out, &layout, code)?;
    Ok(out)
}

fn put_templates(out: &mut ProcCode, layout: &Layout, code: &[Ins]) -> Result<(), Memory>
    requires { length out.old.words + sum (map weights.words_of code.now) ≤ most }
    ensures { OnOk result (out.new ≡ after out.old (templates layout.now 0 code.now)) }
{
    for (number, i) in code.iter().enumerate() {
        put_template(out, layout, number, i)?;
    }
    Ok(())
}
