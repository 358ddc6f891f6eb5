//! The intermediate code of procedures and modules.

ghost use Rattle.std.specs.Prelude.{◌≡◌, ◌-◌, ◌++◌, ◌∷◌, [], false, length, IfOk, OnOk};
ghost use Rattle.rt_tree.specs.Within.{parameters_of, tree_of};
ghost use Rattle.rt_work_state.specs.Nodes as n;
ghost use Rattle.rt_lower.specs.Code as code;
ghost use Rattle.rt_lower.specs.Drafts as drafts;
ghost use Rattle.rt_lower.specs.Layouts.{AreLayouts};

use crate::draft::Draft;
use crate::layouts::Layouts;
use rt_icode::{IModule, IProc, Ins};
use rt_modes::Mode;
use rt_resolve::body_tree;
use rt_tree::{Brick, BrickSort, ProcBody, TypedModule};
use rt_words::{List, Memory, Name};
use rt_work_state::SeqNode;
use std::alloc::Global;

/// The intermediate code of a module: of each own or ENT procedure, in the order of declaration, its name, its items and its code.
/// It takes time linear in the trees of the procedures.
///
/// # Errors
///
/// Want of memory; also where a number has more bits than its instruction holds, or a record or data brick no size up to 57,344 bytes,
/// which comes about in no module that is `Within` and whose records and data bricks have such sizes.
pub fn lower(alloc: Global, module: &TypedModule) -> Result<IModule, Memory>
    ensures { IfOk result (λ m. code.IsIntermediate module.now m) }
{
    let layouts = Layouts::of(alloc, module.parts())?;
    lower_by(alloc, &layouts, module)
}

/// The same, by how the data of the module lie.
///
/// # Errors
///
/// Want of memory; also where a number has more bits than its instruction holds.
pub fn lower_by(alloc: Global, layouts: &Layouts, module: &TypedModule) -> Result<IModule, Memory>
    ensures { IfOk result (λ m. m ≡ code.intermediate layouts.now module.now) }
{
    let mut procs = List::new(alloc, 0)?;
    for (number, brick) in module.bricks().as_slice().iter().enumerate() {
        add(alloc, layouts, module, number, brick, &mut procs)?;
    }
    Ok(IModule { procs })
}

fn add(
    alloc: Global,
    layouts: &Layouts,
    module: &TypedModule,
    number: usize,
    brick: &Brick,
    procs: &mut List<IProc>,
) -> Result<(), Memory>
    ensures { OnOk result (procs.new ≡ procs.old ++ code.procedure_by layouts.now «module».now number brick.now brick.now.sort) }
{
    match &brick.sort {
        BrickSort::Proc(mode, Some(body)) => {
            let code = procedure(alloc, layouts, module, number, mode, body)?;
            push(alloc, &brick.name, body.items, code, procs)
        }
        _ => Ok(()),
    }
}

fn push(
    alloc: Global,
    name: &Name,
    items: u16,
    code: List<Ins>,
    procs: &mut List<IProc>,
) -> Result<(), Memory>
    ensures { OnOk result (procs.new ≡ procs.old ++ record { name = name.now; items = items; code = code } ∷ []) }
{
    let name = name.copy(alloc)?;
    procs.push(IProc { name, items, code })
}

fn procedure(
    alloc: Global,
    layouts: &Layouts,
    module: &TypedModule,
    number: usize,
    mode: &Mode,
    body: &ProcBody,
) -> Result<List<Ins>, Memory>
    ensures { IfOk result (λ c. c ≡ code.code_of layouts.now number (parameters_of mode.now) (length body.now.locals - parameters_of mode.now) (tree_of «module».now body.now)) }
{
    let enter = frame(number, mode, body)?;
    let scope = module.scope().with_locals(body.locals.as_slice());
    let tree = body_tree(alloc, &scope, &body.body)?;
    code_of(alloc, layouts, enter, &tree)
}

/// What makes the frame of a procedure.
fn frame(number: usize, mode: &Mode, body: &ProcBody) -> Result<Ins, Memory>
    ensures { IfOk result (λ i. i ≡ Ins.Enter number (parameters_of mode.now) (length body.now.locals - parameters_of mode.now) false) }
{
    let count = parameters(mode);
    Ok(Ins::Enter {
        brick: word(number)?,
        parameters: word(count)?,
        locals: word(body.locals.len().saturating_sub(count))?,
        recovers: false,
    })
}

#[tactic(auto, using(crate::proofs::Whole::written))]
fn code_of(
    alloc: Global,
    layouts: &Layouts,
    enter: Ins,
    tree: &SeqNode,
) -> Result<List<Ins>, Memory>
    ensures { IfOk result (λ c. c ≡ code.code_behind layouts.now enter (n.seq tree.now)) }
{
    let mut draft = Draft::new(alloc)?;
    draft.put(enter)?;
    draft.sequence(alloc, layouts, tree)?;
    draft.put(Ins::Leave)?;
    draft.laid_out(alloc)
}

/// The number of parameters.
fn parameters(mode: &Mode) -> usize
    ensures { result ≡ parameters_of mode.now }
{
    match mode {
        Mode::Proc(parameters, _) => parameters.len(),
        _ => 0,
    }
}

/// A number as one of 16 bits; another is answered as want of memory.
fn word(number: usize) -> Result<u16, Memory>
    ensures { IfOk result (λ n. n ≡ number) }
{
    if number > 65535 {
        Err(Memory)
    } else {
        Ok(number as u16)
    }
}
