//! The frame of a procedure.

ghost use Rattle.std.specs.Prelude.{◌≡◌, true, IfOk, Some, option_map, slice_get};
ghost use Rattle.rt_modes.specs.declared.mode.Mode.{out-Mode};
ghost use Rattle.rt_tree_nodes.specs.declared.brick.BrickSort.TheVariants as sort;
ghost use Rattle.rt_tree.specs.Modules.{has_body, is_procedure};
ghost use Rattle.rt_tree.specs.Within.{Within, parameters_of};
ghost use Rattle.rt_frames.specs.Frames as spec;
ghost use Rattle.rt_frames.specs.Saturated.{saturated, saturated_frame};

use crate::frame::Frame;
use crate::laws::numbers_are_small;
use crate::measure::{plus, word};
use crate::statements::Walk;
use rt_modes::Mode;
use rt_tree::{BrickSort, ProcBody, TypedModule};
use rt_words::{List, Memory};
use std::alloc::Global;

/// What brick `brick`, an own or ENT procedure of a module that is `Within`, takes of the stack, in words. It takes time linear in
/// the procedure, however many bricks the module has.
///
/// # Errors
///
/// Want of memory.
pub fn frame_of(alloc: Global, module: &TypedModule, brick: u16) -> Result<Frame, Memory>
    requires procedure { is_procedure (slice_get module.now.bricks brick) ≡ true }
    requires within { Within module.now }
    ensures { IfOk result (λ f. spec.frame module.now brick ≡ Some f) }
{
    numbers_are_small();
    let _fitting = module.parts();
    saturating_frame_of(alloc, module, brick)
}

/// The same for any module, with each number as 16 bits keep it: 65,535 stands for each that is greater.
///
/// # Errors
///
/// Want of memory.
pub fn saturating_frame_of(alloc: Global, module: &TypedModule, brick: u16) -> Result<Frame, Memory>
    requires procedure { is_procedure (slice_get module.now.bricks brick) ≡ true }
    ensures { IfOk result (λ f. option_map saturated_frame (spec.frame module.now brick) ≡ Some f) }
{
    match module.bricks().get(usize::from(brick)) {
        Some(found) => match &found.sort {
            BrickSort::Proc(mode, body) => {
                let frame = procedure_frame(alloc, module, mode, body)?;
                Ok(frame)
            }
            _ => unreachable!(),
        },
        None => unreachable!(),
    }
}

/// The frame of an own or ENT procedure: one that has a body.
fn procedure_frame(
    alloc: Global,
    module: &TypedModule,
    mode: &Mode,
    body: &Option<ProcBody>,
) -> Result<Frame, Memory>
    requires { has_body (sort.Proc mode.now body.now) ≡ true }
    ensures { IfOk result (λ f. option_map saturated_frame (spec.frame_by «module».now mode.now body.now) ≡ Some f) }
{
    match body {
        Some(body) => {
            let frame = body_frame(alloc, module, mode, body)?;
            Ok(frame)
        }
        None => unreachable!(),
    }
}

fn body_frame(
    alloc: Global,
    module: &TypedModule,
    mode: &Mode,
    body: &ProcBody,
) -> Result<Frame, Memory>
    ensures { IfOk result (λ f. f ≡ saturated_frame (spec.body_frame «module».now (parameters_of mode.now) body.now)) }
{
    let scope = module.scope().with_locals(body.locals.as_slice());
    let mut walk = Walk {
        deep: 0,
        recovers: false,
        calls: List::new(alloc, 0)?,
    };
    walk.body(alloc, &scope, &body.body)?;
    let count = parameters(mode);
    Ok(Frame {
        params: word(count),
        locals: local_words(count, body.locals.len(), walk.recovers),
        deep: walk.deep,
        calls: walk.calls,
    })
}

/// The number of parameters.
fn parameters(mode: &Mode) -> usize
    ensures { result ≡ parameters_of mode.now }
{
    match mode {
        Mode::Proc(parameters, _) => parameters.len(),
        _ => 0,
    }
}

/// The words of the locals behind the parameters.
fn local_words(parameters: usize, locals: usize, recovers: bool) -> u16
    ensures { result ≡ saturated (spec.words_of parameters locals recovers) }
{
    let own = word(locals.saturating_sub(parameters));
    if recovers { plus(own, 4) } else { own }
}
