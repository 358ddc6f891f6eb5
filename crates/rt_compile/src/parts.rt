//! The parts of the object of a module.

ghost use Rattle.std.specs.Prelude.{◌≡◌, map, IfOk, IfErr};
ghost use Rattle.rt_tree.specs.Within.{Within};
ghost use Rattle.rt_lower.specs.Code.{intermediate};
ghost use Rattle.rt_templates.specs.Expanded.{proc_of};
ghost use Rattle.rt_compile.specs.Objects as object;
ghost use Rattle.rt_compile.specs.Walks as walks;
ghost use Rattle.rt_compile.specs.Texts.{IsCodeFault, IsCodeFaultWith};

use crate::bricks::compiled;
use crate::copies::{copy_strings, copy_table};
use crate::fault::CompileFault;
use crate::taken::module::taken;
use rt_lower::{Layouts, lower_by};
use rt_object::{Brick, ObjectParts};
use rt_templates::{ProcCode, expand};
use rt_tree::TypedModule;
use rt_words::{List, Memory};
use std::alloc::Global;

/// The parts of the object of a module that is `Within`.
///
/// # Errors
///
/// The first procedure whose code has more than 16,383 words; or want of memory.
pub(crate) fn parts_of(alloc: Global, module: &TypedModule) -> Result<ObjectParts, CompileFault>
    requires { Within «module».now }
    ensures object { IfOk result (object.IsObjectOf «module».now) }
    ensures fault { IfErr result (IsCodeFault «module».now) }
{
    let layouts = Layouts::of(alloc, module.parts())?;
    parts_by(alloc, &layouts, module)
}

/// The same, by how the data of the module lie.
fn parts_by(
    alloc: Global,
    layouts: &Layouts,
    module: &TypedModule,
) -> Result<ObjectParts, CompileFault>
    requires { Within «module».now }
    ensures object { IfOk result (object.IsObjectWith layouts.now «module».now) }
    ensures fault { IfErr result (IsCodeFaultWith layouts.now «module».now) }
{
    let code = code_of(alloc, layouts, module)?;
    let bricks = compiled(alloc, layouts, module, code)?;
    Ok(joined(alloc, module, bricks)?)
}

/// The code of the procedures of a module, in their order.
fn code_of(
    alloc: Global,
    layouts: &Layouts,
    module: &TypedModule,
) -> Result<List<ProcCode>, CompileFault>
    ensures code { IfOk result (λ cs. cs ≡ map proc_of (intermediate layouts.now «module».now).procs) }
    ensures short { IfOk result (λ _. object.AreShort (intermediate layouts.now «module».now)) }
    ensures fault { IfErr result (IsCodeFaultWith layouts.now «module».now) }
{
    let lowered = lower_by(alloc, layouts, module)?;
    let code = expand(alloc, &lowered)?;
    Ok(code.procs)
}

/// The object with these bricks.
fn joined(alloc: Global, module: &TypedModule, bricks: List<Brick>) -> Result<ObjectParts, Memory>
    ensures { IfOk result (walks.IsJoined «module».now bricks) }
{
    let taken = taken(alloc, module)?;
    let title = module.title().copy(alloc)?;
    let records = copy_table(alloc, module.modes())?;
    let strings = copy_strings(alloc, module.strings().as_slice())?;
    Ok(ObjectParts {
        title,
        records,
        strings,
        bricks,
        taken,
    })
}
