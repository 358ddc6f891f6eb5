//! What bricks hold, and what is known of those of other modules.

ghost use Rattle.std.specs.Prelude.{◌≡◌, Some, IfOk, option_map};
ghost use Rattle.rt_frames.specs.Frames.{frame};
ghost use Rattle.rt_tree.specs.Within.{Within};
ghost use Rattle.rt_tree_nodes.specs.Scopes.{scope_of};
ghost use Rattle.rt_compile.specs.Data.{data_of};
ghost use Rattle.rt_compile.specs.Objects as object;

use crate::copies::{calls_of, copy_fields};
use crate::data::starts::data_of;
use crate::data::written::Data;
use rt_frames::{Frame, frame_of};
use rt_lower::Layouts;
use rt_modes::{Field, Mode};
use rt_object::{Content, DataContent, External, ProcContent, Supplied};
use rt_templates::ProcCode;
use rt_tree::{BrickSort, DataStart, TypedModule, copy_mode};
use rt_words::Memory;
use std::alloc::Global;

/// What an own or ENT brick holds, of which the code is given where it is a procedure.
pub(crate) fn content(
    alloc: Global,
    layouts: &Layouts,
    module: &TypedModule,
    number: usize,
    sort: &BrickSort,
    code: Option<ProcCode>,
) -> Result<Content, Memory>
    requires { Within «module».now }
    ensures { IfOk result (λ c. object.content_by layouts.now «module».now number sort.now code ≡ Some c) }
{
    match sort {
        BrickSort::Proc(mode, body) => match (body, code) {
            (Some(body), Some(code)) => {
                let proc = procedure(alloc, module, number, mode, body.items, code)?;
                Ok(Content::Proc(proc))
            }
            // (Not met: each own or ENT procedure has a body, and each body its code.)
            _ => Err(Memory),
        },
        BrickSort::Data(fields, starts) => {
            let data = items(alloc, layouts, module, fields.as_slice(), starts.as_slice())?;
            Ok(Content::Data(data))
        }
        BrickSort::Stack(words) => Ok(Content::Stack(*words)),
    }
}

/// A procedure of this mode and so many items, by its code.
fn procedure(
    alloc: Global,
    module: &TypedModule,
    number: usize,
    mode: &Mode,
    items: u16,
    code: ProcCode,
) -> Result<ProcContent, Memory>
    requires { Within «module».now }
    ensures { IfOk result (λ c. option_map (λ f. object.procedure_of mode.now items f code) (frame «module».now number) ≡ Some c) }
{
    let Frame {
        locals,
        deep,
        calls,
        ..
    } = frame(alloc, module, number)?;
    let calls = calls_of(alloc, calls)?;
    let mode = copy_mode(alloc, mode)?;
    let ProcCode {
        words,
        marks,
        relocations,
    } = code;
    Ok(ProcContent {
        mode,
        items,
        locals,
        deep,
        calls,
        words,
        marks,
        relocations,
    })
}

/// The frame of a brick, where it is an own or ENT procedure.
fn frame(alloc: Global, module: &TypedModule, number: usize) -> Result<Frame, Memory>
    requires { Within «module».now }
    ensures { IfOk result (λ f. frame «module».now number ≡ Some f) }
{
    match u16::try_from(number) {
        Ok(brick) if module.is_procedure(brick) => frame_of(alloc, module, brick),
        // (Not met: no brick has a number of more than 16 bits.)
        _ => Err(Memory),
    }
}

/// The data of these items with these starts.
fn items(
    alloc: Global,
    layouts: &Layouts,
    module: &TypedModule,
    fields: &[Field],
    starts: &[DataStart],
) -> Result<DataContent, Memory>
    ensures { IfOk result (λ d. d ≡ object.items_of fields.now (data_of layouts.now (scope_of «module».now) fields.now starts.now)) }
{
    let Data { bytes, relocations } = data_of(alloc, layouts, &module.scope(), fields, starts)?;
    let fields = copy_fields(alloc, fields)?;
    Ok(DataContent {
        fields,
        bytes,
        relocations,
    })
}

/// What is known of a brick of another module.
pub(crate) fn external(alloc: Global, sort: &BrickSort) -> Result<External, Memory>
    ensures { IfOk result (λ e. e ≡ object.external_of sort.now) }
{
    match sort {
        BrickSort::Proc(mode, _) => Ok(External::Proc(copy_mode(alloc, mode)?)),
        BrickSort::Data(fields, _) => Ok(External::Data(copy_fields(alloc, fields.as_slice())?)),
        BrickSort::Stack(_) => Ok(External::Stack),
    }
}

/// What is known of a brick of the supervisor.
pub(crate) fn supplied(alloc: Global, sort: &BrickSort) -> Result<Supplied, Memory>
    ensures { IfOk result (λ s. object.supplied_of sort.now ≡ Some s) }
{
    match sort {
        BrickSort::Proc(mode, _) => Ok(Supplied::Proc(copy_mode(alloc, mode)?)),
        BrickSort::Data(fields, _) => Ok(Supplied::Data(copy_fields(alloc, fields.as_slice())?)),
        // (Not met: no stack is supplied.)
        BrickSort::Stack(_) => Err(Memory),
    }
}
