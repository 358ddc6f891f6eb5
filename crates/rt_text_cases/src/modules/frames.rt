//! Frames of procedures: parameters, locals, the greatest depth, and the points where they call.

ghost use Rattle.rt_tree.specs.Within.{Within};

use crate::expansion::write_bytes;
use crate::stop::Stop;
use crate::systems::brick_named;
use rt_frames::{CallPoint, Frame, Target, frame_of, saturating_frame_of};
use rt_tree::TypedModule;
use std::alloc::Global;
use std::fmt::Write;

/// Writes the frame of the procedure of this name.
pub fn show_frame_of(
    alloc: Global,
    module: &TypedModule,
    name: &str,
    out: &mut String,
) -> Result<(), Stop>
    requires { Within «module».now }
{
    match brick_named(module, name.as_bytes()) {
        Some(brick) if module.is_procedure(brick) => {
            let frame = frame_of(alloc, module, brick)?;
            show_frame(module, &frame, out)
        }
        _ => Err(Stop::Line),
    }
}

/// Writes the frame of the last brick, of a module that may be none of a text.
pub fn show_last_frame(alloc: Global, module: &TypedModule, out: &mut String) -> Result<(), Stop> {
    match u16::try_from(module.bricks().len().saturating_sub(1)) {
        Ok(last) if module.is_procedure(last) => {
            let frame = saturating_frame_of(alloc, module, last)?;
            show_frame(module, &frame, out)
        }
        _ => Err(Stop::Line),
    }
}

fn show_frame(module: &TypedModule, frame: &Frame, out: &mut String) -> Result<(), Stop> {
    let (params, locals, deep) = (frame.params, frame.locals, frame.deep);
    write!(out, " {params} {locals} {deep}")?;
    for point in frame.calls.as_slice() {
        show_point(module, point, out)?;
    }
    Ok(())
}

fn show_point(module: &TypedModule, point: &CallPoint, out: &mut String) -> Result<(), Stop> {
    out.push_str("; ")?;
    show_target(module, &point.target, out)?;
    let (args, depth) = (point.args, point.depth);
    Ok(write!(out, " {args} above {depth}")?)
}

fn show_target(module: &TypedModule, target: &Target, out: &mut String) -> Result<(), Stop> {
    match target {
        Target::Brick(number) => show_name(module, *number, out),
        Target::Variable(_) => Ok(out.push_str("variable")?),
        Target::Error => Ok(out.push_str("error")?),
    }
}

fn show_name(module: &TypedModule, number: u16, out: &mut String) -> Result<(), Stop> {
    match module.bricks().get(usize::from(number)) {
        Some(brick) => write_bytes(out, brick.name.as_slice()),
        None => Err(Stop::Line),
    }
}
