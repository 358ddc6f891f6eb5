//! Laws of frames. Each function does nothing: its contract is the law.
//!
//! `specs/Plain.antt` has the points of plain trees.
#![tactic(auto)]

ghost use Rattle.rt_frames_laws.specs.Laws.{PointsArePlain};

/// The points of the frame of an own or ENT procedure are those of its plain tree, and so is its greatest depth, where every node of
/// its module fits.
pub fn points_are_plain()
    ensures { PointsArePlain }
{}
