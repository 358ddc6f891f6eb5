//! What a procedure takes of the stack: parameters, locals, depth, and the points where it may call.
#![tactic(auto)]

mod frame;
mod laws;
mod measure;
mod procedure;
mod statements;
mod values;

pub use frame::{CallPoint, Frame, Target};
pub use laws::numbers_are_small;
pub use procedure::{frame_of, saturating_frame_of};
