//! Runs of images under ticks, with consoles in memory that fail at named calls.
//!
//! - `ticks 5 0*3`: the gaps of the ticks, for the images behind it. `ticks` alone: there are none.
//! - `input AB : 1 3`: the console's input, whose first and third call fail. `output 100 : 2`: its output, with room for a
//!   hundred bytes, whose second call fails.
//! - `image 52544901 ..`: a run of the image that these bytes are, in hexadecimal digits, with what stands before it.
//! - `go 100`: the run up to so many instructions, counted from the start.
//! - `flat 100 52544901 ..`: so many instructions of the first task of an image, each by `step` over a flat memory.
//!
//! `Limit; instructions 10, steps 20; ticks 0 0; <AB>; queue 1: 1` says how the run ended, how many instructions were carried
//! out and the marks of them added up, the steps at each tick that was taken, what was put, and which tasks are ready by priority.
//! Of more than twenty ticks the number is told, and the last one.

mod images;
mod session;
mod single_steps;
mod texts;
mod told;

pub use images::{describe_go, describe_image};
pub use session::{Session, set_input, set_output, set_ticks};
pub use single_steps::describe_flat;
