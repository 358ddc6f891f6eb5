//! The system text and the tick text, read or refused, and the text of the library.
//!
//! A text is read by its lines. Where it is refused, the answer has the number of the first line that
//! breaks a rule.
#![tactic(auto)]

mod fault;
mod fields;
mod laws;
mod library_text;
mod line;
mod lines;
mod numbers;
mod parts;
mod system;
mod ticks;

pub use fault::LineFault;
pub use fields::is_file;
pub use laws::{texts_have_one_reading, tick_texts_have_one_reading};
pub use library_text::library;
pub use numbers::number;
pub use parts::{Entry, SystemParts, Task};
pub use system::{System, read_system};
pub use ticks::{Ticks, read_ticks};
