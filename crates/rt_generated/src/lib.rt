//! The texts of `gen N NAME`: a module, a system and ticks, as functions of N and NAME (`specs/Texts.antt`); a store that holds just these
//! three and whose reads never fail, [`TextStore`]; and the line that is put behind the run.
#![tactic(auto)]

mod line;
mod store;
mod texts;
mod writing;

pub use line::{begin_line, end_line};
pub use store::{NamedText, TextStore, Texts};
pub use texts::make_texts;
pub use writing::write_texts;
