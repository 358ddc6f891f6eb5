//! A module's text cut into layout, comments and pieces, each piece the longest that begins there (BS 5904,
//! items).
//!
//! `specs/Bytes.antt`, `Pieces.antt` and `Cutting.antt` have the definition: `Cut` relates what is left of a
//! text to its pieces and to how they end. [`next_piece`] answers what the cut begins with
//! (`specs/Begins.antt`), and [`one_cut`] says that there is one cut. The other functions are what is needed
//! to say what a piece means. `specs/Steps.antt` has the cut as a function, against which the code is proved.
#![tactic(auto)]

mod bytes;
mod cut;
mod fault;
mod item;
mod mark;
mod number;
mod step;
mod word;

pub use bytes::{is_blank, is_capital, is_digit, is_letter, is_printable, upper};
pub use cut::{Found, Rest, Seen, next_piece, one_cut};
pub use fault::TextFault;
pub use item::{Item, ItemKind, Mark, Span, Word};
pub use mark::mark_of;
pub use number::{Base, is_digit_of, radix, value_of};
pub use step::string_len;
pub use word::word_of;
