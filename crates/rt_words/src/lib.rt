//! The list types, the arithmetic of 16-bit words and the fields of formats that all other crates stand on.
//!
//! - [`List`] and [`Bytes`]: finished lists, which contracts see as the list of their elements. They may
//!   stand in a type that leads back to itself, as a tree's children.
//! - [`ListBuilder`] and [`Text`]: lists under construction, which contracts see as their elements and a
//!   number, the spare: so many pushes take no memory.
//! - [`Boxed`]: a box that contracts see as what it holds.
//! - [`Name`]: a text of 1 to 32 bytes.
//! - [`wrap_add`], [`wrap_sub`], [`wrap_mul`], [`frac_mul`], [`sdiv`], [`shift`]: the operators of the
//!   language on words of 16 bits, and [`signed`], the number for which a word stands.
//! - [`octal6`]: a word in six octal digits.
//!
//! Formats are read and written field by field.
//! `specs/Format.antt` has what a format is, and how formats are made of others; `specs/FormatLaws.antt` what each of them has. The
//! functions read and write the fields that the formats of this repository have in common. A reader answers what stands in
//! front of the bytes and the bytes behind it; a field that is cut or out of range is refused with the number of bytes that are
//! left from it on.

#![tactic(auto)]

mod arithmetic;
mod boxed;
mod builder;
mod kinds;
mod laws;
mod list;
mod lists;
mod memory;
mod name;
mod operators;
mod read;
mod stop;
mod write;

pub use arithmetic::{low_word, signed, wrap_add, wrap_sub};
pub use boxed::Boxed;
pub use builder::{ListBuilder, Text};
pub use kinds::{Quotient, Shift};
pub use laws::{
    bytes_are_words, division_is_whole, words_are_exact, words_are_numbers, words_are_ordered,
    words_wrap,
};
pub use list::{Bytes, List};
pub use lists::{read_bytes_within, read_words};
pub use memory::Memory;
pub use name::Name;
pub use operators::{frac_mul, octal6, sdiv, shift, wrap_mul};
pub use read::{
    front_word, read_block, read_byte, read_byte_within, read_end, read_name, read_tag, read_word,
    read_word_within,
};
pub use stop::Stop;
pub use write::{put_name, put_word, put_words};
