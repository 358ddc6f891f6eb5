//! The instructions of the machine, a PDP-11: their words, their texts and what they compute.
//!
//! - [`decode`]: the instruction that begins some words, and how many of them it has.
//! - [`encode`]: the words of an instruction. The two go both ways.
//! - [`print_instr`]: its text, as a listing has it.
//! - [`laws`]: that these two and `first::first` have the same codes.
//! - [`first::first`]: the instruction that a first word begins, with 0 for each word that follows, for a machine that
//!   fetches those words in their turn.
//!
//! `decode` goes by the octal codes alone. What a machine refuses further, as DIV of an odd register, a jump to a register
//! or a TRAP without a service, are instructions here.
//!
//! What operations compute of words and bytes, without registers and memory, is in `specs/Values.antt`: sums and differences
//! of a size, what an operation of one operand makes of a value, with its carry and overflow, products, quotients and shifts.
//! Each function is its definition.
//!
//! The operations are types too ([`OnTwo`], [`OnSum`], [`OnOne`], [`Width`]), so that what is generic over them is built for each
//! by itself.

#![tactic(auto)]

mod decoding;
mod encoding;
pub mod first;
pub mod instruction;
pub mod laws;
pub mod operations;
mod printing;
mod shifting;
mod value;

pub use decoding::decode;
pub use encoding::encode;
pub use instruction::{
    Condition, DoubleOp, Instr, Operand, Pointer, Reg, RegisterOp, SingleOp, Size, SumOp, WordOp,
};
pub use operations::{OnOne, OnSum, OnTwo, Width};
pub use printing::print_instr;
pub use shifting::{distance, product, shift, signed, word_distance};
pub use value::{
    Shift, add, carry_of, changed, clear_bits, differ_of, extend, half_of, is_negative, limit_of,
    overflow_of, set_low_byte, subtract,
};
