//! Instructions by their words and texts, and the state before and after one. Numbers are octal.
//!
//! - `words 012700 000101`: the instruction that begins these words, how many words it has, and its words anew.
//! - `every 000101 000102`: of all first words, with these two behind them, how many begin an instruction.
//! - `step 010001 : R0=5 R1=7 SP=300 PC=10 NZVC=0111 100=7`: how the instruction ends whose words stand at PC, the
//!   registers that aren't 0 then, the flags, and the word of the data that is named by its address. What isn't named is 0.
//! - `branch 001002`: whether the branch at 0 is taken to 6, for each setting of N, Z, V and C from 0000 to 1111.

mod branch;
mod decoded;
mod every;
mod setting;
mod stepped;

pub use branch::describe_branch;
pub use decoded::describe_words;
pub use every::describe_every;
pub use stepped::describe_step;
