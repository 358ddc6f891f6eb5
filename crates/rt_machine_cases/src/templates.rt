//! Intermediate instructions, their templates, and these on the machine.
//!
//! - `ins Load Word 2.0+4`: an instruction as it is printed again, its visible step, what it weighs, and its template: each
//!   instruction of the machine with its mark, and the relocations. It is instruction 2 of a procedure of brick 1 with two
//!   parameters, of which instruction k begins at 100 times k.
//! - `run Merge + : 5 177777 : 10000=7`: the template on the machine, over these values (the last one stands last; `-` for none) and with
//!   these words of the data, in octal: where it goes, the values then, the visible steps, and the words of the data that
//!   were named. The procedure stands at 1000, instruction 2 at 1200; brick b stands at 4000 and b times 400, string n at 3000
//!   and n times 20; the frame is at 20000, so parameters 0 and 1 at 20006 and 20004, locals from 2 on at 17776 and below; the
//!   task's block is at 20100.
//! - `proc Enter 1 0 0; Leave`: the words, marks and relocations of a procedure.
//! - `support`: the support code and where its routines begin.

mod addresses;
mod listing;
mod machine;
mod operands;
mod reading;
mod running;
mod template;
mod told;

pub use listing::{describe_ins, describe_proc, describe_support};
pub use running::describe_run;
