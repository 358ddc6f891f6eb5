//! `go`: a system is compiled and linked, its image written and run, and the run reported.

ghost use Rattle.std.specs.Prelude.{◌≡◌, ◌≤◌};
ghost use Rattle.rt_accept.specs.Calls.{the_call, moved, stock, sunk, fed};
ghost use Rattle.rt_headline.specs.Carrying.{GoEnds};
ghost use Rattle.rt_top.specs.Going.{asked_go};

use crate::accepting::accept;
use crate::carrying::{carry_out, give_up, prepare_all};
use crate::reporting::NO_MEMORY;
use rt_commands::TimedWords;
use rt_outside::{Sink, Source, Store, stretches_join};
use std::alloc::Global;

/// Does `go`, and answers its status.
pub fn go<S: Store, I: Source, O: Sink>(
    alloc: Global,
    words: &TimedWords<'_>,
    store: &mut S,
    input: &mut I,
    output: &mut O,
) -> u8
    requires { words.now.limit ≤ 4000000000 }
    ensures { GoEnds (S.files store.old) (the_call
        (moved (stock S.files S.read_faults S.write_faults) store.old store.new)
        (moved (sunk O.written O.faults) output.old output.new)
        (moved (fed I.left I.ended I.faults) input.old input.new)) (asked_go words.now) result }
{
    stretches_join();
    match accept(alloc, store, words) {
        Ok(accepted) => match prepare_all(alloc, words, accepted) {
            Ok(prepared) => carry_out(prepared, words, store, input, output),
            Err(_) => NO_MEMORY,
        },
        Err(why) => give_up(alloc, words, &why, store, output),
    }
}
