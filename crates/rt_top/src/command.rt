//! The commands by their words.

ghost use Rattle.std.specs.Prelude.{◌≡◌, map, string_bytes};
ghost use Rattle.rt_accept.specs.Calls.{the_call, moved, stock, sunk, fed};
ghost use Rattle.rt_top.specs.Top.{Headline};

use crate::compiling::compile;
use crate::generating::generate;
use crate::going::go;
use crate::linking::link;
use crate::reporting::tell;
use crate::running::run;
use crate::showing::show;
use crate::stacking::stacks;
use rt_commands::{CommandWords, lend_words};
use rt_headline::the_headline_follows;
use rt_outside::{Sink, Source, Store};
use std::alloc::Global;

/// The status of words that no command has.
const WRONG_WORDS: u8 = 10;

/// Their fault line.
const WORDS_FAULT: &[u8] = b"FAULT 10\n";

/// Does what the words say, and answers the status.
///
/// - `go SYSTEM TICKS LIMIT NAME` reads a system's text, the ticks and the system's modules, links them, writes the image to NAME.IMG, runs
///   it with `input` and `output` as its console, and writes the report of the run to NAME.RPT. It answers as `run` then; 11, 13, 14 and
///   20 where a file or the system is refused, whose report is written, 21 where a file can't be written, and 30 for want of memory.
/// - `compile SOURCE OBJECT` compiles a module's text, and writes its object. It answers 0 then, 11 and 20 where the file is refused,
///   whose fault line is put, 21 where the file or the output can't be written, and 30 for want of memory.
/// - `link SYSTEM IMAGE MAP` reads a system's text and its modules, links them, and writes the image and then its map. It answers 0 then,
///   11, 12, 13 and 20 where a file is refused and 14 where the system isn't linked, whose fault line is put, 21 where a file or the
///   output can't be written, and 30 for want of memory.
/// - `stacks SYSTEM` does as `link`, but writes no file, and puts the stack table.
/// - `run IMAGE TICKS LIMIT REPORT` runs an image under ticks, with `input` and `output` as its console, and writes the report of
///   the run. It answers 0 where all tasks ended without error, 1 where they ended and one with an error, 2 at the limit, 3 where
///   the run is stalled, 4 where an instruction faults, 13 and 15 where a file is refused, 20 and 21 where a count of faults says
///   why, and 30 for want of memory.
/// - `show OBJECT` puts the listing of an object. It answers 0 then, 12 and 20 where the file is refused, whose fault line is put,
///   21 where the output can't be written, and 30 for want of memory.
/// - `gen N NAME` writes the three texts of a generated system, does as `go NAME.SYS NAME.TCK 4000000000 NAME` with these texts, reading
///   no file, and puts a line behind a run that answers less than 20.
///
/// For all other words the fault line is put, and the answer is 10.
pub fn top<S: Store, I: Source, O: Sink>(
    alloc: Global,
    words: &[String],
    store: &mut S,
    input: &mut I,
    output: &mut O,
) -> u8
    ensures { Headline (map string_bytes words.now) (the_call
        (moved (stock S.files S.read_faults S.write_faults) store.old store.new)
        (moved (sunk O.written O.faults) output.old output.new)
        (moved (fed I.left I.ended I.faults) input.old input.new)) result }
{
    the_headline_follows();
    let Some(lent) = lend_words(words) else {
        return tell(output, WORDS_FAULT, WRONG_WORDS);
    };
    match lent {
        CommandWords::Go(timed) => go(alloc, &timed, store, input, output),
        CommandWords::Compile(source, object) => compile(alloc, source, object, store, output),
        CommandWords::Link(system, image, map) => link(alloc, system, image, map, store, output),
        CommandWords::Stacks(system) => stacks(alloc, system, store, output),
        CommandWords::Run(timed) => run(alloc, &timed, store, input, output),
        CommandWords::Show(object) => show(alloc, object, store, output),
        CommandWords::Gen(n, name) => generate(alloc, n, name, store, input, output),
    }
}
