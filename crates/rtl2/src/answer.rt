ghost use Rattle.std.specs.Prelude.{◌≡◌, ◌≢◌, ◌⊎◌, ℕ, List, Option, map, drop, string_bytes, IfOk, IfErr};
ghost use Rattle.std.specs.IoError.{error_kind};
ghost use Rattle.std.specs.Vec.Iter.{into_iter_items};
ghost use Rattle.rt_outside.specs.Files.{Files};
ghost use Rattle.rt_run.specs.Inputs.{Feed};
ghost use Rattle.rt_accept.specs.Calls.{the_call, moved, stock, sunk, fed, still, unmoved, Stock, NothingDone, Says};
ghost use Rattle.rt_top.specs.Top.{words_line};
ghost use Rattle.rtl2.specs.Answers.{Answers};

use crate::telling::{WRONG_WORDS, complaint, explained, reports};
use crate::texts::{NO_TEXT, USAGE, VERSION};
use rt_outside::{Sink, Source, Store};
use rt_top::{tell, top};
use std::alloc::{AllocError, Global};
use std::env::Args;
use std::io;
use std::io::ErrorKind;

const DONE: u8 = 0;

const NO_MEMORY: u8 = 30;

/// The status of the program for these arguments, of which the first is the program's name; none where they aren't all text.
pub fn run<R: Eprint, S: Store, I: Source, O: Sink>(
    rt: &R,
    alloc: Global,
    args: io::Result<Args>,
    store: &mut S,
    input: &mut I,
    output: &mut O,
) -> u8
    // The words are the arguments without the first, unless memory for them is wanted.
    ensures words { IfOk args (λ all. let c = the_call
        (moved (stock S.files S.read_faults S.write_faults) store.old store.new)
        (moved (sunk O.written O.faults) output.old output.new)
        (moved (fed I.left I.ended I.faults) input.old input.new) in
        ((result ≡ 30) × NothingDone c) ⊎ Answers (map string_bytes (drop 1 (into_iter_items all))) c result) }
    ensures no_words { IfErr args (λ e. let c = the_call
        (moved (stock S.files S.read_faults S.write_faults) store.old store.new)
        (moved (sunk O.written O.faults) output.old output.new)
        (moved (fed I.left I.ended I.faults) input.old input.new) in
        ((result ≡ 30) × NothingDone c) ⊎ ((error_kind e ≢ ErrorKind.OutOfMemory) × Says words_line 10 c result)) }
{
    match args {
        Ok(args) => match words_of(alloc, args) {
            Ok(words) => answer(rt, alloc, &words, store, input, output),
            Err(_) => NO_MEMORY,
        },
        Err(error) => match error.kind() {
            ErrorKind::OutOfMemory => NO_MEMORY,
            _ => refuse_words(rt, output),
        },
    }
}

/// The words without the program's name.
pub fn words_of(alloc: Global, mut args: Args) -> Result<Vec<String>, AllocError>
    ensures { IfOk result (λ words. words.items ≡ drop 1 (into_iter_items args)) }
{
    let _ = args.next();
    args.collect(alloc)
}

/// The status for these words.
pub fn answer<R: Eprint, S: Store, I: Source, O: Sink>(
    rt: &R,
    alloc: Global,
    words: &[String],
    store: &mut S,
    input: &mut I,
    output: &mut O,
) -> u8
    ensures { Answers (map string_bytes words.now) (the_call
        (moved (stock S.files S.read_faults S.write_faults) store.old store.new)
        (moved (sunk O.written O.faults) output.old output.new)
        (moved (fed I.left I.ended I.faults) input.old input.new)) result }
{
    if let [word] = words {
        match word.as_str() {
            "--help" => return tell(output, USAGE.as_bytes(), DONE),
            "--version" => return tell(output, VERSION.as_bytes(), DONE),
            _ => {}
        }
    }
    let status = top(alloc, words, store, input, output);
    explained(rt, complaint(words), reports(words), status)
}

/// Puts the fault line of words that no command has, and writes the usage on standard error.
fn refuse_words<R: Eprint, O: Sink>(rt: &R, output: &mut O) -> u8
    ensures { (store : Stock) (left : Feed) (faults : ℕ) → Says words_line 10 (the_call
        (unmoved store)
        (moved (sunk O.written O.faults) output.old output.new)
        (still left faults)) result }
{
    let status = tell(output, b"FAULT 10\n", WRONG_WORDS);
    explained(rt, NO_TEXT, false, status)
}
